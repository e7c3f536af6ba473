//! The codec `reshape` (Zarr extension "reshape").
ghost use Rattle.std.specs.Prelude.{◌≡◌, ◌+◌, ◌<◌, ◌≤◌, ◌/◌, ◌^◌, ◌&&◌, true, None, Some, map};
ghost use Rattle.std.specs.Prelude.{length, nat_lt, slice_index, IfOk, ◌↔◌, IsTrue, option_map};
ghost use Rattle.std.specs.Prelude.{if◌then◌else◌};
ghost use Rattle.std.specs.List.{flat_map, count_by, list_all};
ghost use Rattle.zarrs_subset.specs.Boxes.{position_count};
ghost use Rattle.zarrs_codec_array.specs.Arrays.{reshaped};
ghost use Rattle.zarrs_codec_array.specs.Gathered.{encoded_shape};
ghost use Rattle.zarrs_codec_array.specs.Extents.{dimensions_in, is_rest, are_distinct, is_reshape};
ghost use Rattle.zarrs_codec_array.specs.Extents.{extent_view, extents_view, fitting_extent, fitting_shape};

use crate::lists;
use std::alloc::{AllocError, Global};
use std::collections::BTreeSet;
use std::num::NonZeroU64;
use zarrs_subset::element_count;

/// An entry of the shape of `reshape`: one extent of the encoded array.
#[derive(Debug, Drop)]
pub enum ReshapeExtent {
    /// An extent.
    Size(NonZeroU64),
    /// The product of the extents of these dimensions of the decoded array.
    ProductOf(Vec<u64>),
    /// What the other entries leave of the number of cells.
    Rest,
}

impl ReshapeExtent {
    /// The same entry.
    ///
    /// # Errors
    /// `AllocError`: out of memory.
    pub fn try_clone(&self, alloc: Global) -> Result<ReshapeExtent, AllocError>
        ensures { IfOk result (λ copy. extent_view copy ≡ extent_view self.now) }
    {
        match self {
            ReshapeExtent::Size(size) => Ok(ReshapeExtent::Size(*size)),
            ReshapeExtent::ProductOf(dimensions) => {
                Ok(ReshapeExtent::ProductOf(Vec::from_slice(alloc, dimensions)?))
            }
            ReshapeExtent::Rest => Ok(ReshapeExtent::Rest),
        }
    }
}

/// The codec `reshape`: the array gets another shape, and its cells keep their order.
#[derive(Debug, Drop)]
pub struct ReshapeCodec {
    entries: Vec<ReshapeExtent>,
    ghost is_reshape: { is_reshape (extents_view entries.items) ≡ true },
}

impl ReshapeCodec {
    ghost use Rattle.zarrs_codec_array.specs.Reshape.{entries_of};

    /// The codec of these entries; `None` if they name a dimension twice, or if more than one is `Rest`.
    ///
    /// # Errors
    /// `AllocError`: out of memory.
    pub fn new(
        alloc: Global,
        entries: Vec<ReshapeExtent>,
    ) -> Result<Option<ReshapeCodec>, AllocError>
        ensures { IfOk result (λ made. option_map entries_of made
            ≡ (let es = extents_view entries.items in if is_reshape es then Some es else None)) }
    {
        if is_reshape(alloc, &entries)? {
            Ok(Some(ReshapeCodec { entries }))
        } else {
            Ok(None)
        }
    }

    /// For each dimension of the encoded array its extent.
    pub fn entries(&self) -> &[ReshapeExtent]
        ensures { extents_view result.now ≡ entries_of self.now }
    {
        &self.entries
    }

    /// The same codec.
    ///
    /// # Errors
    /// `AllocError`: out of memory.
    pub fn try_clone(&self, alloc: Global) -> Result<ReshapeCodec, AllocError>
        ensures { IfOk result (λ copy. entries_of copy ≡ entries_of self.now) }
    {
        let entries = copied_entries(alloc, &self.entries)?;
        Ok(ReshapeCodec { entries })
    }

    /// The shape of the encoded array; `None` if an entry names a dimension that the shape does not have, if an
    /// extent or the number of cells passes `u64`, or if the encoded array has another number of cells.
    pub(crate) fn encoded_shape(
        &self,
        alloc: Global,
        shape: &[u64],
    ) -> Result<Option<Vec<u64>>, AllocError>
        ensures { IfOk result (λ made. option_map (λ made. made.items) made
            ≡ encoded_shape (reshaped (entries_of self.now)) shape.now) }
    {
        let Some(count) = element_count(shape) else {
            return Ok(None);
        };
        reshaped_shape(alloc, &self.entries, shape, count)
    }
}

fn copied_entries(
    alloc: Global,
    entries: &[ReshapeExtent],
) -> Result<Vec<ReshapeExtent>, AllocError>
    ensures { IfOk result (λ copy. extents_view copy.items ≡ extents_view entries.now) }
{
    let mut copy = Vec::with_capacity(alloc, entries.len())?;
    for entry in entries {
        copy.push(entry.try_clone(alloc)?)?;
    }
    Ok(copy)
}

/// The shape of these entries, for an array of this shape, which has `count` cells.
fn reshaped_shape(
    alloc: Global,
    entries: &[ReshapeExtent],
    shape: &[u64],
    count: u64,
) -> Result<Option<Vec<u64>>, AllocError>
    requires { count ≡ position_count shape.now }
    ensures { IfOk result (λ made. option_map (λ made. made.items) made
        ≡ encoded_shape (reshaped (extents_view entries.now)) shape.now) }
{
    let Some(named) = fitting_shape(alloc, entries, shape, 1)? else {
        return Ok(None);
    };
    let left = extent_left(count, &named);
    let Some(made) = fitting_shape(alloc, entries, shape, left)? else {
        return Ok(None);
    };
    if has_count(&made, count) {
        Ok(Some(made))
    } else {
        Ok(None)
    }
}

/// What these extents leave of the number of cells.
fn extent_left(count: u64, named: &[u64]) -> u64
    ensures { result ≡ count / position_count named.now }
{
    match element_count(named) {
        Some(product) if product > 0 => count / product,
        _ => 0,
    }
}

/// Whether an array of this shape has `count` cells.
fn has_count(shape: &[u64], count: u64) -> bool
    ensures { IsTrue result ↔ (position_count shape.now ≡ count) }
{
    element_count(shape) == Some(count)
}

/// Whether the entries name no dimension twice, and at most one of them is `Rest`.
fn is_reshape(alloc: Global, entries: &[ReshapeExtent]) -> Result<bool, AllocError>
    ensures { IfOk result (λ answer. answer ≡ is_reshape (extents_view entries.now)) }
{
    Ok(are_distinct(alloc, &named_dimensions(alloc, entries)?)? && rests(entries) <= 1)
}

/// The dimensions that the entries name, one after another.
fn named_dimensions(alloc: Global, entries: &[ReshapeExtent]) -> Result<Vec<u64>, AllocError>
    ensures { IfOk result (λ made. made.items ≡ flat_map dimensions_in (extents_view entries.now)) }
{
    let mut made = Vec::new(alloc);
    for entry in entries {
        if let ReshapeExtent::ProductOf(dimensions) = entry {
            made.extend_from_slice(dimensions)?;
        }
    }
    Ok(made)
}

/// Whether no number is in the list twice.
fn are_distinct(alloc: Global, numbers: &[u64]) -> Result<bool, AllocError>
    ensures { IfOk result (λ answer. answer ≡ are_distinct numbers.now) }
{
    let mut seen = BTreeSet::new(alloc);
    for number in numbers {
        if !seen.insert(*number)? {
            return Ok(false);
        }
    }
    Ok(true)
}

/// The number of `Rest` entries.
fn rests(entries: &[ReshapeExtent]) -> usize
    ensures { result ≡ count_by is_rest (extents_view entries.now) }
{
    let mut count = 0;
    for entry in entries {
        if let ReshapeExtent::Rest = entry {
            count += 1;
        }
    }
    count
}

/// The extents of the entries; `left` is the extent of a `Rest` entry. `None` if one of them names a dimension that the
/// shape does not have, or passes `u64`.
fn fitting_shape(
    alloc: Global,
    entries: &[ReshapeExtent],
    shape: &[u64],
    left: u64,
) -> Result<Option<Vec<u64>>, AllocError>
    ensures { IfOk result (λ made. option_map (λ made. made.items) made
        ≡ fitting_shape shape.now left (extents_view entries.now)) }
{
    let mut made = Vec::with_capacity(alloc, entries.len())?;
    for entry in entries {
        match fitting_extent(alloc, entry, shape, left)? {
            Some(extent) => made.push(extent)?,
            None => return Ok(None),
        }
    }
    Ok(Some(made))
}

fn fitting_extent(
    alloc: Global,
    entry: &ReshapeExtent,
    shape: &[u64],
    left: u64,
) -> Result<Option<u64>, AllocError>
    ensures { IfOk result (λ extent. extent ≡ fitting_extent shape.now left
        (extent_view entry.now)) }
{
    match entry {
        ReshapeExtent::Size(size) => Ok(Some(size.get())),
        ReshapeExtent::ProductOf(dimensions) => product_of(alloc, dimensions, shape),
        ReshapeExtent::Rest => Ok(Some(left)),
    }
}

/// The product of the extents of these dimensions, if the shape has them and it fits `u64`.
fn product_of(alloc: Global, dimensions: &[u64], shape: &[u64]) -> Result<Option<u64>, AllocError>
    ensures { IfOk result (λ product. product
        ≡ (let extents = map (λ j. slice_index shape.now j) dimensions.now in
        if list_all (λ j. nat_lt j (length shape.now)) dimensions.now
        && nat_lt (position_count extents) (2 ^ 64) then Some (position_count extents) else None)) }
{
    if !are_below(dimensions, shape.len()) {
        return Ok(None);
    }
    let extents = lists::permuted(alloc, dimensions, shape)?;
    Ok(element_count(&extents))
}

/// Whether each of the numbers is below the bound.
fn are_below(numbers: &[u64], bound: usize) -> bool
    ensures { result ≡ list_all (λ j. nat_lt j bound) numbers.now }
{
    numbers.iter().all(|number| *number < bound as u64)
}
