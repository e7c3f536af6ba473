//! The codec `transpose` (Zarr V3 core specification, "Transpose codec").
ghost use Rattle.std.specs.Prelude.{◌≡◌, ◌*◌, ◌<◌, ◌^◌, true, None, Some, [], length, map, slice_index_or};
ghost use Rattle.std.specs.Prelude.{IfOk, option_map, if◌then◌else◌};
ghost use Rattle.zarrs_subset.specs.Boxes.{position_count, without_ones};
ghost use Rattle.zarrs_data_type.specs.ArrayData.{data_of};
ghost use Rattle.zarrs_data_type.specs.Cells.{HasCells, fits};
ghost use Rattle.zarrs_data_type.specs.Kind.{kind};
ghost use Rattle.zarrs_codec_array.specs.Arrays.{transposed};
ghost use Rattle.zarrs_codec_array.specs.Gathered.{IsGathered, IsTaken, IsWay, walked};
ghost use Rattle.zarrs_codec_array.specs.Gathered.{IsEncodedArray, IsDecodedArray, encoded_shape};
ghost use Rattle.zarrs_codec_array.specs.Orders.{is_order, permuted, strides, scaled};

use crate::gather::{gather, push_strings};
use crate::lists;
use std::alloc::{AllocError, Global};
use std::borrow::CowSlice;
use zarrs_data_type::{ArrayBytes, ArrayBytesVariableLength, DataType, VariableLengthBuilder};
use zarrs_subset::without_ones;

/// The codec `transpose`: dimension i of the encoded array is dimension `order[i]` of the decoded one.
#[derive(Debug, Drop)]
pub struct TransposeCodec {
    order: Vec<u64>,
    ghost in_order: { is_order order.items ≡ true },
}

impl TransposeCodec {
    ghost use Rattle.zarrs_codec_array.specs.Transpose.{order_of};

    /// The codec of this order, a permutation of the dimension numbers; `None` for another list.
    ///
    /// # Errors
    /// `AllocError`: out of memory.
    pub fn new(alloc: Global, order: Vec<u64>) -> Result<Option<TransposeCodec>, AllocError>
        ensures { IfOk result (λ made. option_map order_of made
            ≡ (if is_order order.items then Some order.items else None)) }
    {
        if lists::is_order(alloc, &order)? {
            Ok(Some(TransposeCodec { order }))
        } else {
            Ok(None)
        }
    }

    /// For each dimension of the encoded array the dimension of the decoded one.
    pub fn order(&self) -> &[u64]
        ensures { result.now ≡ order_of self.now }
    {
        &self.order
    }

    /// The same codec.
    ///
    /// # Errors
    /// `AllocError`: out of memory.
    pub fn try_clone(&self, alloc: Global) -> Result<TransposeCodec, AllocError>
        ensures { IfOk result (λ copy. order_of copy ≡ order_of self.now) }
    {
        let order = Vec::from_slice(alloc, &self.order)?;
        Ok(TransposeCodec { order })
    }

    /// The shape of the encoded array, or `None` if it has another number of dimensions than the order.
    pub(crate) fn encoded_shape(
        &self,
        alloc: Global,
        shape: &[u64],
    ) -> Result<Option<Vec<u64>>, AllocError>
        ensures { IfOk result (λ made. option_map (λ made. made.items) made
            ≡ encoded_shape (transposed (order_of self.now)) shape.now) }
    {
        if self.order.len() != shape.len() {
            return Ok(None);
        }
        Ok(Some(lists::permuted(alloc, &self.order, shape)?))
    }

    /// The encoded array, or `None` if there is no cell.
    pub(crate) fn encode(
        &self,
        alloc: Global,
        bytes: &ArrayBytes<'_>,
        data_type: &DataType,
        shape: &[u64],
    ) -> Result<Option<ArrayBytes<'static>>, AllocError>
        requires fits { length (order_of self.now) ≡ length shape.now }
        requires cells { HasCells (kind data_type.now) (data_of bytes.now)
            (position_count shape.now) }
        ensures { IfOk result (IsEncodedArray (transposed (order_of self.now)) (kind data_type.now)
            shape.now (data_of bytes.now)) }
    {
        if !lists::has_cell(shape) {
            return Ok(None);
        }
        let target = lists::permuted(alloc, &self.order, shape)?;
        Ok(Some(rearranged(alloc, bytes, data_type, &target, shape, &self.order)?))
    }

    /// The decoded array, whose shape this is, or `None` if there is no cell.
    pub(crate) fn decode(
        &self,
        alloc: Global,
        bytes: &ArrayBytes<'_>,
        data_type: &DataType,
        shape: &[u64],
    ) -> Result<Option<ArrayBytes<'static>>, AllocError>
        requires fits { length (order_of self.now) ≡ length shape.now }
        requires cells { HasCells (kind data_type.now) (data_of bytes.now)
            (position_count shape.now) }
        ensures { IfOk result (IsDecodedArray (transposed (order_of self.now)) (kind data_type.now)
            shape.now (data_of bytes.now)) }
    {
        if !lists::has_cell(shape) {
            return Ok(None);
        }
        let source = lists::permuted(alloc, &self.order, shape)?;
        let inverse = lists::inverse(alloc, &self.order)?;
        Ok(Some(rearranged(alloc, bytes, data_type, shape, &source, &inverse)?))
    }
}

// The cells of an array of the shape `source` as an array of the shape `target`: dimension i of the target is dimension
// `way[i]` of the source.
fn rearranged(
    alloc: Global,
    bytes: &ArrayBytes<'_>,
    data_type: &DataType,
    target: &[u64],
    source: &[u64],
    way: &[u64],
) -> Result<ArrayBytes<'static>, AllocError>
    requires fits { fits (kind data_type.now) (data_of bytes.now) (position_count source.now)
        ≡ true }
    requires ways { IsWay target.now source.now way.now }
    ensures { IfOk result (λ made. IsTaken (kind data_type.now) target.now
        (permuted way.now (strides source.now)) (data_of bytes.now) (data_of made)) }
{
    match bytes {
        ArrayBytes::Fixed(bytes) => {
            let size = data_type.element_size().unwrap();
            let made = rearranged_bytes(alloc, bytes.as_slice(), size, target, source, way)?;
            Ok(ArrayBytes::new_flen(made))
        }
        ArrayBytes::Variable(strings) => {
            let made = rearranged_strings(alloc, strings, target, source, way)?;
            Ok(ArrayBytes::Variable(made))
        }
        ArrayBytes::Optional(optional) => {
            let Some(inner) = data_type.optional_inner() else {
                unreachable!()
            };
            let mask = rearranged_bytes(alloc, optional.mask(), 1, target, source, way)?;
            let made = rearranged(alloc, optional.data(), inner, target, source, way)?;
            made.with_optional_mask(alloc, CowSlice::Owned(mask))
        }
    }
}

// The dimensions of the target whose extent is not 1: what walks over an array calls itself once for each of them, and
// an array whose cells can be counted has fewer than 64.
#[derive(Drop)]
struct Walk {
    extents: Vec<u64>,
    // how far apart in the source two positions are that differ by one in the dimension
    steps: Vec<u64>,
}

// The walk over the target, of cells of `size` bytes.
fn walk_over(
    alloc: Global,
    target: &[u64],
    source: &[u64],
    way: &[u64],
    size: usize,
) -> Result<Walk, AllocError>
    requires fits { position_count source.now * size < 2 ^ 64 }
    requires ways { IsWay target.now source.now way.now }
    ensures extents { IfOk result (λ walk. walk.extents.items
        ≡ without_ones target.now target.now) }
    ensures steps { IfOk result (λ walk. walk.steps.items
        ≡ without_ones target.now (scaled size (permuted way.now (strides source.now)))) }
{
    let strides = lists::strides(alloc, source, size)?;
    let steps = lists::permuted(alloc, way, &strides)?;
    let extents = without_ones(alloc, target, target)?;
    let steps = without_ones(alloc, target, &steps)?;
    Ok(Walk { extents, steps })
}

// What `rearranged` says, for cells of `size` bytes.
fn rearranged_bytes(
    alloc: Global,
    bytes: &[u8],
    size: usize,
    target: &[u64],
    source: &[u64],
    way: &[u64],
) -> Result<Vec<u8>, AllocError>
    requires len { length bytes.now ≡ position_count source.now * size }
    requires ways { IsWay target.now source.now way.now }
    ensures len { IfOk result (λ made. length made.items ≡ position_count target.now * size) }
    ensures cells { IfOk result (λ made. IsGathered size target.now
        (scaled size (permuted way.now (strides source.now))) 0 bytes.now made.items) }
{
    let walk = walk_over(alloc, target, source, way, size)?;
    let mut made = vec![in alloc; 0u8; bytes.len()]?;
    gather(&mut made, bytes, size, &walk.extents, &walk.steps, 0);
    Ok(made)
}

// The same for byte strings.
fn rearranged_strings(
    alloc: Global,
    strings: &ArrayBytesVariableLength<'_>,
    target: &[u64],
    source: &[u64],
    way: &[u64],
) -> Result<ArrayBytesVariableLength<'static>, AllocError>
    requires len { length strings.now ≡ position_count source.now }
    requires ways { IsWay target.now source.now way.now }
    ensures { IfOk result (λ made. made ≡ map (λ i. slice_index_or strings.now i [])
        (walked target.now (permuted way.now (strides source.now)) 0)) }
{
    let count = strings.len();
    let walk = walk_over(alloc, target, source, way, 1)?;
    let mut made = VariableLengthBuilder::with_capacity(alloc, count, strings.bytes().len())?;
    push_strings(&mut made, strings, &walk.extents, &walk.steps, 0)?;
    Ok(made.finish())
}
