//! `ArraySubsetTraits`: values that stand for a box.

ghost use Rattle.std.specs.Prelude.{◌≡◌, ◌-◌, ◌+◌, ◌<◌, ◌≤◌, ◌^◌, ◌↔◌, length, slice_index, IfOk};
ghost use Rattle.std.specs.Prelude.{IsTrue, OnOk, OnErr, SomeIndex};
ghost use Rattle.zarrs_subset.specs.Boxes.{ends, position_count};
ghost use Rattle.zarrs_subset.specs.Regions.{Box, IsBox, IsLong, IsLong-ranges, LiesInShape, box_of, box_of_ranges};

use crate::error::SizeOverflow;
use crate::subset::ArraySubset;
use crate::{ArrayIndices, ArrayShape};
use std::alloc::{AllocError, Global};
use std::ops::Range;

/// A value that stands for a box: a subset, or a range for each dimension.
///
/// A reversed range has extent 0 and ends at its start.
pub trait ArraySubsetTraits {
    // The box.
    ghost region: { Self → Box };

    /// The number of dimensions.
    fn dimensionality(&self) -> usize
        ensures { result ≡ length (region self.now).start };

    /// The indices of the box along the dimension.
    fn range(&self, dimension: usize) -> Range<u64>
        requires { dimension < length (region self.now).start }
        ensures start { result.start ≡ slice_index (region self.now).start dimension }
        ensures end { result.end
            ≡ slice_index (region self.now).start dimension + slice_index (region self.now).shape
            dimension };

    // One extent for each start.
    ghost is_long: { (value : Self) → IsLong (region value) };

    /// The first index of each dimension.
    ///
    /// # Errors
    /// `AllocError`: out of memory.
    final fn start(&self, alloc: Global) -> Result<ArrayIndices, AllocError>
        ensures { IfOk result (λ start. start.items ≡ (region self.now).start) }
    {
        let dimensions = self.dimensionality();
        let mut start = Vec::with_capacity(alloc, dimensions)?;
        for dimension in 0..dimensions {
            start.push_reserved(self.range(dimension).start);
        }
        Ok(start)
    }

    /// The extent of each dimension.
    ///
    /// # Errors
    /// `AllocError`: out of memory.
    final fn shape(&self, alloc: Global) -> Result<ArrayShape, AllocError>
        ensures shape { IfOk result (λ shape. shape.items ≡ (region self.now).shape) }
        ensures is_box { OnOk result (IsBox (region self.now)) }
    {
        let dimensions = self.dimensionality();
        let mut shape = Vec::with_capacity(alloc, dimensions)?;
        for dimension in 0..dimensions {
            let range = self.range(dimension);
            shape.push_reserved(range.end - range.start);
        }
        Ok(shape)
    }

    /// The index after the last one of each dimension.
    ///
    /// # Errors
    /// `AllocError`: out of memory.
    final fn end_exc(&self, alloc: Global) -> Result<ArrayIndices, AllocError>
        ensures { IfOk result (λ end. end.items ≡ ends (region self.now).start
            (region self.now).shape) }
    {
        let dimensions = self.dimensionality();
        let mut end = Vec::with_capacity(alloc, dimensions)?;
        for dimension in 0..dimensions {
            end.push_reserved(self.range(dimension).end);
        }
        Ok(end)
    }

    /// The box as a subset of its own.
    ///
    /// # Errors
    /// `AllocError`: out of memory.
    final fn to_array_subset(&self, alloc: Global) -> Result<ArraySubset, AllocError>
        ensures { IfOk result (λ subset. box_of subset ≡ region self.now) }
    {
        Ok(ArraySubset::new(self.start(alloc)?, self.shape(alloc)?))
    }

    /// The number of positions: the product of the extents.
    ///
    /// # Errors
    /// `SizeOverflow` if that number passes `u64`.
    final fn num_elements(&self) -> Result<u64, SizeOverflow>
        ensures ok { IfOk result (λ count. count ≡ position_count (region self.now).shape) }
        ensures refused { OnErr result (2 ^ 64 ≤ position_count (region self.now).shape) }
        ensures is_box { IsBox (region self.now) }
    {
        let mut is_empty = false;
        let mut count = Some(1u64);
        for dimension in 0..self.dimensionality() {
            let range = self.range(dimension);
            let extent = range.end - range.start;
            is_empty |= extent == 0;
            count = match count {
                Some(product) => product.checked_mul(extent),
                None => None,
            };
        }
        if is_empty {
            return Ok(0);
        }
        count.ok_or(SizeOverflow)
    }

    /// Whether the box has no position: some extent is 0.
    final fn is_empty(&self) -> bool
        ensures { IsTrue result ↔ SomeIndex (region self.now).shape
            (λ k. slice_index (region self.now).shape k ≡ 0) }
    {
        for dimension in 0..self.dimensionality() {
            let range = self.range(dimension);
            if range.start == range.end {
                return true;
            }
        }
        false
    }

    /// Whether the box lies in an array of this shape.
    final fn inbounds_shape(&self, array_shape: &[u64]) -> bool
        ensures { IsTrue result ↔ LiesInShape (region self.now) array_shape.now }
    {
        if self.dimensionality() != array_shape.len() {
            return false;
        }
        for (dimension, extent) in array_shape.iter().enumerate() {
            if self.range(dimension).end > *extent {
                return false;
            }
        }
        true
    }
}

impl ArraySubsetTraits for ArraySubset {
    ghost region = { box_of };

    ghost is_long = { λ subset. subset.same_length };

    fn dimensionality(&self) -> usize {
        self.start().len()
    }

    fn range(&self, dimension: usize) -> Range<u64> {
        let start = self.start()[dimension];
        start..start + self.shape()[dimension]
    }
}

impl ArraySubsetTraits for Vec<Range<u64>> {
    ghost region = { λ ranges. box_of_ranges ranges.items };

    ghost is_long = { λ ranges. IsLong-ranges ranges.items };

    fn dimensionality(&self) -> usize {
        self.len()
    }

    fn range(&self, dimension: usize) -> Range<u64> {
        range_along(self, dimension)
    }
}

impl ArraySubsetTraits for &[Range<u64>] {
    ghost region = { λ ranges. box_of_ranges ranges.now };

    ghost is_long = { λ ranges. IsLong-ranges ranges.now };

    fn dimensionality(&self) -> usize {
        self.len()
    }

    fn range(&self, dimension: usize) -> Range<u64> {
        range_along(*self, dimension)
    }
}

impl<const N: usize> ArraySubsetTraits for [Range<u64>; N] {
    ghost region = { λ ranges. box_of_ranges ranges };

    ghost is_long = { λ ranges. IsLong-ranges ranges };

    fn dimensionality(&self) -> usize {
        self.len()
    }

    fn range(&self, dimension: usize) -> Range<u64> {
        range_along(self, dimension)
    }
}

// The indices along the dimension. A reversed range ends at its start.
fn range_along(ranges: &[Range<u64>], dimension: usize) -> Range<u64>
    requires { dimension < length ranges.now }
    ensures start { result.start ≡ slice_index (box_of_ranges ranges.now).start dimension }
    ensures end { result.end ≡ slice_index (box_of_ranges ranges.now).start dimension
        + slice_index (box_of_ranges ranges.now).shape dimension }
{
    let start = ranges[dimension].start;
    start..ranges[dimension].end.max(start)
}
