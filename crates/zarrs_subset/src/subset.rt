//! `ArraySubset`, a box of positions.

ghost use Rattle.std.specs.Prelude.{◌≡◌, ℕ, ◌+◌, ◌*◌, ◌<◌, ◌≤◌, ◌-◌, ◌^◌, ◌↔◌, ◌&&◌, List, length};
ghost use Rattle.std.specs.Prelude.{map, slice_index, max, min, Bool, IfOk, IfErr, OnOk, OnErr};
ghost use Rattle.std.specs.Prelude.{IsTrue, SomeIndex, EachIndex, MatchOption, replicate};
ghost use Rattle.std.specs.Prelude.{set, slice_get};
ghost use Rattle.zarrs_subset.specs.Boxes.{EndsFit, ends, zip_with, position_count};
ghost use Rattle.zarrs_subset.specs.Refusals.{RefusesStartShape, RefusesStartEnd};
ghost use Rattle.zarrs_subset.specs.Refusals.{RefusesLength, RefusesOffset, RefusesShift};

use crate::error::{ArraySubsetError, SizeOverflow, check_length};
use crate::lists::{extents, has_zero, shifted};
use crate::ravel::{element_count, unravelled};
use crate::traits::ArraySubsetTraits;
use crate::{ArrayIndices, ArrayShape};
use std::alloc::{AllocError, Global};
use std::fmt;
use std::ops::Range;

/// A box: its start, and its extent in each dimension. The end, their sum, fits `u64`.
#[derive(Debug, Drop)]
pub struct ArraySubset {
    start: ArrayIndices,
    shape: ArrayShape,
    ghost same_length: { length start.items ≡ length shape.items },
    ghost ends_fit: { EndsFit start.items shape.items },
}

impl ArraySubset {
    ghost use Rattle.zarrs_subset.specs.Regions.{IsBox, bound_to, box_at_origin, box_between};
    ghost use Rattle.zarrs_subset.specs.Regions.{box_from, box_of, box_of_ranges, empty_box};
    ghost use Rattle.zarrs_subset.specs.Regions.{in_box, overlap_of, positions, seen_from};
    ghost use Rattle.zarrs_subset.specs.Regions.{shifted_box};

    /// The empty box at the origin.
    ///
    /// # Errors
    /// `AllocError`: out of memory.
    pub fn new_empty(alloc: Global, dimensionality: usize) -> Result<Self, AllocError>
        ensures { IfOk result (λ b. box_of b ≡ empty_box dimensionality) }
    {
        let start = vec![in alloc; 0; dimensionality]?;
        let shape = vec![in alloc; 0; dimensionality]?;
        Ok(ArraySubset { start, shape })
    }

    /// The box of this shape at the origin.
    ///
    /// # Errors
    /// `AllocError`: out of memory.
    pub fn new_with_shape(alloc: Global, shape: ArrayShape) -> Result<Self, AllocError>
        ensures { IfOk result (λ b. box_of b ≡ box_at_origin shape.items) }
    {
        let start = vec![in alloc; 0u64; shape.len()]?;
        Ok(ArraySubset { start, shape })
    }

    /// The box of this start and this shape, whose end is known to fit `u64`.
    pub fn new(start: ArrayIndices, shape: ArrayShape) -> Self
        requires same_length { length start.items ≡ length shape.items }
        requires ends_fit { EndsFit start.items shape.items }
        ensures { box_of result ≡ box_from start.items shape.items }
    {
        Self { start, shape }
    }

    /// The box of this start and this shape.
    ///
    /// # Errors
    /// In this order: `IncompatibleDimensionality` if they differ in length; `EndOverflow` if an end passes `u64`.
    pub fn new_with_start_shape(
        start: ArrayIndices,
        shape: ArrayShape,
    ) -> Result<Self, ArraySubsetError>
        ensures value { IfOk result (λ b. box_of b ≡ box_from start.items shape.items) }
        ensures is_box { OnOk result (IsBox (box_from start.items shape.items)) }
        ensures refused { IfErr result (RefusesStartShape start.items shape.items) }
    {
        check_length(start.len(), shape.len())?;
        for k in 0..start.len() {
            if shape[k] > u64::MAX - start[k] {
                return Err(ArraySubsetError::EndOverflow);
            }
        }
        Ok(ArraySubset { start, shape })
    }

    /// The box from this start up to this end, which it leaves out.
    ///
    /// # Errors
    /// In this order: `IncompatibleDimensionality` if they differ in length; `EndBelowStart` if an end lies below its
    /// start.
    pub fn new_with_start_end_exc(
        start: ArrayIndices,
        end: ArrayIndices,
    ) -> Result<Self, ArraySubsetError>
        ensures value { IfOk result (λ b. box_of b ≡ box_between start.items end.items) }
        ensures dimensions { OnOk result (length start.items ≡ length end.items) }
        ensures ordered { OnOk result
            (EachIndex start.items (λ k. slice_index start.items k ≤ slice_index end.items k)) }
        ensures refused { IfErr result (RefusesStartEnd start.items end.items) }
    {
        check_length(start.len(), end.len())?;
        for k in 0..start.len() {
            if end[k] < start[k] {
                return Err(ArraySubsetError::EndBelowStart);
            }
        }
        let shape = extents(end, &start);
        Ok(ArraySubset { start, shape })
    }

    /// The box of these ranges, one for each dimension. A reversed range has extent 0 and ends at its start.
    ///
    /// # Errors
    /// `AllocError`: out of memory.
    pub fn new_with_ranges(alloc: Global, ranges: &[Range<u64>]) -> Result<Self, AllocError>
        ensures { IfOk result (λ b. box_of b ≡ box_of_ranges ranges.now) }
    {
        ranges.to_array_subset(alloc)
    }

    /// The number of dimensions.
    pub fn dimensionality(&self) -> usize
        ensures count { result ≡ length (box_of self.now).start }
        ensures is_box { IsBox (box_of self.now) }
    {
        self.shape.len()
    }

    /// The first index of each dimension.
    pub fn start(&self) -> &[u64]
        ensures { result.now ≡ (box_of self.now).start }
    {
        self.start.as_slice()
    }

    /// The extent of each dimension.
    pub fn shape(&self) -> &[u64]
        ensures { result.now ≡ (box_of self.now).shape }
    {
        self.shape.as_slice()
    }

    /// The first index of each dimension, as a list of its own.
    pub fn into_start(self) -> ArrayIndices
        ensures { result.items ≡ (box_of self).start }
    {
        self.start
    }

    /// The extent of each dimension, as a list of its own.
    pub fn into_shape(self) -> ArrayShape
        ensures { result.items ≡ (box_of self).shape }
    {
        self.shape
    }

    /// Puts other coordinates in the place of those along a dimension.
    pub fn set_range(&mut self, dimension: usize, range: &Range<u64>)
        requires dimension { dimension < length (box_of self.old).start }
        requires ordered { range.now.start ≤ range.now.end }
        ensures start { (box_of self.new).start
            ≡ set (box_of self.old).start dimension range.now.start }
        ensures shape { (box_of self.new).shape ≡ set (box_of self.old).shape dimension
            (range.now.end - range.now.start) }
    {
        self.start[dimension] = range.start;
        self.shape[dimension] = range.end - range.start;
    }

    /// The index after the last one of each dimension.
    ///
    /// # Errors
    /// `AllocError`: out of memory.
    pub fn end_exc(&self, alloc: Global) -> Result<ArrayIndices, AllocError>
        ensures { IfOk result (λ end. end.items ≡ ends (box_of self.now).start
            (box_of self.now).shape) }
    {
        let start = Vec::from_slice(alloc, &self.start)?;
        Ok(shifted(start, &self.shape))
    }

    /// The number of positions: the product of the extents.
    ///
    /// # Errors
    /// `SizeOverflow` if that number passes `u64`.
    pub fn num_elements(&self) -> Result<u64, SizeOverflow>
        ensures ok { IfOk result (λ n. n ≡ position_count (box_of self.now).shape) }
        ensures refused { OnErr result (2 ^ 64 ≤ position_count (box_of self.now).shape) }
    {
        element_count(&self.shape).ok_or(SizeOverflow)
    }

    /// Whether the box has no position: some extent is 0.
    pub fn is_empty(&self) -> bool
        ensures { IsTrue result ↔ SomeIndex (box_of self.now).shape
            (λ k. slice_index (box_of self.now).shape k ≡ 0) }
    {
        has_zero(&self.shape)
    }

    /// The position of that number in row-major order, if there is one.
    ///
    /// # Errors
    /// `AllocError`: out of memory.
    pub fn position(&self, alloc: Global, number: u64) -> Result<Option<ArrayIndices>, AllocError>
        ensures { IfOk result (λ r. MatchOption r (position_count (box_of self.now).shape ≤ number)
            (λ p. slice_get (positions (box_of self.now)) number ≡ Some p.items)) }
    {
        match self.num_elements() {
            Ok(count) if number >= count => Ok(None),
            _ => Ok(Some(self.nth_position(alloc, number)?)),
        }
    }

    /// The position of that number in row-major order.
    ///
    /// # Errors
    /// `AllocError`: out of memory.
    pub fn nth_position(&self, alloc: Global, number: u64) -> Result<ArrayIndices, AllocError>
        requires { number < position_count (box_of self.now).shape }
        ensures { IfOk result (λ p. slice_get (positions (box_of self.now)) number ≡ Some p.items) }
    {
        let offset = unravelled(alloc, number, &self.shape)?;
        Ok(shifted(offset, &self.start))
    }

    /// The box of the positions that both boxes have. If they do not meet in a dimension, its extent is 0.
    ///
    /// # Errors
    /// In this order: `IncompatibleDimensionality` if the numbers of dimensions differ; `OutOfMemory`.
    pub fn overlap<B: ArraySubsetTraits>(
        &self,
        alloc: Global,
        other: &B,
    ) -> Result<ArraySubset, ArraySubsetError>
        ensures common { IfOk result (λ b. (position : List ℕ) → in_box (box_of b) position
            ≡ (in_box (box_of self.now) position && in_box (B.region other.now) position)) }
        ensures value { IfOk result (λ b. box_of b ≡ overlap_of (box_of self.now)
            (B.region other.now)) }
        ensures dimensions { OnOk result (length (box_of self.now).start
            ≡ length (B.region other.now).start) }
        ensures refused { IfErr result
            (RefusesLength (length (B.region other.now).start) (length (box_of self.now).start)) }
    {
        check_length(other.dimensionality(), self.start.len())?;
        Ok(self.shared_with(alloc, other)?)
    }

    /// The box of the positions that both boxes have, which have as many dimensions. If they do not meet in one, its
    /// extent is 0.
    ///
    /// # Errors
    /// `AllocError`: out of memory.
    pub fn shared_with<B: ArraySubsetTraits>(
        &self,
        alloc: Global,
        other: &B,
    ) -> Result<ArraySubset, AllocError>
        requires { length (B.region other.now).start ≡ length (box_of self.now).start }
        ensures common { IfOk result (λ b. (position : List ℕ) → in_box (box_of b) position
            ≡ (in_box (box_of self.now) position && in_box (B.region other.now) position)) }
        ensures value { IfOk result (λ b. box_of b ≡ overlap_of (box_of self.now)
            (B.region other.now)) }
    {
        let dimensions = self.start.len();
        let mut start = Vec::with_capacity(alloc, dimensions)?;
        let mut shape = Vec::with_capacity(alloc, dimensions)?;
        for k in 0..dimensions {
            let range = other.range(k);
            let first = self.start[k].max(range.start);
            let end = (self.start[k] + self.shape[k]).min(range.end);
            start.push_reserved(first);
            shape.push_reserved(end.saturating_sub(first));
        }
        Ok(ArraySubset { start, shape })
    }

    /// The box as it is seen from `offset`.
    ///
    /// # Errors
    /// In this order: `IncompatibleDimensionality` if the numbers of dimensions differ; `StartBelowOffset` if a start
    /// lies below the offset; `OutOfMemory`.
    pub fn relative_to(
        &self,
        alloc: Global,
        offset: &[u64],
    ) -> Result<ArraySubset, ArraySubsetError>
        ensures value { IfOk result (λ b. box_of b ≡ seen_from (box_of self.now) offset.now) }
        ensures dimensions { OnOk result (length offset.now ≡ length (box_of self.now).start) }
        ensures above { OnOk result (EachIndex offset.now
            (λ k. slice_index offset.now k ≤ slice_index (box_of self.now).start k)) }
        ensures refused { IfErr result (RefusesOffset (box_of self.now).start offset.now) }
    {
        check_length(offset.len(), self.start.len())?;
        for k in 0..offset.len() {
            if self.start[k] < offset[k] {
                return Err(ArraySubsetError::StartBelowOffset);
            }
        }
        Ok(self.seen_from(alloc, offset)?)
    }

    /// The box as it is seen from a corner, which lies nowhere above its start.
    ///
    /// # Errors
    /// `AllocError`: out of memory.
    pub fn seen_from(&self, alloc: Global, corner: &[u64]) -> Result<ArraySubset, AllocError>
        requires dimensions { length corner.now ≡ length (box_of self.now).start }
        requires above { (k : ℕ) → k < length corner.now
            → slice_index corner.now k ≤ slice_index (box_of self.now).start k }
        ensures { IfOk result (λ b. box_of b ≡ seen_from (box_of self.now) corner.now) }
    {
        let start = Vec::from_slice(alloc, &self.start)?;
        let shape = Vec::from_slice(alloc, &self.shape)?;
        Ok(ArraySubset {
            start: extents(start, corner),
            shape,
        })
    }

    /// The box with `offset` added to its start: the same positions, seen from a corner that lies `offset` before.
    ///
    /// # Errors
    /// In this order: `IncompatibleDimensionality` if the numbers of dimensions differ; `EndOverflow` if an end passes
    /// `u64`; `OutOfMemory`.
    pub fn shifted_by(&self, alloc: Global, offset: &[u64]) -> Result<ArraySubset, ArraySubsetError>
        ensures value { IfOk result (λ b. box_of b ≡ shifted_box (box_of self.now) offset.now) }
        ensures dimensions { OnOk result (length offset.now ≡ length (box_of self.now).start) }
        ensures refused { IfErr result (RefusesShift (box_of self.now).start (box_of self.now).shape
            offset.now) }
    {
        check_length(offset.len(), self.start.len())?;
        for k in 0..offset.len() {
            if offset[k] > u64::MAX - (self.start[k] + self.shape[k]) {
                return Err(ArraySubsetError::EndOverflow);
            }
        }
        Ok(self.shifted(alloc, offset)?)
    }

    /// The box with `offset` added to its start, where each end fits `u64`.
    ///
    /// # Errors
    /// `AllocError`: out of memory.
    pub fn shifted(&self, alloc: Global, offset: &[u64]) -> Result<ArraySubset, AllocError>
        requires dimensions { length offset.now ≡ length (box_of self.now).start }
        requires ends { (k : ℕ) → k < length offset.now → slice_index (box_of self.now).start k
            + slice_index (box_of self.now).shape k + slice_index offset.now k < 2 ^ 64 }
        ensures { IfOk result (λ b. box_of b ≡ shifted_box (box_of self.now) offset.now) }
    {
        let start = Vec::from_slice(alloc, &self.start)?;
        let shape = Vec::from_slice(alloc, &self.shape)?;
        Ok(ArraySubset {
            start: shifted(start, offset),
            shape,
        })
    }

    /// The box with its start and its end cut to `end`.
    ///
    /// # Errors
    /// In this order: `IncompatibleDimensionality` if the numbers of dimensions differ; `OutOfMemory`.
    pub fn bound(&self, alloc: Global, end: &[u64]) -> Result<ArraySubset, ArraySubsetError>
        ensures value { IfOk result (λ b. box_of b ≡ bound_to (box_of self.now) end.now) }
        ensures dimensions { OnOk result (length end.now ≡ length (box_of self.now).start) }
        ensures refused { IfErr result
            (RefusesLength (length end.now) (length (box_of self.now).start)) }
    {
        check_length(end.len(), self.start.len())?;
        let dimensions = self.start.len();
        let mut start = Vec::with_capacity(alloc, dimensions)?;
        let mut shape = Vec::with_capacity(alloc, dimensions)?;
        for k in 0..dimensions {
            let first = self.start[k].min(end[k]);
            let last = (self.start[k] + self.shape[k]).min(end[k]);
            start.push_reserved(first);
            shape.push_reserved(last.saturating_sub(first));
        }
        Ok(ArraySubset { start, shape })
    }
}

impl Clone for ArraySubset {
    ghost use Rattle.zarrs_subset.specs.Regions.{box_of};

    ghost is_clone = { λ original copy. box_of copy ≡ box_of original };

    fn clone(&self) -> Result<Self, AllocError> {
        let start = Vec::from_slice(*self.start.allocator(), &self.start)?;
        let shape = Vec::from_slice(*self.shape.allocator(), &self.shape)?;
        Ok(ArraySubset { start, shape })
    }
}

impl PartialEq for ArraySubset {
    ghost use Rattle.std.proofs.Common.{rules};
    ghost use Rattle.std.specs.Cmp.Rules.{comparing};
    ghost use Rattle.zarrs_subset.specs.Regions.{box_of, box_eq};

    ghost eq = { λ a b. box_eq (box_of a) (box_of b) };

    ghost laws = { Prim.search (comparing, rules) };

    fn eq(&self, other: &Self) -> bool
        ensures { IsTrue result ↔ (box_of self.now ≡ box_of other.now) }
    {
        self.start == other.start && self.shape == other.shape
    }
}

impl Eq for ArraySubset {
    ghost use Rattle.std.proofs.Common.{rules};
    ghost use Rattle.std.specs.Cmp.Rules.{comparing};

    ghost laws = { Prim.search (comparing, rules) };
}

/// Prints the range of each dimension, as `[0..2, 1..3]`.
impl fmt::Display for ArraySubset {
    ghost use Rattle.std.specs.Prelude.{Some};
    ghost use Rattle.zarrs_subset.specs.Regions.{box_of, box_text};

    ghost output = { λ subset. Some (box_text (box_of subset)) };

    fn fmt<W: fmt::Write>(&self, f: &mut fmt::Formatter<W>) -> fmt::Result {
        write!(f, "[")?;
        for k in 0..self.start.len() {
            let separator = if k == 0 { "" } else { ", " };
            let start = self.start[k];
            let end = start + self.shape[k];
            write!(f, "{separator}{start}..{end}")?;
        }
        write!(f, "]")
    }
}
