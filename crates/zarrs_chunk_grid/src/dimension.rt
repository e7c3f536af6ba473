//! How one dimension is cut into chunks.
ghost use Rattle.std.specs.Prelude.{◌≡◌, ℕ, ◌+◌, ◌<◌, ◌≤◌, ◌^◌, length, sum, true};
ghost use Rattle.std.specs.Prelude.{IfOk, IfErr, OnOk, IfSome, IfNone};
ghost use Rattle.std.specs.Option.{SomeIff};
ghost use Rattle.std.specs.Int.NonZero.{non_zero_u64_get};
ghost use Rattle.zarrs_chunk_grid.specs.Axes.{IsInterval, Covers, regular_axis, bounded_axis};
ghost use Rattle.zarrs_metadata_parts.specs.Lists.{sizes_of};
ghost use Rattle.zarrs_chunk_grid.specs.Axes.{sizes_axis, ends_of_sizes};

use crate::error::GridError;
use crate::traits::Interval;
use std::alloc::{AllocError, Global};
use std::num::NonZeroU64;

/// The chunk of that number, or `None` if its end passes a `u64`.
pub fn regular_interval(size: NonZeroU64, number: u64) -> Option<Interval>
    ensures some { IfSome result
        (λ v. IsInterval (regular_axis (non_zero_u64_get size))
        number v.start (non_zero_u64_get v.extent)) }
    ensures none { IfNone result ((regular_axis (non_zero_u64_get size)).count ≤ number) }
{
    let step = size.get();
    let start = number.checked_mul(step)?;
    start.checked_add(step)?;
    Some(Interval {
        start,
        extent: size,
    })
}

/// The number of the chunk that covers the coordinate, or `None` if its end passes a `u64`.
pub fn regular_number(size: NonZeroU64, coordinate: u64) -> Option<u64>
    ensures some { IfSome result
        (λ number. Covers (regular_axis (non_zero_u64_get size)) number coordinate) }
    ensures none { IfNone result
        (let axis = regular_axis (non_zero_u64_get size) in axis.edge axis.count ≤ coordinate) }
{
    let step = size.get();
    let number = coordinate / step;
    (number * step).checked_add(step)?;
    Some(number)
}

/// The chunk of that number, cut at the extent, or `None` if it would begin at the extent or past it.
pub fn bounded_interval(size: NonZeroU64, extent: u64, number: u64) -> Option<Interval>
    ensures some { IfSome result
        (λ v. IsInterval (bounded_axis extent (non_zero_u64_get size))
        number v.start (non_zero_u64_get v.extent)) }
    ensures none { IfNone result ((bounded_axis extent (non_zero_u64_get size)).count ≤ number) }
{
    let step = size.get();
    let start = number.checked_mul(step)?;
    let rest = extent.checked_sub(start)?;
    let cut = NonZeroU64::new(step.min(rest))?;
    Some(Interval { start, extent: cut })
}

/// The number of the chunk that covers the coordinate, or `None` if it lies at the extent or past it.
pub fn bounded_number(size: NonZeroU64, extent: u64, coordinate: u64) -> Option<u64>
    ensures some { IfSome result
        (λ number. Covers (bounded_axis extent (non_zero_u64_get size)) number coordinate) }
    ensures none { IfNone result
        (let axis = bounded_axis extent (non_zero_u64_get size) in
        axis.edge axis.count ≤ coordinate) }
{
    if coordinate < extent {
        Some(coordinate / size.get())
    } else {
        None
    }
}

/// Sizes of chunks that lie one after the other from 0.
#[derive(Debug, Drop)]
pub struct SizeList {
    sizes: Vec<NonZeroU64>,
    // where each chunk ends: the running sums of the sizes
    ends: Vec<u64>,
    ghost summed: { ends.items ≡ ends_of_sizes (sizes_of sizes.items) },
    ghost fits: { sum (sizes_of sizes.items) < 2 ^ 64 },
}

impl SizeList {
    ghost use Rattle.zarrs_chunk_grid.specs.Configurations.{sizes_in};
    ghost use Rattle.zarrs_chunk_grid.specs.Refusals.{RefusesSizeList};

    /// The list of these sizes.
    ///
    /// # Errors
    /// `UnequalExtent` if the sizes add up to more than a `u64`, so that no array has that extent.
    /// `OutOfMemory` may come at any time.
    pub fn new(alloc: Global, sizes: Vec<NonZeroU64>) -> Result<SizeList, GridError>
        ensures same { IfOk result (λ list. sizes_in list ≡ sizes.items) }
        ensures fits { OnOk result (sum (sizes_of sizes.items) < 2 ^ 64) }
        ensures refused { IfErr result (RefusesSizeList (sizes_of sizes.items)) }
    {
        let mut ends = Vec::with_capacity(alloc, sizes.len())?;
        let mut end = 0u64;
        for size in &sizes {
            let Some(next) = end.checked_add(size.get()) else {
                return Err(GridError::UnequalExtent);
            };
            end = next;
            ends.push(end)?;
        }
        Ok(SizeList { sizes, ends })
    }

    /// The sizes in their order.
    pub fn sizes(&self) -> &[NonZeroU64]
        ensures { result.now ≡ sizes_in self.now }
    {
        &self.sizes
    }

    /// The same list.
    ///
    /// # Errors
    /// `AllocError`: out of memory.
    pub fn try_clone(&self, alloc: Global) -> Result<SizeList, AllocError>
        ensures { IfOk result (λ copy. sizes_in copy ≡ sizes_in self.now) }
    {
        Ok(SizeList {
            sizes: Vec::from_slice(alloc, &self.sizes)?,
            ends: Vec::from_slice(alloc, &self.ends)?,
        })
    }

    /// Where the last chunk ends: the sum of the sizes, 0 if there are none.
    pub fn end(&self) -> u64
        ensures { result ≡ sum (sizes_of (sizes_in self.now)) }
    {
        match self.ends.last() {
            Some(end) => *end,
            None => 0,
        }
    }

    /// The chunk of that number, or `None` if there are fewer.
    pub(crate) fn interval(&self, number: u64) -> Option<Interval>
        ensures some { IfSome result (λ v. IsInterval (sizes_axis (sizes_of (sizes_in self.now)))
            number v.start (non_zero_u64_get v.extent)) }
        ensures none { IfNone result (length (sizes_in self.now) ≤ number) }
    {
        let number = number as usize;
        if number >= self.sizes.len() {
            return None;
        }
        let extent = self.sizes[number];
        Some(Interval {
            start: self.ends[number] - extent.get(),
            extent,
        })
    }

    /// The number of the chunk that covers the coordinate, or `None` if it lies at the sum of the sizes or past it.
    /// This is a binary search.
    pub(crate) fn number(&self, coordinate: u64) -> Option<u64>
        ensures some { IfSome result
            (λ number. Covers (sizes_axis (sizes_of (sizes_in self.now))) number coordinate) }
        ensures none { IfNone result (sum (sizes_of (sizes_in self.now)) ≤ coordinate) }
    {
        let number = self.ends.partition_point(|end| *end <= coordinate);
        if number >= self.sizes.len() {
            return None;
        }
        Some(number as u64)
    }
}

/// How one dimension of a `rectangular` grid is cut into chunks.
#[derive(Debug, Drop)]
pub enum ChunkSizes {
    /// Chunks of one size, which may pass the array's end.
    Size(NonZeroU64),
    /// One chunk for each size. The sizes add up to the array's extent.
    Sizes(SizeList),
}

impl ChunkSizes {
    ghost use Rattle.zarrs_chunk_grid.specs.Configurations.{axis_of, fills, chunks_along, sizes_view};

    /// The same sizes.
    ///
    /// # Errors
    /// `AllocError`: out of memory.
    pub fn try_clone(&self, alloc: Global) -> Result<ChunkSizes, AllocError>
        ensures { IfOk result (λ copy. sizes_view copy ≡ sizes_view self.now) }
    {
        match self {
            ChunkSizes::Size(size) => Ok(ChunkSizes::Size(*size)),
            ChunkSizes::Sizes(list) => Ok(ChunkSizes::Sizes(list.try_clone(alloc)?)),
        }
    }

    /// The number of chunks that the extent takes, or `None` if the sizes do not add up to it.
    pub(crate) fn count(&self, extent: u64) -> Option<u64>
        ensures { SomeIff result (fills (sizes_view self.now) extent ≡ true)
            (chunks_along (sizes_view self.now) extent) }
    {
        match self {
            ChunkSizes::Size(size) => Some(extent.div_ceil(size.get())),
            ChunkSizes::Sizes(list) => (list.end() == extent).then_some(list.sizes().len() as u64),
        }
    }

    /// The chunk of that number, or `None` if there is no such chunk.
    pub(crate) fn interval(&self, number: u64) -> Option<Interval>
        ensures some { IfSome result (λ v. IsInterval (axis_of (sizes_view self.now))
            number v.start (non_zero_u64_get v.extent)) }
        ensures none { IfNone result ((axis_of (sizes_view self.now)).count ≤ number) }
    {
        match self {
            ChunkSizes::Size(size) => regular_interval(*size, number),
            ChunkSizes::Sizes(list) => list.interval(number),
        }
    }

    /// The number of the chunk that covers the coordinate, or `None` if none does.
    pub(crate) fn number(&self, coordinate: u64) -> Option<u64>
        ensures some { IfSome result
            (λ number. Covers (axis_of (sizes_view self.now)) number coordinate) }
        ensures none { IfNone result
            (let axis = axis_of (sizes_view self.now) in axis.edge axis.count ≤ coordinate) }
    {
        match self {
            ChunkSizes::Size(size) => regular_number(*size, coordinate),
            ChunkSizes::Sizes(list) => list.number(coordinate),
        }
    }
}
