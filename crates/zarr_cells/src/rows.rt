//! Regions, cut along a dimension.
ghost use Rattle.std.specs.Prelude.{◌≡◌, ◌⊎◌, ◌≤◌, ◌<◌, ◌++◌, ◌+◌, ◌-◌, ◌^◌, ℕ, length, slice_index};
ghost use Rattle.std.specs.Prelude.{slice_set, IfErr, IfOk};
ghost use Rattle.zarrs_subset.specs.Regions.{box_of, positions};
ghost use Rattle.zarr_cells.specs.Rows.{AreOnes};

use crate::error::CellsError;
use std::alloc::Global;
use zarrs_subset::ArraySubset;

/// Returns the first dimension along which the region has another extent than 1; the number of its dimensions if none has.
pub fn long_axis(region: &ArraySubset) -> usize
    ensures ones { AreOnes (box_of region.now).shape result }
    ensures inside { result ≤ length (box_of region.now).start }
    ensures long { result < length (box_of region.now).start
        → slice_index (box_of region.now).shape result ≡ 1 → ⊥ }
{
    let shape = region.shape();
    for axis in 0..region.dimensionality() {
        if shape[axis] != 1 {
            return axis;
        }
    }
    region.dimensionality()
}

/// Returns the region with this start and this extent along the axis.
///
/// # Errors
/// `Subset` if its end along the axis passes `u64`; out of memory.
pub fn with_rows(
    alloc: Global,
    region: &ArraySubset,
    axis: usize,
    first: u64,
    rows: u64,
) -> Result<ArraySubset, CellsError>
    requires { axis < length (box_of region.now).start }
    ensures start { IfOk result (λ b. (box_of b).start ≡ slice_set (box_of region.now).start axis first) }
    ensures shape { IfOk result (λ b. (box_of b).shape ≡ slice_set (box_of region.now).shape axis rows) }
    ensures refused { IfErr result (λ e. (e ≡ CellsError.OutOfMemory) ⊎ (2 ^ 64 ≤ first + rows)) }
{
    let mut start = region.start().to_vec(alloc)?;
    start[axis] = first;
    let mut shape = region.shape().to_vec(alloc)?;
    shape[axis] = rows;
    Ok(ArraySubset::new_with_start_shape(start, shape)?)
}

/// Cuts the region along the axis, before which each extent is 1, after this many rows. The positions of the one part,
/// and then those of the other, are those of the region.
///
/// # Errors
/// Out of memory.
pub fn split_rows(
    alloc: Global,
    region: &ArraySubset,
    axis: usize,
    rows: u64,
) -> Result<(ArraySubset, ArraySubset), CellsError>
    requires ones { AreOnes (box_of region.now).shape axis }
    requires inside { axis < length (box_of region.now).start }
    requires fewer { rows < slice_index (box_of region.now).shape axis }
    ensures places { IfOk result (λ cut. positions (box_of cut.0) ++ positions (box_of cut.1)
        ≡ positions (box_of region.now)) }
    ensures rows { IfOk result (λ cut. (box_of cut.0).shape
        ≡ slice_set (box_of region.now).shape axis rows) }
    ensures others { IfOk result (λ cut. (box_of cut.1).shape ≡ slice_set (box_of region.now).shape
        axis (slice_index (box_of region.now).shape axis - rows)) }
    ensures refused { IfErr result (λ e. e ≡ CellsError.OutOfMemory) }
{
    let (first, extent) = (region.start()[axis], region.shape()[axis]);
    let band = with_rows(alloc, region, axis, first, rows)?;
    let rest = with_rows(alloc, region, axis, first + rows, extent - rows)?;
    Ok((band, rest))
}
