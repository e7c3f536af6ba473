//! The boxes of subchunks, and of a part of their shard.
ghost use Rattle.std.specs.Prelude.{◌≡◌, ◌+◌, ◌*◌, ◌/◌, ◌≤◌, ◌<◌, ◌^◌, ◌&&◌, ℕ, List, true, IfOk, length, slice_index};
ghost use Rattle.std.specs.Bool.{OnTrue};
ghost use Rattle.zarrs_codec_shard.specs.Subchunks.{is_cut_by};
ghost use Rattle.zarrs_subset.specs.Boxes.{EndsFit};
ghost use Rattle.zarrs_subset.specs.Regions.{LiesInBox, LiesInShape, box_from, box_of, in_box, overlap_of, seen_from};
ghost use Rattle.zarrs_codec_chain.specs.ShardParts.{HasOnlyMet, MeetsPart};

use std::alloc::{AllocError, Global};
use zarrs_subset::ArraySubset;

/// The positions that both boxes have.
pub(crate) fn common_part(
    alloc: Global,
    part: &ArraySubset,
    subset: &ArraySubset,
) -> Result<ArraySubset, AllocError>
    requires { length (box_of part.now).start ≡ length (box_of subset.now).start }
    ensures common { IfOk result (λ shared. (position : List ℕ) → in_box (box_of shared) position
        ≡ (in_box (box_of part.now) position && in_box (box_of subset.now) position)) }
    ensures value { IfOk result (λ shared. box_of shared
        ≡ overlap_of (box_of part.now) (box_of subset.now)) }
{
    part.shared_with(alloc, subset)
}

/// The box as it is seen from a corner before it.
pub(crate) fn seen_from_corner(
    alloc: Global,
    shared: &ArraySubset,
    corner: &[u64],
) -> Result<ArraySubset, AllocError>
    requires dimensions { length corner.now ≡ length (box_of shared.now).start }
    requires above { (k : ℕ) → k < length (box_of shared.now).start
        → slice_index corner.now k ≤ slice_index (box_of shared.now).start k }
    ensures { IfOk result (λ own. box_of own ≡ seen_from (box_of shared.now) corner.now) }
{
    shared.seen_from(alloc, corner)
}

/// Whether the box has a position, and lies in the box of this shape at a corner.
pub(crate) fn lies_at(part: &ArraySubset, corner: &[u64], shape: &[u64]) -> bool
    requires long { length corner.now ≡ length shape.now }
    requires dimensions { length corner.now ≡ length (box_of part.now).start }
    requires ends_fit { EndsFit corner.now shape.now }
    ensures some { OnTrue result ((k : ℕ) → k < length (box_of part.now).start
        → 0 < slice_index (box_of part.now).shape k) }
    ensures lies { OnTrue result (LiesInBox (box_of part.now) (box_from corner.now shape.now)) }
{
    for axis in 0..shape.len() {
        let (start, extent) = (part.start()[axis], part.shape()[axis]);
        let end = corner[axis] + shape[axis];
        if extent == 0 || start < corner[axis] || start + extent > end {
            return false;
        }
    }
    true
}

/// The indices of the subchunks that a part meets, as a box.
pub(crate) fn met_subchunks(
    alloc: Global,
    part: &ArraySubset,
    shape: &[u64],
    sub: &[u64],
) -> Result<ArraySubset, AllocError>
    requires cut { is_cut_by shape.now sub.now ≡ true }
    requires part { LiesInShape (box_of part.now) shape.now }
    ensures met { IfOk result (λ met. MeetsPart sub.now (box_of part.now) (box_of met)) }
    ensures only { IfOk result (λ met. HasOnlyMet sub.now (box_of part.now) (box_of met)) }
{
    let mut start = Vec::with_capacity(alloc, sub.len())?;
    let mut extents = Vec::with_capacity(alloc, sub.len())?;
    for axis in 0..sub.len() {
        let first = part.start()[axis] / sub[axis];
        let end = part.start()[axis] + part.shape()[axis];
        start.push(first)?;
        extents.push(met_extent(first, end, sub[axis]))?;
    }
    Ok(ArraySubset::new(start, extents))
}

/// How many subchunks from the first one on begin before the end.
fn met_extent(first: u64, end: u64, extent: u64) -> u64
    requires { 0 < extent }
    ensures within { first + result < 2 ^ 64 }
    ensures met { (i : ℕ) → i < end → i / extent < first + result }
    ensures begins { (i : ℕ) → first ≤ i → i < first + result → i * extent < end }
{
    if end == 0 {
        return 0;
    }
    let last = (end - 1) / extent;
    if last < first {
        return 0;
    }
    last + 1 - first
}
