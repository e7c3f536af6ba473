//! Subchunks that a part of their chunk does not meet.
ghost use Rattle.std.specs.Prelude.{◌≡◌, ℕ, ◌+◌, ◌*◌, ◌<◌, ◌≤◌, ◌^◌, true, false, length, nat_lt, slice_index};
ghost use Rattle.zarrs_codec_shard.specs.Unmet.{SharesNone, SharesSome, shares};
ghost use Rattle.zarrs_subset.specs.Boxes.{position_count};
ghost use Rattle.zarrs_subset.specs.Regions.{box_of};

use zarrs_subset::ArraySubset;

/// A number of subchunks, from this one on, none of which shares a position with the box. They have the shape `sub`, and
/// `grid` of them lie along each dimension. It is 0 only if the box meets the first of them.
pub(crate) fn unmet_run(part: &ArraySubset, sub: &[u64], grid: &[u64], number: u64) -> u64
    requires same_length { length sub.now ≡ length grid.now }
    requires dimensions { length (box_of part.now).start ≡ length grid.now }
    requires some { (k : ℕ) → k < length sub.now → 0 < slice_index sub.now k }
    requires ends { (k : ℕ) → slice_index grid.now k * slice_index sub.now k < 2 ^ 64 }
    requires number { number < position_count grid.now }
    requires counted { position_count grid.now < 2 ^ 64 }
    ensures within { number + result ≤ position_count grid.now }
    ensures unmet { (j : ℕ) → number ≤ j → j < number + result
        → shares sub.now grid.now (box_of part.now) j ≡ false }
    ensures met { result ≡ 0 → shares sub.now grid.now (box_of part.now) number ≡ true }
{
    let (start, shape) = (part.start(), part.shape());
    let mut run = 0;
    // How many subchunks have one index of the dimensions up to `axis`, and the number of those before this one.
    let mut block = 1;
    let mut rest = number;
    let mut axis = grid.len();
    while axis > 0 {
        axis -= 1;
        let index = rest % grid[axis];
        let next = next_shared(start[axis], shape[axis], sub[axis], index, grid[axis]);
        if next > index {
            run = (next - index) * block - number % block;
        }
        rest /= grid[axis];
        block *= grid[axis];
    }
    run
}

/// The first index from `index` on whose `len` coordinates may meet the `extent` coordinates from `start` on, or `count`
/// if there is none.
fn next_shared(start: u64, extent: u64, len: u64, index: u64, count: u64) -> u64
    requires some { 0 < len }
    requires end { start + extent < 2 ^ 64 }
    requires index { index < count }
    requires fits { count * len < 2 ^ 64 }
    ensures from { index ≤ result }
    ensures within { result ≤ count }
    ensures unshared { (i : ℕ) → index ≤ i → i < result → SharesNone start extent len i }
    ensures shared { result ≡ index → SharesSome start extent len index }
{
    let first = index * len;
    if start + extent <= first.max(start) {
        return count;
    }
    if first + len <= start {
        return (start / len).min(count);
    }
    index
}
