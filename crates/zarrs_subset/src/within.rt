//! Boxes that lie in others.
ghost use Rattle.std.specs.Prelude.{◌↔◌, IsTrue};
ghost use Rattle.zarrs_subset.specs.Regions.{LiesInBox, box_of};

use crate::subset::ArraySubset;

/// Whether the first box lies in the second: in each dimension it starts and ends there.
///
/// Boxes of different numbers of dimensions do not lie in each other.
pub fn lies_in_box(subset: &ArraySubset, other: &ArraySubset) -> bool
    ensures { IsTrue result ↔ LiesInBox (box_of subset.now) (box_of other.now) }
{
    if subset.dimensionality() != other.dimensionality() {
        return false;
    }
    let ranges = subset.start().iter().zip(subset.shape());
    let other_ranges = other.start().iter().zip(other.shape());
    for ((start, extent), (other_start, other_extent)) in ranges.zip(other_ranges) {
        if start < other_start || *start + *extent > *other_start + *other_extent {
            return false;
        }
    }
    true
}
