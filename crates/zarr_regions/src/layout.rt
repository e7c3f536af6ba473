//! How cells are written and read.
ghost use Rattle.std.specs.Prelude.{◌≡◌};
ghost use Rattle.zarrs_subset.specs.Regions.{box_of};
ghost use Rattle.zarr_regions.specs.Texts.{line_width};

use std::alloc::Global;
use zarr_arrays::Refusal;
use zarrs::ArraySubset;

/// How cells are written and read.
#[derive(Clone, Copy, Debug, PartialEq, Eq)]
pub enum Layout {
    /// A JSON list for each row of the last dimension, on a line.
    Lines,
    /// The bytes of the cells, little endian.
    Raw,
    /// Numpy's format.
    Npy,
}

/// Returns how many cells a line of the region has.
pub(crate) fn line_width(region: &ArraySubset) -> u64
    ensures { result ≡ line_width (box_of region.now) }
{
    match region.shape().last() {
        Some(extent) => *extent,
        None => 1,
    }
}

/// Returns the refusal of a data type that has no text.
pub(crate) fn no_text(alloc: Global) -> Refusal {
    Refusal::said(alloc, "cells of this data type have no text: see --raw")
}

/// Returns the refusal of a data type whose cells have no size of their own.
pub(crate) fn no_bytes(alloc: Global) -> Refusal {
    Refusal::said(alloc, "cells of this data type have no bytes of one size")
}
