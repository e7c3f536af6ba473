//! Chunks that have to be decoded whole.
ghost use Rattle.std.specs.Prelude.{IfOk};
ghost use Rattle.zarrs_data_type.specs.ArrayData.{data_of};
ghost use Rattle.zarrs_data_type.specs.Cells.{cells, HasCells};
ghost use Rattle.zarrs_subset.specs.Boxes.{position_count};
ghost use Rattle.zarrs_subset.specs.Regions.{LiesInShape, box_of};
ghost use Rattle.zarrs_data_type.specs.Kind.{kind};
ghost use Rattle.zarrs_codec_chain.specs.Parts.{DecodesPart};

use std::alloc::{AllocError, Global};
use zarrs_data_type::{ArrayBytes, DataType};
use zarrs_subset::ArraySubset;

/// The cells of a part of a chunk of this shape, of the cells of the chunk. If the part is all of it and the cells are
/// owned, none is copied.
///
/// # Errors
/// `AllocError`: out of memory.
pub fn part_of_whole(
    alloc: Global,
    whole: ArrayBytes<'_>,
    data_type: &DataType,
    shape: &[u64],
    part: &ArraySubset,
) -> Result<ArrayBytes<'static>, AllocError>
    requires held { HasCells (kind data_type.now) (data_of whole) (position_count shape.now) }
    requires part { LiesInShape (box_of part.now) shape.now }
    ensures { IfOk result (λ made. DecodesPart (kind data_type.now) shape.now (box_of part.now)
        (cells (kind data_type.now) (data_of whole.entry)) (data_of made)) }
{
    if part.shape() == shape {
        return whole.into_owned(alloc);
    }
    let chunk = ArraySubset::new_with_shape(alloc, Vec::from_slice(alloc, shape)?)?;
    whole.extract_array_subset(alloc, data_type, &chunk, part)
}
