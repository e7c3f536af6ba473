//! The cells of a box.
ghost use Rattle.std.specs.Prelude.{IfOk, IsTrue};
ghost use Rattle.zarrs_data_type_bytes.specs.ArrayData.{data_of};
ghost use Rattle.zarrs_data_type_bytes.specs.Cells.{fits, HasCells};
ghost use Rattle.zarrs_data_type_bytes.specs.Parts.{ExtractsCells, ExtractsEach};
ghost use Rattle.zarrs_subset.specs.Boxes.{position_count};
ghost use Rattle.zarrs_subset.specs.Regions.{box_of, LiesInBox};
ghost use Rattle.zarrs_data_type_kinds.specs.Kind.{kind};

use super::{ArrayBytes, ArrayBytesOptional};
use crate::boxes::extract_bytes;
use crate::string_boxes::extract_strings;
use std::alloc::{AllocError, Global};
use zarrs_data_type_kinds::DataType;
use zarrs_subset::ArraySubset;

impl<'a> ArrayBytes<'a> {
    /// The cells of this data, an array over `held_box`, at the positions of `subset`, in row-major order.
    ///
    /// # Errors
    /// `AllocError`: out of memory.
    pub fn extract_array_subset(
        &self,
        alloc: Global,
        data_type: &DataType,
        held_box: &ArraySubset,
        subset: &ArraySubset,
    ) -> Result<ArrayBytes<'static>, AllocError>
        requires held { HasCells (kind data_type.now) (data_of self.now)
            (position_count (box_of held_box.now).shape) }
        requires inside { LiesInBox (box_of subset.now) (box_of held_box.now) }
        ensures { IfOk result (λ made. ExtractsCells (kind data_type.now) (box_of held_box.now)
            (data_of self.now) (box_of subset.now) (data_of made)) }
    {
        self.extract(alloc, data_type, held_box, subset)
    }

    /// The same, level by level.
    fn extract(
        &self,
        alloc: Global,
        data_type: &DataType,
        held_box: &ArraySubset,
        subset: &ArraySubset,
    ) -> Result<ArrayBytes<'static>, AllocError>
        requires held { IsTrue (fits (kind data_type.now) (data_of self.now)
            (position_count (box_of held_box.now).shape)) }
        requires inside { LiesInBox (box_of subset.now) (box_of held_box.now) }
        ensures { IfOk result (λ made. ExtractsEach (kind data_type.now) (box_of held_box.now)
            (data_of self.now) (box_of subset.now) (data_of made)) }
    {
        match self {
            ArrayBytes::Fixed(bytes) => {
                let size = data_type.element_size().unwrap();
                let made = extract_bytes(alloc, bytes.as_slice(), size, held_box, subset)?;
                Ok(ArrayBytes::new_flen(made))
            }
            ArrayBytes::Variable(strings) => {
                Ok(ArrayBytes::Variable(extract_strings(alloc, strings, held_box, subset)?))
            }
            ArrayBytes::Optional(optional) => {
                let inner = data_type.optional_inner().unwrap();
                let mask = optional.mask.extract(alloc, held_box, subset)?;
                let data = optional.data.extract(alloc, inner, held_box, subset)?;
                Ok(ArrayBytes::Optional(ArrayBytesOptional {
                    data: Box::new(alloc, data)?,
                    mask,
                }))
            }
        }
    }
}
