//! Data over a box, with the cells of a part put in.
ghost use Rattle.std.specs.Prelude.{◌≡◌, IfOk, IsTrue, length};
ghost use Rattle.std.specs.Cow.{cow_slice_items};
ghost use Rattle.zarrs_data_type_bytes.specs.ArrayData.{data_of, fixed, variable};
ghost use Rattle.zarrs_data_type_bytes.specs.Cells.{fits, HasCells};
ghost use Rattle.zarrs_data_type_bytes.specs.Parts.{TakesCells, TakesEach};
ghost use Rattle.zarrs_subset.specs.Boxes.{position_count};
ghost use Rattle.zarrs_subset.specs.Regions.{box_of};
ghost use Rattle.zarrs_data_type_kinds.specs.Kind.{kind};

use super::{ArrayBytes, ArrayBytesOptional, owned_bytes};
use crate::boxes::bytes_with_part;
use crate::placed_strings::PlacedStrings;
use crate::variable::ArrayBytesVariableLength;
use std::alloc::{AllocError, Global};
use std::borrow::CowSlice;
use zarrs_data_type_kinds::DataType;
use zarrs_subset::ArraySubset;

impl ArrayBytes<'static> {
    /// This data, an array over `held_box`, with the cells of `part`, an array over `part_box`, at the positions that
    /// both boxes have. Every other cell stays.
    ///
    /// # Errors
    /// `AllocError`: out of memory.
    pub fn update_array_bytes(
        self,
        alloc: Global,
        data_type: &DataType,
        held_box: &ArraySubset,
        part: &ArrayBytes<'_>,
        part_box: &ArraySubset,
    ) -> Result<ArrayBytes<'static>, AllocError>
        requires dimensions { length (box_of held_box.now).start
            ≡ length (box_of part_box.now).start }
        requires held { HasCells (kind data_type.now) (data_of self)
            (position_count (box_of held_box.now).shape) }
        requires part { HasCells (kind data_type.now) (data_of part.now)
            (position_count (box_of part_box.now).shape) }
        ensures { IfOk result (λ made. TakesCells (kind data_type.now) (box_of held_box.now)
            (box_of part_box.now) (data_of part.now) (data_of self.entry) (data_of made)) }
    {
        self.put_part(alloc, data_type, held_box, part, part_box)
    }

    /// The same, level by level.
    fn put_part(
        self,
        alloc: Global,
        data_type: &DataType,
        held_box: &ArraySubset,
        part: &ArrayBytes<'_>,
        part_box: &ArraySubset,
    ) -> Result<ArrayBytes<'static>, AllocError>
        requires dimensions { length (box_of held_box.now).start
            ≡ length (box_of part_box.now).start }
        requires held { IsTrue (fits (kind data_type.now) (data_of self)
            (position_count (box_of held_box.now).shape)) }
        requires part { IsTrue (fits (kind data_type.now) (data_of part.now)
            (position_count (box_of part_box.now).shape)) }
        ensures { IfOk result (λ made. TakesEach (kind data_type.now) (box_of held_box.now)
            (box_of part_box.now) (data_of part.now) (data_of self.entry) (data_of made)) }
    {
        match self {
            ArrayBytes::Fixed(bytes) => {
                fixed_with_part(alloc, bytes, data_type, held_box, part, part_box)
            }
            ArrayBytes::Variable(strings) => {
                variable_with_part(alloc, strings, data_type, held_box, part, part_box)
            }
            ArrayBytes::Optional(optional) => {
                let ArrayBytes::Optional(given) = part else {
                    unreachable!()
                };
                let inner = data_type.optional_inner().unwrap();
                let ArrayBytesOptional { data, mask } = optional;
                let mask = mask.with_part(alloc, held_box, given.mask(), part_box)?;
                let data = Box::into_inner(data).put_part(
                    alloc,
                    inner,
                    held_box,
                    &given.data,
                    part_box,
                )?;
                Ok(ArrayBytes::Optional(ArrayBytesOptional {
                    data: Box::new(alloc, data)?,
                    mask,
                }))
            }
        }
    }
}

/// Cells of one size, with the cells of `part` at the positions that both boxes have.
fn fixed_with_part(
    alloc: Global,
    bytes: CowSlice<'static, u8>,
    data_type: &DataType,
    held_box: &ArraySubset,
    part: &ArrayBytes<'_>,
    part_box: &ArraySubset,
) -> Result<ArrayBytes<'static>, AllocError>
    requires dimensions { length (box_of held_box.now).start ≡ length (box_of part_box.now).start }
    requires held { IsTrue (fits (kind data_type.now) (fixed (cow_slice_items bytes))
        (position_count (box_of held_box.now).shape)) }
    requires part { IsTrue (fits (kind data_type.now) (data_of part.now)
        (position_count (box_of part_box.now).shape)) }
    ensures { IfOk result (λ made. TakesEach (kind data_type.now) (box_of held_box.now)
        (box_of part_box.now) (data_of part.now) (fixed (cow_slice_items bytes.entry))
        (data_of made)) }
{
    let ArrayBytes::Fixed(given) = part else {
        unreachable!()
    };
    let size = data_type.element_size().unwrap();
    let bytes = owned_bytes(alloc, bytes)?;
    let made = bytes_with_part(bytes, size, held_box, given.as_slice(), part_box);
    Ok(ArrayBytes::new_flen(made))
}

/// Byte strings, with those of `part` at the positions that both boxes have.
fn variable_with_part(
    alloc: Global,
    strings: ArrayBytesVariableLength<'static>,
    data_type: &DataType,
    held_box: &ArraySubset,
    part: &ArrayBytes<'_>,
    part_box: &ArraySubset,
) -> Result<ArrayBytes<'static>, AllocError>
    requires dimensions { length (box_of held_box.now).start ≡ length (box_of part_box.now).start }
    requires held { IsTrue (fits (kind data_type.now) (variable strings)
        (position_count (box_of held_box.now).shape)) }
    requires part { IsTrue (fits (kind data_type.now) (data_of part.now)
        (position_count (box_of part_box.now).shape)) }
    ensures { IfOk result (λ made. TakesEach (kind data_type.now) (box_of held_box.now)
        (box_of part_box.now) (data_of part.now) (variable strings.entry) (data_of made)) }
{
    let ArrayBytes::Variable(given) = part else {
        unreachable!()
    };
    let held = PlacedStrings::with_room(alloc, &strings, given.bytes().len())?;
    let made = held.with_part(alloc, held_box, given, part_box)?;
    Ok(ArrayBytes::Variable(made.into_strings(alloc)?))
}
