//! Byte strings over a region, under the masks of optional types.
ghost use Rattle.std.specs.Prelude.{◌≡◌, ◌<◌, IfOk, IsSome, IsTrue, None, length, replicate};
ghost use Rattle.zarrs_data_type_bytes.specs.ArrayData.{data_of, optional, variable};
ghost use Rattle.zarrs_data_type_bytes.specs.Cells.{fits, HasCells, IsFilled};
ghost use Rattle.zarrs_data_type_bytes.specs.Parts.{TakesCells, TakesEach};
ghost use Rattle.zarrs_data_type_region.specs.RegionData.{level_data};
ghost use Rattle.zarrs_subset.specs.Boxes.{position_count};
ghost use Rattle.zarrs_subset.specs.Regions.{box_of};
ghost use Rattle.zarrs_data_type_kinds.specs.Cell.{fill_cell, fill_of};
ghost use Rattle.zarrs_data_type_kinds.specs.Kind.{kind, fixed_size};

use std::alloc::{AllocError, Global};
use zarrs_data_type_bytes::{ArrayBytes, Mask, PlacedStrings};
use zarrs_data_type_kinds::{DataType, inner_fill};
use zarrs_subset::ArraySubset;

/// The cells of a region, of a type that is variable or optional over such a type.
#[cycle(levels)]
#[derive(Debug, Drop)]
pub(crate) enum Level {
    /// Cells of any size.
    Strings(PlacedStrings),
    /// Cells of an optional type.
    Masked(MaskedLevel),
}

/// Cells of an optional type: a mask over inner cells. What these are under a 0 belongs to no cell.
#[cycle(levels)]
#[derive(Debug, Drop)]
pub(crate) struct MaskedLevel {
    inner: Box<Level>,
    mask: Mask<'static>,
}

impl Level {
    /// `count` cells, each that of the fill value.
    pub(crate) fn filled(
        alloc: Global,
        data_type: &DataType,
        count: usize,
        fill: &[u8],
    ) -> Result<Level, AllocError>
        requires filled { IsSome (fill_cell (kind data_type.now) fill.now) }
        requires variable { fixed_size (kind data_type.now) ≡ None }
        ensures { IfOk result (λ made. IsFilled (kind data_type.now) (level_data made) count
            (fill_of (kind data_type.now) fill.now)) }
    {
        match data_type {
            DataType::Optional(inner) => match inner_fill(fill) {
                Some(front) => {
                    let made = Level::filled(alloc, inner, count, front)?;
                    made.under_flags(alloc, 1, count)
                }
                None => {
                    let made = Level::missing(alloc, inner, count)?;
                    made.under_flags(alloc, 0, count)
                }
            },
            DataType::String | DataType::Bytes => {
                Ok(Level::Strings(PlacedStrings::repeated(alloc, fill, count)?))
            }
            _ => unreachable!(),
        }
    }

    /// `count` cells, whatever they are.
    fn missing(alloc: Global, data_type: &DataType, count: usize) -> Result<Level, AllocError>
        requires { fixed_size (kind data_type.now) ≡ None }
        ensures { IfOk result (λ made. IsTrue (fits (kind data_type.now) (level_data made) count)) }
    {
        match data_type {
            DataType::Optional(inner) => {
                let made = Level::missing(alloc, inner, count)?;
                made.under_flags(alloc, 0, count)
            }
            DataType::String | DataType::Bytes => {
                Ok(Level::Strings(PlacedStrings::repeated(alloc, &[], count)?))
            }
            _ => unreachable!(),
        }
    }

    /// These cells under a mask of `count` flags, each `flag`.
    fn under_flags(self, alloc: Global, flag: u8, count: usize) -> Result<Level, AllocError>
        requires { flag < 2 }
        ensures { IfOk result (λ made. level_data made
            ≡ optional (replicate count flag) (level_data self)) }
    {
        let mask = Mask::repeated(alloc, flag, count)?;
        Ok(Level::Masked(MaskedLevel {
            inner: Box::new(alloc, self)?,
            mask,
        }))
    }

    /// These cells, over `held_box`, with those of `part` at the positions that both boxes have.
    pub(crate) fn with_part(
        self,
        alloc: Global,
        data_type: &DataType,
        held_box: &ArraySubset,
        part: &ArrayBytes<'_>,
        part_box: &ArraySubset,
    ) -> Result<Level, AllocError>
        requires dimensions { length (box_of held_box.now).start
            ≡ length (box_of part_box.now).start }
        requires held { HasCells (kind data_type.now) (level_data self)
            (position_count (box_of held_box.now).shape) }
        requires part { HasCells (kind data_type.now) (data_of part.now)
            (position_count (box_of part_box.now).shape) }
        ensures { IfOk result (λ made. TakesCells (kind data_type.now) (box_of held_box.now)
            (box_of part_box.now) (data_of part.now) (level_data self) (level_data made)) }
    {
        self.put_part(alloc, data_type, held_box, part, part_box)
    }

    /// The same, level by level.
    fn put_part(
        self,
        alloc: Global,
        data_type: &DataType,
        held_box: &ArraySubset,
        part: &ArrayBytes<'_>,
        part_box: &ArraySubset,
    ) -> Result<Level, AllocError>
        requires dimensions { length (box_of held_box.now).start
            ≡ length (box_of part_box.now).start }
        requires held { IsTrue (fits (kind data_type.now) (level_data self)
            (position_count (box_of held_box.now).shape)) }
        requires part { IsTrue (fits (kind data_type.now) (data_of part.now)
            (position_count (box_of part_box.now).shape)) }
        ensures { IfOk result (λ made. TakesEach (kind data_type.now) (box_of held_box.now)
            (box_of part_box.now) (data_of part.now) (level_data self) (level_data made)) }
    {
        match self {
            Level::Strings(strings) => {
                strings_with_part(alloc, strings, data_type, held_box, part, part_box)
            }
            Level::Masked(masked) => {
                let ArrayBytes::Optional(given) = part else {
                    unreachable!()
                };
                let Some(inner_type) = data_type.optional_inner() else {
                    unreachable!()
                };
                let MaskedLevel { inner, mask } = masked;
                let mask = mask.with_part(alloc, held_box, given.mask(), part_box)?;
                let inner = Box::into_inner(inner).put_part(
                    alloc,
                    inner_type,
                    held_box,
                    given.data(),
                    part_box,
                )?;
                Ok(Level::Masked(MaskedLevel {
                    inner: Box::new(alloc, inner)?,
                    mask,
                }))
            }
        }
    }

    /// The cells as array bytes.
    pub(crate) fn into_array_bytes(self, alloc: Global) -> Result<ArrayBytes<'static>, AllocError>
        ensures { IfOk result (λ made. data_of made ≡ level_data self) }
    {
        match self {
            Level::Strings(strings) => Ok(ArrayBytes::Variable(strings.into_strings(alloc)?)),
            Level::Masked(masked) => {
                let MaskedLevel { inner, mask } = masked;
                let inner = Box::into_inner(inner).into_array_bytes(alloc)?;
                inner.with_optional_mask(alloc, mask.into_bytes())
            }
        }
    }
}

/// Byte strings, with those of `part` at the positions that both boxes have.
fn strings_with_part(
    alloc: Global,
    strings: PlacedStrings,
    data_type: &DataType,
    held_box: &ArraySubset,
    part: &ArrayBytes<'_>,
    part_box: &ArraySubset,
) -> Result<Level, AllocError>
    requires dimensions { length (box_of held_box.now).start ≡ length (box_of part_box.now).start }
    requires held { IsTrue (fits (kind data_type.now) (variable strings)
        (position_count (box_of held_box.now).shape)) }
    requires part { IsTrue (fits (kind data_type.now) (data_of part.now)
        (position_count (box_of part_box.now).shape)) }
    ensures { IfOk result (λ made. TakesEach (kind data_type.now) (box_of held_box.now)
        (box_of part_box.now) (data_of part.now) (variable strings) (level_data made)) }
{
    let ArrayBytes::Variable(given) = part else {
        unreachable!()
    };
    let made = strings.with_part(alloc, held_box, given, part_box)?;
    Ok(Level::Strings(made))
}
