//! `RegionCells`, the cells of a region while those of chunks are put into it.
ghost use Rattle.std.specs.Prelude.{◌≡◌, ◌*◌, ◌<◌, ◌^◌, IfOk, IsSome, Some, length, replicate};
ghost use Rattle.zarrs_data_type_bytes.specs.ArrayData.{data_of};
ghost use Rattle.zarrs_data_type_bytes.specs.Cells.{cells, HasCells};
ghost use Rattle.zarrs_data_type_bytes.specs.Parts.{TakesCells};
ghost use Rattle.zarrs_data_type_region.specs.RegionData.{region_data};
ghost use Rattle.zarrs_subset.specs.Boxes.{position_count};
ghost use Rattle.zarrs_subset.specs.Regions.{box_of};
ghost use Rattle.zarrs_data_type_kinds.specs.Cell.{fill_cell, fill_of};
ghost use Rattle.zarrs_data_type_kinds.specs.Kind.{kind, cell_size};

use crate::levels::Level;
use std::alloc::{AllocError, Global};
use zarrs_data_type_bytes::ArrayBytes;
use zarrs_data_type_kinds::{DataType, FillValue};
use zarrs_subset::ArraySubset;

/// The cells of a region while those of chunks are put into it. What a chunk's cells cost is linear in them and in
/// their bytes, whatever the region has: cells of any size stay where they were put, and are put together at the end.
#[derive(Debug, Drop)]
pub struct RegionCells {
    held: Held,
}

/// The cells of a type that is fixed, or optional over such a type, are array bytes; others have their levels.
#[derive(Debug, Drop)]
pub(crate) enum Held {
    Fixed(ArrayBytes<'static>),
    Variable(Level),
}

impl RegionCells {
    /// `count` cells, each that of the fill value.
    ///
    /// # Errors
    /// `AllocError`: out of memory.
    pub fn new_fill_value(
        alloc: Global,
        data_type: &DataType,
        count: u64,
        fill_value: &FillValue,
    ) -> Result<RegionCells, AllocError>
        requires filled { IsSome (fill_cell (kind data_type.now) fill_value.now) }
        requires size { count * cell_size (kind data_type.now) < 2 ^ 64 }
        ensures { IfOk result (λ made. cells (kind data_type.now) (region_data made)
            ≡ Some (replicate count (fill_of (kind data_type.now) fill_value.now))) }
    {
        if data_type.is_fixed() {
            let made = ArrayBytes::new_fill_value(alloc, data_type, count, fill_value)?;
            return Ok(RegionCells {
                held: Held::Fixed(made),
            });
        }
        let made = Level::filled(alloc, data_type, count as usize, fill_value.as_bytes())?;
        Ok(RegionCells {
            held: Held::Variable(made),
        })
    }

    /// These cells, of an array over `held_box`, with those of `part`, an array over `part_box`, at the positions that
    /// both boxes have. Every other cell stays.
    ///
    /// # Errors
    /// `AllocError`: out of memory.
    pub fn with_part(
        self,
        alloc: Global,
        data_type: &DataType,
        held_box: &ArraySubset,
        part: &ArrayBytes<'_>,
        part_box: &ArraySubset,
    ) -> Result<RegionCells, AllocError>
        requires dimensions { length (box_of held_box.now).start
            ≡ length (box_of part_box.now).start }
        requires held { HasCells (kind data_type.now) (region_data self)
            (position_count (box_of held_box.now).shape) }
        requires part { HasCells (kind data_type.now) (data_of part.now)
            (position_count (box_of part_box.now).shape) }
        ensures { IfOk result (λ made. TakesCells (kind data_type.now) (box_of held_box.now)
            (box_of part_box.now) (data_of part.now) (region_data self) (region_data made)) }
    {
        match self.held {
            Held::Fixed(held) => {
                let made = held.update_array_bytes(alloc, data_type, held_box, part, part_box)?;
                Ok(RegionCells {
                    held: Held::Fixed(made),
                })
            }
            Held::Variable(level) => {
                let made = level.with_part(alloc, data_type, held_box, part, part_box)?;
                Ok(RegionCells {
                    held: Held::Variable(made),
                })
            }
        }
    }

    /// The same, with a part that is given away. If its type is fixed and both boxes are the same, it is not copied.
    ///
    /// # Errors
    /// `AllocError`: out of memory.
    pub fn with_owned_part(
        self,
        alloc: Global,
        data_type: &DataType,
        held_box: &ArraySubset,
        part: ArrayBytes<'static>,
        part_box: &ArraySubset,
    ) -> Result<RegionCells, AllocError>
        requires dimensions { length (box_of held_box.now).start
            ≡ length (box_of part_box.now).start }
        requires held { HasCells (kind data_type.now) (region_data self)
            (position_count (box_of held_box.now).shape) }
        requires part { HasCells (kind data_type.now) (data_of part)
            (position_count (box_of part_box.now).shape) }
        ensures { IfOk result (λ made. TakesCells (kind data_type.now) (box_of held_box.now)
            (box_of part_box.now) (data_of part.entry) (region_data self) (region_data made)) }
    {
        if data_type.is_fixed() && held_box == part_box {
            return Ok(RegionCells {
                held: Held::Fixed(part),
            });
        }
        self.with_part(alloc, data_type, held_box, &part, part_box)
    }

    /// The cells as array bytes.
    ///
    /// # Errors
    /// `AllocError`: out of memory.
    pub fn into_array_bytes(self, alloc: Global) -> Result<ArrayBytes<'static>, AllocError>
        ensures { IfOk result (λ made. data_of made ≡ region_data self) }
    {
        match self.held {
            Held::Fixed(held) => Ok(held),
            Held::Variable(level) => level.into_array_bytes(alloc),
        }
    }
}
