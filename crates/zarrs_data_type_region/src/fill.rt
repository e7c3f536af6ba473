//! Boxes of an array that a fill value fills.
ghost use Rattle.std.specs.Prelude.{◌≡◌, true, IsSome, OnErr, OnOk};
ghost use Rattle.zarrs_data_type_kinds.specs.Cell.{fill_cell, fill_of};
ghost use Rattle.zarrs_data_type_kinds.specs.Kind.{kind};
ghost use Rattle.zarrs_data_type_region.specs.States.{KeepsTarget, data_of_target, parent_box, target_box};
ghost use Rattle.zarrs_data_type_region.specs.Targets.{FillsBox, takes_type};

use crate::target::{ArrayBytesDecodeIntoTarget, Place, fill_levels, positions};
use std::alloc::{AllocError, Global};
use zarrs_data_type_bytes::ArrayBytes;
use zarrs_data_type_kinds::{DataType, FillValue};

/// Fills the box with the fill value. Every byte outside the box stays.
///
/// # Errors
/// If out of memory; then every byte stays.
pub fn copy_fill_value_into(
    alloc: Global,
    data_type: &DataType,
    fill_value: &FillValue,
    target: &mut ArrayBytesDecodeIntoTarget<'_, '_, '_>,
) -> Result<(), AllocError>
    requires takes { takes_type target.old.cell_size target.old.depth (kind data_type.now) ≡ true }
    requires filled { IsSome (fill_cell (kind data_type.now) fill_value.now) }
    ensures kept { KeepsTarget target.old target.new }
    ensures fills { OnOk result (FillsBox (kind data_type.now) (parent_box target.old)
        (target_box target.old) (fill_of (kind data_type.now) fill_value.now)
        (data_of_target target.old) (data_of_target target.new)) }
    ensures kept_bytes { OnErr result (target.new.bytes.now ≡ target.old.bytes.now) }
    ensures kept_masks { OnErr result (target.new.masks.now ≡ target.old.masks.now) }
{
    let place = Place {
        shape: target.parent_shape,
        origin: &[],
        region: target.region,
        count: positions(target.parent_shape),
        cell_size: target.cell_size,
    };
    let cell = ArrayBytes::new_fill_value(alloc, data_type, 1, fill_value)?;
    fill_levels(&cell, target.depth, &place, target.masks, target.bytes);
    Ok(())
}
