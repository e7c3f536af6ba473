//! The sizes of chunks.
ghost use Rattle.std.specs.Prelude.{◌*◌, ◌<◌, ◌≤◌, ◌^◌};
ghost use Rattle.std.specs.Bool.{OnFalse, OnTrue};
ghost use Rattle.zarrs_subset.specs.Boxes.{position_count};
ghost use Rattle.zarrs_data_type.specs.Kind.{kind, cell_size};

use zarrs_data_type::DataType;
use zarrs_subset::element_count;

/// Whether the least number of bytes that the cells of a chunk of this shape take in memory fits `u64`.
pub(crate) fn is_counted(shape: &[u64], data_type: &DataType) -> bool
    ensures counted { OnTrue result (position_count shape.now * cell_size (kind data_type.now)
        < 2 ^ 64) }
    ensures large { OnFalse result (2 ^ 64
        ≤ position_count shape.now * cell_size (kind data_type.now)) }
{
    let Some(count) = element_count(shape) else {
        return false;
    };
    count.checked_mul(data_type.cell_size() as u64).is_some()
}
