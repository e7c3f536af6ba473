//! Cells of one size.
ghost use Rattle.std.specs.Prelude.{◌≡◌, ◌↔◌, ◌*◌, IsTrue, nat_lt};
ghost use Rattle.std.specs.List.{list_all};
ghost use Rattle.zarrs_data_type_bytes.specs.ArrayData.{fixed};
ghost use Rattle.zarrs_data_type_kinds.specs.Cell.{may_hold};
ghost use Rattle.zarrs_data_type_bytes.specs.Cells.{HasCells};
ghost use Rattle.zarrs_data_type_kinds.specs.Kind.{kind};

use crate::mask::are_flags;
use zarrs_data_type_kinds::DataType;

/// Whether `count` cells of `size` bytes take `len` bytes.
pub(super) fn is_size_of(len: usize, count: u64, size: usize) -> bool
    ensures { IsTrue result ↔ (len ≡ count * size) }
{
    count.checked_mul(size as u64) == Some(len as u64)
}

/// Whether a cell of the type may hold each of these bytes.
fn may_hold(bytes: &[u8], data_type: &DataType) -> bool
    ensures { result ≡ may_hold (kind data_type.now) bytes.now }
{
    match data_type {
        DataType::Bool => are_flags(bytes),
        _ => true,
    }
}

/// Whether these bytes are `count` cells of the type, each a value of it.
pub(super) fn has_cells(bytes: &[u8], data_type: &DataType, count: u64) -> bool
    ensures { IsTrue result ↔ HasCells (kind data_type.now) (fixed bytes.now) count }
{
    match data_type.element_size() {
        Some(size) => is_size_of(bytes.len(), count, size) && may_hold(bytes, data_type),
        None => false,
    }
}
