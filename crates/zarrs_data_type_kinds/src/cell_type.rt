//! A data type with a fill value.
ghost use Rattle.std.specs.Prelude.{◌≡◌, ◌↔◌, IfSome, IsSome};
ghost use Rattle.zarrs_data_type_kinds.specs.Cell.{fill_cell};
ghost use Rattle.zarrs_data_type_kinds.specs.Kind.{kind};

use crate::data_type::DataType;
use crate::fill_value::FillValue;

/// A data type and the fill value of its cells.
#[derive(Debug, Drop)]
pub struct CellType {
    /// The type of the cells.
    pub data_type: DataType,
    /// The value of a cell that was never written.
    pub fill_value: FillValue,
    /// The fill value is one of the type.
    pub ghost filled: { IsSome (fill_cell (kind data_type) fill_value) },
}

impl CellType {
    /// The cells of this type with this fill value, or `None` if it is not one of the type.
    pub fn new(data_type: DataType, fill_value: FillValue) -> Option<CellType>
        ensures some { IsSome result ↔ IsSome (fill_cell (kind data_type) fill_value) }
        ensures data_type { IfSome result (λ made. made.data_type ≡ data_type) }
        ensures fill_value { IfSome result (λ made. made.fill_value ≡ fill_value) }
    {
        if !fill_value.is_value_of(&data_type) {
            return None;
        }
        Some(CellType {
            data_type,
            fill_value,
        })
    }
}
