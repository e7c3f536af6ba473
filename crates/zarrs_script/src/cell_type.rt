//! The types of the cells of a script's arrays.
ghost use Rattle.std.specs.Prelude.{◌≡◌};
ghost use Rattle.zarrs_data_type.specs.Kind.{kind};
ghost use Rattle.zarrs_script.specs.CellTypes.{kind_of_cells, cell_type_size, greatest, is_signed, type_of};

use crate::names::look_up;
use zarrs_data_type::DataType;

/// The type of an array's cells.
#[derive(Clone, Copy)]
pub enum CellType {
    /// `bool`
    Bool,
    /// `int8`
    Int8,
    /// `int16`
    Int16,
    /// `int32`
    Int32,
    /// `int64`
    Int64,
    /// `uint8`
    UInt8,
    /// `uint16`
    UInt16,
    /// `uint32`
    UInt32,
    /// `uint64`
    UInt64,
}

/// The types by their names.
const CELL_TYPES: [(&[u8], CellType); 9] = [
    (b"bool", CellType::Bool),
    (b"int8", CellType::Int8),
    (b"int16", CellType::Int16),
    (b"int32", CellType::Int32),
    (b"int64", CellType::Int64),
    (b"uint8", CellType::UInt8),
    (b"uint16", CellType::UInt16),
    (b"uint32", CellType::UInt32),
    (b"uint64", CellType::UInt64),
];

impl CellType {
    /// Returns the type of this name.
    #[tactic(auto, unfolding(crate::specs::CellTypes::type_of))]
    pub fn named(name: &[u8]) -> Option<CellType>
        ensures { result ≡ type_of name.now }
    {
        look_up(&CELL_TYPES, name)
    }

    /// Returns the data type of the cells.
    pub fn data_type(self) -> DataType
        ensures { kind result ≡ kind_of_cells self }
    {
        match self {
            CellType::Bool => DataType::Bool,
            CellType::Int8 => DataType::Int8,
            CellType::Int16 => DataType::Int16,
            CellType::Int32 => DataType::Int32,
            CellType::Int64 => DataType::Int64,
            CellType::UInt8 => DataType::UInt8,
            CellType::UInt16 => DataType::UInt16,
            CellType::UInt32 => DataType::UInt32,
            CellType::UInt64 => DataType::UInt64,
        }
    }

    /// Returns the size of a cell in bytes.
    pub fn size(self) -> usize
        ensures { result ≡ cell_type_size self }
    {
        match self {
            CellType::Bool | CellType::Int8 | CellType::UInt8 => 1,
            CellType::Int16 | CellType::UInt16 => 2,
            CellType::Int32 | CellType::UInt32 => 4,
            CellType::Int64 | CellType::UInt64 => 8,
        }
    }

    /// Returns the greatest number that is a cell of the type.
    pub fn greatest(self) -> u64
        ensures { result ≡ greatest self }
    {
        match self {
            CellType::Bool => 1,
            CellType::Int8 => 127,
            CellType::Int16 => 32_767,
            CellType::Int32 => 2_147_483_647,
            CellType::Int64 => 9_223_372_036_854_775_807,
            CellType::UInt8 => 255,
            CellType::UInt16 => 65_535,
            CellType::UInt32 => 4_294_967_295,
            CellType::UInt64 => 18_446_744_073_709_551_615,
        }
    }

    /// Returns whether the type has numbers below 0, the least of which is `-greatest - 1`.
    pub fn is_signed(self) -> bool
        ensures { result ≡ is_signed self }
    {
        matches!(
            self,
            CellType::Int8 | CellType::Int16 | CellType::Int32 | CellType::Int64
        )
    }
}
