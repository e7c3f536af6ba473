//! Whether data is a number of cells of a type.
ghost use Rattle.std.specs.Prelude.{◌≡◌, ◌↔◌, ◌+◌, ◌*◌, ◌<◌, ℕ, IsTrue, length, slice_range};
ghost use Rattle.zarrs_data_type_bytes.specs.ArrayData.{data_of};
ghost use Rattle.zarrs_data_type_bytes.specs.Cells.{cell_at, fits, HasCellAt, HasCells};
ghost use Rattle.zarrs_data_type_kinds.specs.Cell.{is_value};
ghost use Rattle.zarrs_data_type_kinds.specs.Kind.{kind};

use super::{ArrayBytes, fixed};
use zarrs_data_type_kinds::DataType;

/// The cell of this number, of cells of one size.
pub(super) fn fixed_cell(bytes: &[u8], size: usize, index: usize) -> &[u8]
    requires { (n : ℕ) × (index < n) × (length bytes.now ≡ n * size) }
    ensures { result.now ≡ slice_range bytes.now (index * size) (index * size + size) }
{
    let start = index * size;
    &bytes[start..start + size]
}

impl<'a> ArrayBytes<'a> {
    /// Whether this is data of the type with `count` cells, each a value of it. It ignores what lies under a none.
    pub fn validate(&self, data_type: &DataType, count: u64) -> bool
        ensures { IsTrue result ↔ HasCells (kind data_type.now) (data_of self.now) count }
    {
        if let ArrayBytes::Fixed(bytes) = self {
            return fixed::has_cells(bytes.as_slice(), data_type, count);
        }
        if !self.fits(data_type, count) {
            return false;
        }
        if data_type.takes_any_bytes() {
            return true;
        }
        match self {
            ArrayBytes::Variable(strings) => strings.are_utf8(),
            _ => self.are_values(data_type, count),
        }
    }

    /// Whether this is data of the type's kind with `count` cells, at each level.
    pub(super) fn fits(&self, data_type: &DataType, count: u64) -> bool
        ensures { result ≡ fits (kind data_type.now) (data_of self.now) count }
    {
        match self {
            ArrayBytes::Fixed(bytes) => match data_type.element_size() {
                Some(size) => fixed::is_size_of(bytes.as_slice().len(), count, size),
                None => false,
            },
            ArrayBytes::Variable(strings) => {
                data_type.is_variable() && strings.len() as u64 == count
            }
            ArrayBytes::Optional(optional) => match data_type.optional_inner() {
                Some(inner) => {
                    optional.mask.as_slice().len() as u64 == count
                        && optional.data.fits(inner, count)
                }
                None => false,
            },
        }
    }

    /// Whether each cell is a value of the type.
    fn are_values(&self, data_type: &DataType, count: u64) -> bool
        requires { IsTrue (fits (kind data_type.now) (data_of self.now) count) }
        ensures { IsTrue result ↔ HasCells (kind data_type.now) (data_of self.now) count }
    {
        for index in 0..count as usize {
            if !self.is_value_at(data_type, index) {
                return false;
            }
        }
        true
    }

    /// Whether the cell of this number is a value of the type.
    fn is_value_at(&self, data_type: &DataType, index: usize) -> bool
        requires { HasCellAt (kind data_type.now) (data_of self.now) index }
        ensures { result ≡ is_value (kind data_type.now) (cell_at (kind data_type.now)
            (data_of self.now) index) }
    {
        match self {
            ArrayBytes::Fixed(bytes) => match data_type.element_size() {
                Some(size) => data_type.is_element(fixed_cell(bytes.as_slice(), size, index)),
                None => false,
            },
            ArrayBytes::Variable(strings) => data_type.is_element(strings.get(index)),
            ArrayBytes::Optional(optional) => match data_type.optional_inner() {
                Some(inner) => {
                    optional.mask.as_slice()[index] == 0 || optional.data.is_value_at(inner, index)
                }
                None => false,
            },
        }
    }
}
