//! Values of the language that stand for cells. They are made and read here, not by the library that is tested.
use crate::cells::{Cell, cells_in, shown_cells};
use cases_lines::Why;
use std::alloc::{AllocError, Global};
use std::str;
use zarrs_data_type::DataType;

/// The values of the cells that the word writes, of an array of the type.
///
/// # Errors
/// `Json` or `Cells`, with the word.
pub fn values_in<'a, T: Drop, F: CellForm<T>>(
    alloc: Global,
    data_type: &DataType,
    form: &F,
    word: &'a str,
) -> Result<Vec<T>, Why<'a>> {
    let mut values = Vec::new(alloc);
    for cell in &cells_in(alloc, data_type, word)? {
        match form.value(alloc, cell)? {
            Some(value) => values.push(value)?,
            None => return Err(Why::Cells(word)),
        }
    }
    Ok(values)
}

/// The values as a case file writes them.
pub(crate) fn shown_values<T, F: CellForm<T>>(
    alloc: Global,
    data_type: &DataType,
    form: &F,
    values: &[T],
) -> Result<String, AllocError> {
    let mut cells: Vec<Cell> = Vec::new(alloc);
    for value in values {
        cells.push(form.cell(alloc, value)?)?;
    }
    shown_cells(alloc, data_type, Some(cells))
}

/// How the values of a type stand for cells, whose bytes are those of a fill value.
pub trait CellForm<T> {
    /// The value of the cell, if it is one of this form.
    fn value(&self, alloc: Global, cell: &[u8]) -> Result<Option<T>, AllocError>;

    /// The cell of the value.
    fn cell(&self, alloc: Global, value: &T) -> Result<Vec<u8>, AllocError>;
}

/// A byte, 0 or 1.
#[derive(Clone, Copy)]
pub struct Flag;

/// The low bytes of a number, from the lowest.
#[derive(Clone, Copy)]
pub struct Number {
    /// How many bytes there are.
    pub size: usize,
    /// How many numbers these tell apart.
    pub count: i128,
}

impl Number {
    pub const BITS_8: Number = Number {
        size: 1,
        count: 1 << 8,
    };

    pub const BITS_16: Number = Number {
        size: 2,
        count: 1 << 16,
    };

    pub const BITS_32: Number = Number {
        size: 4,
        count: 1 << 32,
    };

    pub const BITS_64: Number = Number {
        size: 8,
        count: 1 << 64,
    };
}

/// The bytes of a text in UTF-8.
#[derive(Clone, Copy)]
pub struct Text;

/// The bytes themselves.
#[derive(Clone, Copy)]
pub struct Plain;

/// The cell of the inner form, if there is one, and then 1; or 0.
#[derive(Clone, Copy)]
pub struct Maybe<F>(pub F);

impl CellForm<bool> for Flag {
    fn value(&self, _alloc: Global, cell: &[u8]) -> Result<Option<bool>, AllocError> {
        match cell {
            [0] => Ok(Some(false)),
            [1] => Ok(Some(true)),
            _ => Ok(None),
        }
    }

    fn cell(&self, alloc: Global, value: &bool) -> Result<Vec<u8>, AllocError> {
        [u8::from(*value)].to_vec(alloc)
    }
}

impl<T: Copy + Into<i128> + TryFrom<i128>> CellForm<T> for Number
where
    <T as TryFrom<i128>>::Error: Drop,
{
    fn value(&self, _alloc: Global, cell: &[u8]) -> Result<Option<T>, AllocError> {
        if cell.len() != self.size {
            return Ok(None);
        }
        let number = cell
            .iter()
            .rev()
            .fold(0i128, |number, byte| number << 8 | i128::from(*byte));
        let value = T::try_from(number).ok();
        if value.is_some() {
            return Ok(value);
        }
        // Else it is a negative number, or none of the type.
        Ok(T::try_from(number.wrapping_sub(self.count)).ok())
    }

    fn cell(&self, alloc: Global, value: &T) -> Result<Vec<u8>, AllocError> {
        let number: i128 = (*value).into();
        number
            .to_le_bytes()
            .iter()
            .take(self.size)
            .copied()
            .collect(alloc)
    }
}

impl CellForm<String> for Text {
    fn value(&self, alloc: Global, cell: &[u8]) -> Result<Option<String>, AllocError> {
        match str::from_utf8(cell) {
            Ok(text) => Ok(Some(String::from_str(alloc, text)?)),
            Err(_) => Ok(None),
        }
    }

    fn cell(&self, alloc: Global, value: &String) -> Result<Vec<u8>, AllocError> {
        value.as_str().as_bytes().to_vec(alloc)
    }
}

impl CellForm<Vec<u8>> for Plain {
    fn value(&self, alloc: Global, cell: &[u8]) -> Result<Option<Vec<u8>>, AllocError> {
        Ok(Some(cell.to_vec(alloc)?))
    }

    fn cell(&self, alloc: Global, value: &Vec<u8>) -> Result<Vec<u8>, AllocError> {
        value.to_vec(alloc)
    }
}

impl<T, F: CellForm<T>> CellForm<Option<T>> for Maybe<F> {
    fn value(&self, alloc: Global, cell: &[u8]) -> Result<Option<Option<T>>, AllocError> {
        match cell {
            [.., 0] => Ok(Some(None)),
            [inner @ .., 1] => Ok(self.0.value(alloc, inner)?.map(Some)),
            _ => Ok(None),
        }
    }

    fn cell(&self, alloc: Global, value: &Option<T>) -> Result<Vec<u8>, AllocError> {
        let mut cell = match value {
            Some(value) => self.0.cell(alloc, value)?,
            None => Vec::new(alloc),
        };
        cell.push(u8::from(value.is_some()))?;
        Ok(cell)
    }
}
