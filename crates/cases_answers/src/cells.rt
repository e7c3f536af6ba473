//! Cells as a case file writes them: a JSON list of fill values, or the raw form of any data.
use cases_lines::Why;
use cases_lines::words::{bytes, json, numbers};
use serde_json::Value;
use std::alloc::{AllocError, Global};
use std::borrow::CowSlice;
use zarrs_data_type::{
    ArrayBytes, ArrayBytesOffsets, ArrayBytesOptional, ArrayBytesVariableLength, DataType,
    DataTypeFillValueMetadataError, FillValue, inner_fill,
};
use zarrs_metadata::FillValueMetadata;

/// What is shown of data that is no list of values of the type.
const NO_CELLS: &str = "no cells of the data type";

/// A cell, as the bytes of a fill value: of an optional type the inner bytes, if any, and then 1 or 0.
pub(crate) type Cell = Vec<u8>;

/// The data that the word writes, of an array of the type.
///
/// # Errors
/// `Json`, `Cells`, `RawData` or `Bytes`, with the word.
pub fn data_of<'a>(
    alloc: Global,
    data_type: &DataType,
    word: &'a str,
) -> Result<ArrayBytes<'static>, Why<'a>> {
    if !word.starts_with('[') {
        return raw_data(alloc, word);
    }
    let cells = cells_in(alloc, data_type, word)?;
    match data_of_cells(alloc, data_type, &cells)? {
        Some(data) => Ok(data),
        None => Err(Why::Cells(word)),
    }
}

/// The cells of a JSON list.
pub(crate) fn cells_in<'a>(
    alloc: Global,
    data_type: &DataType,
    word: &'a str,
) -> Result<Vec<Cell>, Why<'a>> {
    let value = json(alloc, word)?;
    let Some(items) = value.as_array() else {
        return Err(Why::Cells(word));
    };
    let mut cells = Vec::new(alloc);
    for item in items {
        match cell_in(alloc, data_type, item)? {
            Some(cell) => cells.push(cell)?,
            None => return Err(Why::Cells(word)),
        }
    }
    Ok(cells)
}

/// The cell that fill value metadata says, if it says one.
fn cell_in(alloc: Global, data_type: &DataType, item: &Value) -> Result<Option<Cell>, AllocError> {
    let metadata = FillValueMetadata::from_value(item.clone()?);
    match data_type.fill_value_v3(alloc, &metadata) {
        Ok(fill_value) => Ok(Some(fill_value.as_bytes().to_vec(alloc)?)),
        Err(DataTypeFillValueMetadataError::Invalid) => Ok(None),
        Err(DataTypeFillValueMetadataError::OutOfMemory) => Err(AllocError),
    }
}

/// Data of these cells. A cell without bytes is one that lies under a none.
fn data_of_cells(
    alloc: Global,
    data_type: &DataType,
    cells: &[Cell],
) -> Result<Option<ArrayBytes<'static>>, AllocError> {
    if let DataType::Optional(inner) = data_type {
        let (mask, cells) = without_mask(alloc, cells)?;
        return match data_of_cells(alloc, inner, &cells)? {
            Some(data) => masked(alloc, data, mask),
            None => Ok(None),
        };
    }
    match data_type.element_size() {
        Some(size) => Ok(Some(ArrayBytes::new_flen(joined(alloc, size, cells)?))),
        None => strings(alloc, cells),
    }
}

/// A byte for each cell of an optional type, 0 for none and 1 for some, and the inner cells.
fn without_mask(alloc: Global, cells: &[Cell]) -> Result<(Vec<u8>, Vec<Cell>), AllocError> {
    let mut mask = Vec::new(alloc);
    let mut inner = Vec::new(alloc);
    for cell in cells {
        let front = inner_fill(cell);
        mask.push(u8::from(front.is_some()))?;
        inner.push(front.unwrap_or_default().to_vec(alloc)?)?;
    }
    Ok((mask, inner))
}

/// The data under this mask, if its bytes are 0 and 1.
fn masked(
    alloc: Global,
    inner: ArrayBytes<'static>,
    mask: Vec<u8>,
) -> Result<Option<ArrayBytes<'static>>, AllocError> {
    let inner = Box::new(alloc, inner)?;
    match ArrayBytesOptional::new(inner, CowSlice::Owned(mask)) {
        Ok(optional) => Ok(Some(ArrayBytes::Optional(optional))),
        Err(_) => Ok(None),
    }
}

/// The bytes of cells of this size, one after another. A cell without bytes is zeros.
fn joined(alloc: Global, size: usize, cells: &[Cell]) -> Result<Vec<u8>, AllocError> {
    let mut bytes = Vec::new(alloc);
    for cell in cells {
        if cell.is_empty() {
            for _ in 0..size {
                bytes.push(0)?;
            }
        }
        bytes.extend_from_slice(cell)?;
    }
    Ok(bytes)
}

/// Data of these byte strings.
fn strings(alloc: Global, cells: &[Cell]) -> Result<Option<ArrayBytes<'static>>, AllocError> {
    let mut bytes = Vec::new(alloc);
    let mut offsets = Vec::new(alloc);
    offsets.push(0)?;
    for cell in cells {
        bytes.extend_from_slice(cell)?;
        offsets.push(bytes.len())?;
    }
    Ok(variable(bytes, offsets))
}

/// Data of the byte strings that the offsets cut from the bytes, if they do so.
fn variable(bytes: Vec<u8>, offsets: Vec<usize>) -> Option<ArrayBytes<'static>> {
    let Ok(offsets) = ArrayBytesOffsets::new(CowSlice::Owned(offsets)) else {
        return None;
    };
    ArrayBytes::new_vlen(CowSlice::Owned(bytes), offsets).ok()
}

/// Data in its raw form, as `optional:0100/fixed:0500`. The last mask is the innermost.
fn raw_data<'a>(alloc: Global, word: &'a str) -> Result<ArrayBytes<'static>, Why<'a>> {
    let Some((levels, values)) = word.rsplit_once("/") else {
        return raw_values(alloc, word);
    };
    let mut data = raw_values(alloc, values)?;
    for level in levels.rsplit('/') {
        data = under_mask(alloc, data, level)?;
    }
    Ok(data)
}

/// The data under the mask of this level.
fn under_mask<'a>(
    alloc: Global,
    data: ArrayBytes<'static>,
    level: &'a str,
) -> Result<ArrayBytes<'static>, Why<'a>> {
    let Some(mask) = level.strip_prefix("optional:") else {
        return Err(Why::RawData(level));
    };
    match masked(alloc, data, bytes(alloc, mask)?)? {
        Some(data) => Ok(data),
        None => Err(Why::RawData(level)),
    }
}

/// Raw data that is not optional.
fn raw_values<'a>(alloc: Global, word: &'a str) -> Result<ArrayBytes<'static>, Why<'a>> {
    if let Some(digits) = word.strip_prefix("fixed:") {
        return Ok(ArrayBytes::new_flen(bytes(alloc, digits)?));
    }
    let parts = word
        .strip_prefix("variable:")
        .and_then(|parts| parts.split_once(":"));
    let Some((places, digits)) = parts else {
        return Err(Why::RawData(word));
    };
    let mut offsets = Vec::new(alloc);
    for place in &numbers(alloc, places)? {
        offsets.push(*place as usize)?;
    }
    match variable(bytes(alloc, digits)?, offsets) {
        Some(data) => Ok(data),
        None => Err(Why::RawData(word)),
    }
}

/// The data as a case file writes it: its cells.
pub fn shown_data(
    alloc: Global,
    data_type: &DataType,
    data: &ArrayBytes<'_>,
) -> Result<String, AllocError> {
    let cells = cells_of(alloc, data_type, data)?;
    shown_cells(alloc, data_type, cells)
}

/// The cells as a case file writes them. Calls return no other cells than values of the type.
pub(crate) fn shown_cells(
    alloc: Global,
    data_type: &DataType,
    cells: Option<Vec<Cell>>,
) -> Result<String, AllocError> {
    let Some(cells) = cells else {
        return String::from_str(alloc, NO_CELLS);
    };
    match values_of(alloc, data_type, cells)? {
        Some(values) => Value::Array(values).to_string(alloc),
        None => String::from_str(alloc, NO_CELLS),
    }
}

/// The cells as fill value metadata, if each is a value of the type.
fn values_of(
    alloc: Global,
    data_type: &DataType,
    cells: Vec<Cell>,
) -> Result<Option<Vec<Value>>, AllocError> {
    let mut values = Vec::new(alloc);
    for cell in cells {
        let fill_value = FillValue::new(cell);
        if !fill_value.is_value_of(data_type) {
            return Ok(None);
        }
        match data_type.metadata_fill_value(alloc, &fill_value) {
            Ok(metadata) => values.push(metadata.into_value())?,
            Err(_) => return Err(AllocError),
        }
    }
    Ok(Some(values))
}

/// The cells of the data, if it is of the type's form.
fn cells_of(
    alloc: Global,
    data_type: &DataType,
    data: &ArrayBytes<'_>,
) -> Result<Option<Vec<Cell>>, AllocError> {
    match (data_type, data) {
        (DataType::Optional(inner), ArrayBytes::Optional(held)) => {
            match cells_of(alloc, inner, held.data())? {
                Some(cells) => with_mask(cells, held.mask()),
                None => Ok(None),
            }
        }
        (_, ArrayBytes::Fixed(bytes)) => match data_type.element_size() {
            Some(size) => pieces(alloc, size, bytes.as_slice()),
            None => Ok(None),
        },
        (_, ArrayBytes::Variable(strings)) if data_type.is_variable() => {
            Ok(Some(string_cells(alloc, strings)?))
        }
        _ => Ok(None),
    }
}

/// The inner cells as cells of an optional type.
fn with_mask(mut cells: Vec<Cell>, mask: &[u8]) -> Result<Option<Vec<Cell>>, AllocError> {
    if cells.len() != mask.len() {
        return Ok(None);
    }
    for (cell, flag) in cells.iter_mut().zip(mask) {
        if *flag == 0 {
            cell.clear();
        }
        cell.push(*flag)?;
    }
    Ok(Some(cells))
}

/// Pieces of this size, if the bytes are so many whole ones.
fn pieces(alloc: Global, size: usize, bytes: &[u8]) -> Result<Option<Vec<Cell>>, AllocError> {
    if size == 0 || bytes.len() % size != 0 {
        return Ok(None);
    }
    let mut cells = Vec::new(alloc);
    for piece in bytes.chunks(size) {
        cells.push(piece.to_vec(alloc)?)?;
    }
    Ok(Some(cells))
}

/// The byte strings.
fn string_cells(
    alloc: Global,
    strings: &ArrayBytesVariableLength<'_>,
) -> Result<Vec<Cell>, AllocError> {
    let mut cells = Vec::new(alloc);
    for index in 0..strings.len() {
        cells.push(strings.get(index).to_vec(alloc)?)?;
    }
    Ok(cells)
}
