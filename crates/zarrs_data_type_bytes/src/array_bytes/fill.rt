//! Cells that are all the same.
ghost use Rattle.std.specs.Prelude.{◌≡◌, ◌↔◌, ◌==◌, ℕ, ◌*◌, ◌/◌, ◌%◌, ◌<◌, ◌^◌, ◌++◌, [], true};
ghost use Rattle.std.specs.Prelude.{Some, IfOk, IfSome, IsSome, IsTrue, length, replicate, take};
ghost use Rattle.std.specs.List.{list_all, repeat};
ghost use Rattle.std.specs.Str.{bytes_eq};
ghost use Rattle.zarrs_data_type_bytes.specs.ArrayData.{data_of, optional};
ghost use Rattle.zarrs_data_type_kinds.specs.Cell.{cell_eq, fill_cell, fill_of, held_size};
ghost use Rattle.zarrs_data_type_bytes.specs.Cells.{cells, fits, AreAllCells, AreAllStrings, IsFilled};
ghost use Rattle.zarrs_data_type_kinds.specs.Kind.{kind, cell_size};
ghost use Rattle.zarrs_subset.specs.Pieces.{pieces};

use super::ArrayBytes;
use crate::variable::{ArrayBytesVariableLength, VariableLengthBuilder};
use std::alloc::{AllocError, Global};
use std::borrow::CowSlice;
use zarrs_data_type_kinds::{DataType, FillValue, inner_fill};

/// A block of fill is this long at most, so that it stays in the nearest cache while it is copied.
const BLOCK_LEN: usize = 16384;

/// `piece`, repeated `count` times.
pub(super) fn repeated(alloc: Global, piece: &[u8], count: usize) -> Result<Vec<u8>, AllocError>
    requires { count * length piece.now < 2 ^ 64 }
    ensures { IfOk result (λ bytes. bytes.items ≡ repeat count piece.now) }
{
    if piece.is_empty() {
        return Ok(Vec::new(alloc));
    }
    if are_all(piece, piece[0]) {
        return repeated_byte(alloc, piece[0], count * piece.len());
    }
    repeated_piece(alloc, piece, count)
}

fn repeated_byte(alloc: Global, byte: u8, count: usize) -> Result<Vec<u8>, AllocError>
    ensures { IfOk result (λ bytes. bytes.items ≡ replicate count byte) }
{
    vec![in alloc; byte; count]
}

/// `piece`, repeated `count` times: each turn copies all that is there, or a block of it.
fn repeated_piece(alloc: Global, piece: &[u8], count: usize) -> Result<Vec<u8>, AllocError>
    requires some { 0 < length piece.now }
    requires size { count * length piece.now < 2 ^ 64 }
    ensures { IfOk result (λ bytes. bytes.items ≡ repeat count piece.now) }
{
    let mut bytes = Vec::with_capacity(alloc, count * piece.len())?;
    if count == 0 {
        return Ok(bytes);
    }
    bytes.extend_from_slice(piece)?;
    let block = (BLOCK_LEN / piece.len()).max(1);
    let mut pieces = 1;
    while pieces < count {
        let more = pieces.min(block).min(count - pieces);
        bytes.extend_from_within(..more * piece.len())?;
        pieces += more;
    }
    Ok(bytes)
}

/// `string`, repeated `count` times.
fn repeated_string(
    alloc: Global,
    string: &[u8],
    count: usize,
) -> Result<ArrayBytesVariableLength<'static>, AllocError>
    requires { count * length string.now < 2 ^ 64 }
    ensures { IfOk result (λ strings. strings ≡ replicate count string.now) }
{
    let mut builder = VariableLengthBuilder::with_capacity(alloc, count, count * string.len())?;
    for _done in 0..count {
        builder.push(string)?;
    }
    Ok(builder.finish())
}

/// Whether the bytes are this piece again and again, up to the last whole piece: the first piece is this one, and each
/// byte behind it is the byte one piece before.
fn is_repeated(bytes: &[u8], piece: &[u8]) -> bool
    requires { 0 < length piece.now }
    ensures { result ≡ list_all (λ p. bytes_eq p piece.now)
        (pieces (length piece.now) (length bytes.now / length piece.now) bytes.now) }
{
    let width = piece.len();
    let whole = bytes.len() / width * width;
    if whole == 0 {
        return true;
    }
    &bytes[..width] == piece && &bytes[width..whole] == &bytes[..whole - width]
}

/// Whether each byte is this one. It never stops early, so that the compiler tests many bytes at a time.
fn are_all(bytes: &[u8], byte: u8) -> bool
    ensures { result ≡ list_all (λ b. b == byte) bytes.now }
{
    let mut same = true;
    for each in bytes {
        same &= *each == byte;
    }
    same
}

/// Whether each byte string is this one.
fn are_all_strings(strings: &ArrayBytesVariableLength<'_>, string: &[u8]) -> bool
    ensures { IsTrue result ↔ AreAllStrings strings.now string.now }
{
    for index in 0..strings.len() {
        if strings.get(index) != string {
            return false;
        }
    }
    true
}

impl<'a> ArrayBytes<'a> {
    /// Data of `count` cells, each that of the fill value.
    ///
    /// # Errors
    /// `AllocError`: out of memory.
    pub fn new_fill_value(
        alloc: Global,
        data_type: &DataType,
        count: u64,
        fill_value: &FillValue,
    ) -> Result<ArrayBytes<'static>, AllocError>
        requires filled { IsSome (fill_cell (kind data_type.now) fill_value.now) }
        requires size { count * held_size (kind data_type.now) (fill_of
            (kind data_type.now) fill_value.now) < 2 ^ 64 }
        ensures { IfOk result (λ made. cells (kind data_type.now) (data_of made)
            ≡ Some (replicate count (fill_of (kind data_type.now) fill_value.now))) }
    {
        ArrayBytes::filled(alloc, data_type, count as usize, fill_value.as_bytes())
    }

    /// The same, level by level.
    fn filled(
        alloc: Global,
        data_type: &DataType,
        count: usize,
        fill: &[u8],
    ) -> Result<ArrayBytes<'static>, AllocError>
        requires filled { IsSome (fill_cell (kind data_type.now) fill.now) }
        requires size { count * held_size (kind data_type.now) (fill_of
            (kind data_type.now) fill.now) < 2 ^ 64 }
        ensures { IfOk result (λ made. IsFilled (kind data_type.now) (data_of made) count
            (fill_of (kind data_type.now) fill.now)) }
    {
        match data_type {
            DataType::Optional(inner) => match inner_fill(fill) {
                Some(front) => {
                    let made = ArrayBytes::filled(alloc, inner, count, front)?;
                    made.under_flags(alloc, 1, count)
                }
                None => {
                    let made = ArrayBytes::missing(alloc, inner, count)?;
                    made.under_flags(alloc, 0, count)
                }
            },
            DataType::String | DataType::Bytes => {
                Ok(ArrayBytes::Variable(repeated_string(alloc, fill, count)?))
            }
            _ => Ok(ArrayBytes::new_flen(repeated(alloc, fill, count)?)),
        }
    }

    /// Data of `count` cells, whatever they are.
    pub(super) fn missing(
        alloc: Global,
        data_type: &DataType,
        count: usize,
    ) -> Result<ArrayBytes<'static>, AllocError>
        requires { count * cell_size (kind data_type.now) < 2 ^ 64 }
        ensures { IfOk result (λ made. IsTrue (fits (kind data_type.now) (data_of made) count)) }
    {
        match data_type {
            DataType::Optional(inner) => {
                let made = ArrayBytes::missing(alloc, inner, count)?;
                made.under_flags(alloc, 0, count)
            }
            DataType::String | DataType::Bytes => {
                Ok(ArrayBytes::Variable(repeated_string(alloc, &[], count)?))
            }
            _ => {
                let size = data_type.element_size().unwrap();
                Ok(ArrayBytes::new_flen(repeated_byte(alloc, 0, count * size)?))
            }
        }
    }

    /// This data under a mask of `count` flags, each `flag`.
    fn under_flags(
        self,
        alloc: Global,
        flag: u8,
        count: usize,
    ) -> Result<ArrayBytes<'a>, AllocError>
        requires { flag < 2 }
        ensures { IfOk result (λ made. data_of made
            ≡ optional (replicate count flag) (data_of self.entry)) }
    {
        let flags = repeated_byte(alloc, flag, count)?;
        self.with_optional_mask(alloc, CowSlice::Owned(flags))
    }

    /// Whether each cell is that of the fill value. It ignores what lies under a none.
    pub fn is_fill_value(&self, data_type: &DataType, fill_value: &FillValue) -> bool
        requires has_cells { IsSome (cells (kind data_type.now) (data_of self.now)) }
        requires filled { IsSome (fill_cell (kind data_type.now) fill_value.now) }
        ensures { IfSome (cells (kind data_type.now) (data_of self.now))
            (λ cs. result ≡ list_all (λ c. cell_eq c (fill_of
            (kind data_type.now) fill_value.now)) cs) }
    {
        self.is_filled(data_type, fill_value.as_bytes())
    }

    /// The same, level by level: data whose cells are all some is all the fill value if its inner data is.
    fn is_filled(&self, data_type: &DataType, fill: &[u8]) -> bool
        requires fits { (n : ℕ) × IsTrue (fits (kind data_type.now) (data_of self.now) n) }
        requires filled { IsSome (fill_cell (kind data_type.now) fill.now) }
        ensures { (n : ℕ) → fits (kind data_type.now) (data_of self.now) n ≡ true
            → IsTrue result ↔ AreAllCells (kind data_type.now) (data_of self.now) n (fill_of
            (kind data_type.now) fill.now) }
    {
        match self {
            ArrayBytes::Fixed(bytes) => is_repeated(bytes.as_slice(), fill),
            ArrayBytes::Variable(strings) => are_all_strings(strings, fill),
            ArrayBytes::Optional(optional) => {
                let inner = data_type.optional_inner().unwrap();
                match inner_fill(fill) {
                    None => are_all(optional.mask.as_slice(), 0),
                    Some(front) => {
                        are_all(optional.mask.as_slice(), 1)
                            && optional.data.is_filled(inner, front)
                    }
                }
            }
        }
    }
}
