//! Cells of one size, as their bytes.
ghost use Rattle.std.specs.Prelude.{◌≡◌, ◌⊎◌, ◌≤◌, ◌*◌, ◌^◌, IfErr, IfOk, None, OnOk, Some};
ghost use Rattle.zarrs_data_type.specs.ArrayData.{data_of, fixed};
ghost use Rattle.zarrs_data_type.specs.Kind.{element_size, kind};
ghost use Rattle.zarrs_subset.specs.Regions.{box_of};
ghost use Rattle.zarr_cells.specs.Forms.{form_of};
ghost use Rattle.zarr_cells.specs.Raw.{HasRawSize, RefusesRawSize, ReadsRaw, WritesRaw};

use crate::error::CellsError;
use crate::form::{Form, Width};
use std::alloc::Global;
use std::io::{Read, Write};
use zarrs_data_type::{ArrayBytes, DataType};
use zarrs_subset::ArraySubset;

/// Returns what the cells of the type say, if they are numbers or bools.
pub fn form_of(data_type: &DataType, floats: Option<Width>) -> Option<Form>
    ensures { result ≡ form_of (kind data_type.now) floats }
{
    match data_type {
        DataType::Bool => Some(Form::Bool),
        DataType::Int8 | DataType::Int16 | DataType::Int32 | DataType::Int64 => Some(Form::Signed),
        DataType::UInt8 | DataType::UInt16 => Some(Form::Unsigned),
        DataType::UInt32 | DataType::UInt64 => match floats {
            Some(width) => Some(Form::Float(width)),
            None => Some(Form::Unsigned),
        },
        _ => None,
    }
}

/// Returns the bytes of cells of one size, one cell after another in row-major order, little endian.
///
/// # Errors
/// The cells have no such size.
fn raw_of<'c>(alloc: Global, cells: &'c ArrayBytes<'_>) -> Result<&'c [u8], CellsError>
    ensures { IfOk result (λ bytes. data_of cells.now ≡ fixed bytes.now) }
{
    match cells {
        ArrayBytes::Fixed(bytes) => Ok(bytes.as_slice()),
        _ => Err(no_raw_form(alloc)),
    }
}

/// Writes the bytes of cells of one size, one cell after another in row-major order, little endian.
///
/// # Errors
/// The cells have no such size; what the writer says.
pub fn write_raw<W: Write>(
    alloc: Global,
    out: &mut W,
    cells: &ArrayBytes<'_>,
) -> Result<(), CellsError>
    ensures { OnOk result
        (WritesRaw (data_of cells.now) (W.contents out.old) (W.contents out.new)) }
{
    let bytes = raw_of(alloc, cells)?;
    out.write_all(bytes)?;
    Ok(())
}

/// Reads cells of one size that have this many bytes.
///
/// # Errors
/// What the reader says; out of memory.
pub fn read_raw<R: Read>(
    alloc: Global,
    input: &mut R,
    size: usize,
) -> Result<ArrayBytes<'static>, CellsError>
    ensures { IfOk result
        (λ cells. ReadsRaw size (data_of cells) (R.remaining input.old) (R.remaining input.new)) }
{
    let mut bytes = vec![in alloc; 0u8; size]?;
    input.read_exact(&mut bytes)?;
    Ok(ArrayBytes::new_flen(bytes))
}

fn no_raw_form(alloc: Global) -> CellsError {
    CellsError::said(alloc, "cells of this data type have no bytes of one size")
}

/// Returns how many bytes the cells of the region have.
///
/// # Errors
/// The cells have no size of their own; E8 if there are too many.
pub fn raw_size(
    alloc: Global,
    data_type: &DataType,
    region: &ArraySubset,
) -> Result<u64, CellsError>
    ensures size { IfOk result (HasRawSize (kind data_type.now) (box_of region.now).shape) }
    ensures refused { IfErr result (RefusesRawSize (kind data_type.now) (box_of region.now).shape) }
{
    let Some(size) = data_type.element_size() else {
        return Err(no_raw_form(alloc));
    };
    let count = region.num_elements()?;
    match count.checked_mul(size as u64) {
        Some(bytes) => Ok(bytes),
        None => Err(CellsError::SizeOverflow),
    }
}
