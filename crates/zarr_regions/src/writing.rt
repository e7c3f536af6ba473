//! Cells that are written, band by band.
ghost use Rattle.std.specs.Prelude.{◌≡◌, IfOk, OnOk};
ghost use Rattle.zarrs_data_type.specs.ArrayData.{data_of, fixed};
ghost use Rattle.zarrs_subset.specs.Regions.{box_of, positions};
ghost use Rattle.zarrs.specs.Arrays.{layout_of_array};
ghost use Rattle.zarrs_directory.specs.Directory.{directory_of};
ghost use Rattle.zarr_regions.specs.Cells.{WritesBytes, WritesLines};
ghost use Rattle.zarr_regions.specs.Texts.{WritesText, WritesHeader, WritesNpy, WritesRegion};

use crate::layout::{Layout, line_width, no_bytes, no_text};
use std::alloc::Global;
use std::io::Write;
use zarr_arrays::{Bands, Opened, Refusal};
use zarr_cells::{Rows, form_of, npy, write_cells as write_cells_as_text, write_raw, write_texts};
use zarrs::{ArrayBytes, ArraySubset};

/// Returns the bytes of cells of one size.
fn bytes_of<'c>(alloc: Global, cells: &'c ArrayBytes<'_>) -> Result<&'c [u8], Refusal>
    ensures { IfOk result (λ bytes. data_of cells.now ≡ fixed bytes.now) }
{
    match cells {
        ArrayBytes::Fixed(bytes) => Ok(bytes.as_slice()),
        _ => Err(no_text(alloc)),
    }
}

/// Writes the cells of a band as lines, from the column on. Returns the column after them.
fn write_band_lines<W: Write>(
    alloc: Global,
    out: &mut W,
    opened: &Opened<'_>,
    rows: &Rows,
    column: u64,
    band: &ArraySubset,
) -> Result<u64, Refusal>
    ensures { IfOk result (λ after. WritesLines (layout_of_array opened.now.array)
        (directory_of opened.now.store) rows.now.form rows.now.size rows.now.width column after
        (positions (box_of band.now)) (W.contents out.old) (W.contents out.new)) }
{
    let cells = opened.cells(alloc, band)?;
    let bytes = bytes_of(alloc, &cells)?;
    let after = write_cells_as_text(out, rows, column, bytes)?;
    Ok(after)
}

/// Writes the cells of the region as lines, in row-major order and band by band.
fn write_lines<W: Write>(
    alloc: Global,
    out: &mut W,
    opened: &Opened<'_>,
    rows: &Rows,
    region: ArraySubset,
) -> Result<u64, Refusal>
    ensures { IfOk result (λ after. WritesLines (layout_of_array opened.now.array)
        (directory_of opened.now.store) rows.now.form rows.now.size rows.now.width 0 after
        (positions (box_of region)) (W.contents out.old) (W.contents out.new)) }
{
    let mut column = 0;
    let mut bands = Bands::of(alloc, region)?;
    while let Some(band) = bands.next(alloc, &opened.array)? {
        column = write_band_lines(alloc, out, opened, rows, column, &band)?;
    }
    Ok(column)
}

/// Writes the texts of the region as lines of `width`, in row-major order and band by band.
fn write_text_lines<W: Write>(
    alloc: Global,
    out: &mut W,
    opened: &Opened<'_>,
    width: u64,
    region: ArraySubset,
) -> Result<(), Refusal> {
    let mut column = 0;
    let mut bands = Bands::of(alloc, region)?;
    while let Some(band) = bands.next(alloc, &opened.array)? {
        match opened.cells(alloc, &band)? {
            ArrayBytes::Variable(texts) => {
                column = write_texts(alloc, out, &texts, column, width)?;
            }
            _ => return Err(no_text(alloc)),
        }
    }
    Ok(())
}

/// Writes the cells of the region as lines.
fn write_text<W: Write>(
    alloc: Global,
    out: &mut W,
    opened: &Opened<'_>,
    region: ArraySubset,
) -> Result<(), Refusal>
    ensures { OnOk result (WritesText (layout_of_array opened.now.array)
        (directory_of opened.now.store) opened.now.lens.floats (box_of region)
        (W.contents out.old) (W.contents out.new)) }
{
    let width = line_width(&region);
    match opened.rows(width) {
        Some(rows) => {
            let _column = write_lines(alloc, out, opened, &rows, region)?;
            Ok(())
        }
        None => {
            write_text_lines(alloc, out, opened, width, region)?;
            Ok(())
        }
    }
}

/// Writes the bytes of the cells of a band.
fn write_band_bytes<W: Write>(
    alloc: Global,
    out: &mut W,
    opened: &Opened<'_>,
    band: &ArraySubset,
) -> Result<(), Refusal>
    ensures { OnOk result (WritesBytes (layout_of_array opened.now.array)
        (directory_of opened.now.store) (positions (box_of band.now))
        (W.contents out.old) (W.contents out.new)) }
{
    let cells = opened.cells(alloc, band)?;
    write_raw(alloc, out, &cells)?;
    Ok(())
}

/// Writes the bytes of the cells of the region, in row-major order and band by band.
fn write_bytes<W: Write>(
    alloc: Global,
    out: &mut W,
    opened: &Opened<'_>,
    region: ArraySubset,
) -> Result<(), Refusal>
    ensures { OnOk result (WritesBytes (layout_of_array opened.now.array)
        (directory_of opened.now.store) (positions (box_of region))
        (W.contents out.old) (W.contents out.new)) }
{
    let mut bands = Bands::of(alloc, region)?;
    while let Some(band) = bands.next(alloc, &opened.array)? {
        write_band_bytes(alloc, out, opened, &band)?;
    }
    Ok(())
}

/// Writes numpy's header for the cells of the region.
fn write_header<W: Write>(
    alloc: Global,
    out: &mut W,
    opened: &Opened<'_>,
    region: &ArraySubset,
) -> Result<(), Refusal>
    ensures { OnOk result (WritesHeader (layout_of_array opened.now.array) opened.now.lens.floats
        (box_of region.now) (W.contents out.old) (W.contents out.new)) }
{
    let data_type = opened.array.data_type();
    let Some(size) = data_type.element_size() else {
        return Err(no_bytes(alloc));
    };
    let form = form_of(data_type, opened.lens.floats);
    let header = npy::header(alloc, form, size, region.shape())?;
    out.write_all(&header)?;
    Ok(())
}

/// Writes numpy's header and then the bytes of the cells of the region.
fn write_npy<W: Write>(
    alloc: Global,
    out: &mut W,
    opened: &Opened<'_>,
    region: ArraySubset,
) -> Result<(), Refusal>
    ensures { OnOk result (WritesNpy (layout_of_array opened.now.array)
        (directory_of opened.now.store) opened.now.lens.floats (box_of region)
        (W.contents out.old) (W.contents out.new)) }
{
    write_header(alloc, out, opened, &region)?;
    write_bytes(alloc, out, opened, region)?;
    Ok(())
}

/// Writes the cells of the region in row-major order.
///
/// # Errors
/// Those of `Opened::cells`; cells that have no such form; what the writer says.
pub fn write_cells<W: Write>(
    alloc: Global,
    out: &mut W,
    opened: &Opened<'_>,
    region: ArraySubset,
    layout: Layout,
) -> Result<(), Refusal>
    ensures { OnOk result (WritesRegion (layout_of_array opened.now.array)
        (directory_of opened.now.store) opened.now.lens.floats (box_of region) layout
        (W.contents out.old) (W.contents out.new)) }
{
    match layout {
        Layout::Lines => write_text(alloc, out, opened, region),
        Layout::Raw => write_bytes(alloc, out, opened, region),
        Layout::Npy => write_npy(alloc, out, opened, region),
    }
}
