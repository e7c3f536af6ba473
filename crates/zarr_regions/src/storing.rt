//! Cells that are read and stored, band by band.
ghost use Rattle.std.specs.Prelude.{◌≡◌, IfOk, OnOk};
ghost use Rattle.zarrs_subset.specs.Regions.{box_of, positions};
ghost use Rattle.zarrs.specs.Arrays.{layout_of_array};
ghost use Rattle.zarr_regions.specs.Cells.{StoresBytes, StoresLines};
ghost use Rattle.zarr_regions.specs.Texts.{PutsRegion, ReadsHeaderOf, StoresNpy, StoresRegion, StoresText};

use crate::layout::{Layout, line_width, no_bytes, no_text};
use std::alloc::Global;
use std::io::{BufRead, Read};
use zarr_arrays::{Bands, Opened, Refusal};
use zarr_cells::{Rows, form_of, npy, raw_size, read_cells, read_raw, read_texts};
use zarrs::{ArrayBytes, ArraySubset};
use zarrs_data_type::VariableLengthBuilder;

/// Stores the cells of a band that the input has as lines, from the column on. Returns the column after them.
fn store_band_lines<R: BufRead>(
    alloc: Global,
    input: &mut R,
    opened: &mut Opened<'_>,
    rows: &Rows,
    column: u64,
    band: &ArraySubset,
) -> Result<u64, Refusal>
    ensures stored { IfOk result (λ after. StoresLines (layout_of_array opened.old.array)
        rows.now.form rows.now.size rows.now.width column after (positions (box_of band.now))
        (R.remaining input.old) (R.remaining input.new) opened.old.store opened.new.store) }
    ensures array { opened.new.array ≡ opened.old.array }
{
    let mut bytes = Vec::new(alloc);
    let count = band.num_elements()?;
    let after = read_cells(alloc, input, rows, column, count, &mut bytes)?;
    opened.store_cells(alloc, band, ArrayBytes::new_flen(bytes))?;
    Ok(after)
}

/// Stores the cells of the region that the input has as lines, in row-major order and band by band.
fn store_lines<R: BufRead>(
    alloc: Global,
    input: &mut R,
    opened: &mut Opened<'_>,
    rows: &Rows,
    region: ArraySubset,
) -> Result<u64, Refusal>
    ensures { IfOk result (λ after. StoresLines (layout_of_array opened.old.array)
        rows.now.form rows.now.size rows.now.width 0 after (positions (box_of region))
        (R.remaining input.old) (R.remaining input.new) opened.old.store opened.new.store) }
{
    let mut column = 0;
    let mut bands = Bands::of(alloc, region)?;
    while let Some(band) = bands.next(alloc, &opened.array)? {
        column = store_band_lines(alloc, input, opened, rows, column, &band)?;
    }
    Ok(column)
}

/// Stores the texts of a band that the input has in lines of `width`, from the column on. Returns the column after them.
fn store_band_texts<R: BufRead>(
    alloc: Global,
    input: &mut R,
    opened: &mut Opened<'_>,
    width: u64,
    column: u64,
    band: &ArraySubset,
) -> Result<u64, Refusal> {
    let mut texts = VariableLengthBuilder::new(alloc)?;
    let count = band.num_elements()?;
    let after = read_texts(alloc, input, column, width, count, &mut texts)?;
    opened.store_cells(alloc, band, ArrayBytes::Variable(texts.finish()))?;
    Ok(after)
}

/// Stores the texts of the region that the input has in lines of `width`, in row-major order and band by band.
fn store_text_lines<R: BufRead>(
    alloc: Global,
    input: &mut R,
    opened: &mut Opened<'_>,
    width: u64,
    region: ArraySubset,
) -> Result<(), Refusal> {
    if !opened.array.data_type().is_variable() {
        return Err(no_text(alloc));
    }
    let mut column = 0;
    let mut bands = Bands::of(alloc, region)?;
    while let Some(band) = bands.next(alloc, &opened.array)? {
        column = store_band_texts(alloc, input, opened, width, column, &band)?;
    }
    Ok(())
}

/// Stores the cells of the region that the input has as lines.
fn store_text<R: BufRead>(
    alloc: Global,
    input: &mut R,
    opened: &mut Opened<'_>,
    region: ArraySubset,
) -> Result<(), Refusal>
    ensures { OnOk result (StoresText (layout_of_array opened.old.array) opened.old.lens.floats
        (box_of region) (R.remaining input.old) (R.remaining input.new)
        opened.old.store opened.new.store) }
{
    let width = line_width(&region);
    match opened.rows(width) {
        Some(rows) => {
            let _column = store_lines(alloc, input, opened, &rows, region)?;
            Ok(())
        }
        None => {
            store_text_lines(alloc, input, opened, width, region)?;
            Ok(())
        }
    }
}

/// Stores the cells of a band whose bytes the input has.
fn store_band_bytes<R: Read>(
    alloc: Global,
    input: &mut R,
    opened: &mut Opened<'_>,
    band: &ArraySubset,
) -> Result<(), Refusal>
    ensures stored { OnOk result (StoresBytes (layout_of_array opened.old.array)
        (positions (box_of band.now)) (R.remaining input.old) (R.remaining input.new)
        opened.old.store opened.new.store) }
    ensures array { opened.new.array ≡ opened.old.array }
{
    let size = raw_size(alloc, opened.array.data_type(), band)?;
    let cells = read_raw(alloc, input, size as usize)?;
    opened.store_cells(alloc, band, cells)?;
    Ok(())
}

/// Stores the cells of the region whose bytes the input has, in row-major order and band by band.
fn store_bytes<R: Read>(
    alloc: Global,
    input: &mut R,
    opened: &mut Opened<'_>,
    region: ArraySubset,
) -> Result<(), Refusal>
    ensures { OnOk result (StoresBytes (layout_of_array opened.old.array)
        (positions (box_of region)) (R.remaining input.old) (R.remaining input.new)
        opened.old.store opened.new.store) }
{
    let mut bands = Bands::of(alloc, region)?;
    while let Some(band) = bands.next(alloc, &opened.array)? {
        store_band_bytes(alloc, input, opened, &band)?;
    }
    Ok(())
}

/// Reads numpy's header, which has to say the type of the cells and the shape of the region.
fn read_header<R: Read>(
    alloc: Global,
    input: &mut R,
    opened: &Opened<'_>,
    region: &ArraySubset,
) -> Result<(), Refusal>
    ensures { OnOk result (ReadsHeaderOf (layout_of_array opened.now.array) opened.now.lens.floats
        (box_of region.now) (R.remaining input.old) (R.remaining input.new)) }
{
    let data_type = opened.array.data_type();
    let Some(size) = data_type.element_size() else {
        return Err(no_bytes(alloc));
    };
    let form = form_of(data_type, opened.lens.floats);
    npy::read_header(alloc, input, form, size, region.shape())?;
    Ok(())
}

/// Stores the cells of the region whose bytes the input has after numpy's header.
fn store_npy<R: Read>(
    alloc: Global,
    input: &mut R,
    opened: &mut Opened<'_>,
    region: ArraySubset,
) -> Result<(), Refusal>
    ensures { OnOk result (StoresNpy (layout_of_array opened.old.array) opened.old.lens.floats
        (box_of region) (R.remaining input.old) (R.remaining input.new)
        opened.old.store opened.new.store) }
{
    read_header(alloc, input, opened, &region)?;
    store_bytes(alloc, input, opened, region)?;
    Ok(())
}

/// Returns whether nothing but blanks is left.
fn is_blank<R: BufRead>(alloc: Global, input: &mut R) -> Result<bool, Refusal> {
    let mut line = Vec::new(alloc);
    for _ in 0..u64::MAX {
        line.clear();
        if input.read_until(b'\n', &mut line)? == 0 {
            break;
        }
        if !line.trim_ascii().is_empty() {
            return Ok(false);
        }
    }
    Ok(true)
}

/// Returns whether nothing is left.
fn is_at_end<R: Read>(input: &mut R) -> Result<bool, Refusal> {
    let mut byte = [0u8; 1];
    Ok(input.read(&mut byte)? == 0)
}

/// Refuses input that is left over, except blanks after lines.
fn need_end<R: BufRead>(alloc: Global, input: &mut R, layout: Layout) -> Result<(), Refusal> {
    let is_end = match layout {
        Layout::Lines => is_blank(alloc, input)?,
        _ => is_at_end(input)?,
    };
    if is_end {
        return Ok(());
    }
    Err(Refusal::said(
        alloc,
        "there is more input than the region has cells; the region is stored",
    ))
}

/// Stores the cells of the region that the input has, in row-major order.
fn store_region<R: BufRead>(
    alloc: Global,
    input: &mut R,
    opened: &mut Opened<'_>,
    region: ArraySubset,
    layout: Layout,
) -> Result<(), Refusal>
    ensures { OnOk result (StoresRegion (layout_of_array opened.old.array) opened.old.lens.floats
        (box_of region) layout (R.remaining input.old) (R.remaining input.new)
        opened.old.store opened.new.store) }
{
    match layout {
        Layout::Lines => store_text(alloc, input, opened, region),
        Layout::Raw => store_bytes(alloc, input, opened, region),
        Layout::Npy => store_npy(alloc, input, opened, region),
    }
}

/// Stores the cells of the region that the input has, in row-major order, and asks that nothing is left.
///
/// # Errors
/// Those of `Opened::store_cells`; E5 for what is no cell; fewer or more cells than the region has; what the reader says.
/// The cells of the region's first rows may be stored then.
pub fn store_cells<R: BufRead>(
    alloc: Global,
    input: &mut R,
    opened: &mut Opened<'_>,
    region: ArraySubset,
    layout: Layout,
) -> Result<(), Refusal>
    ensures { OnOk result (PutsRegion (layout_of_array opened.old.array) opened.old.lens.floats
        (box_of region) layout (R.remaining input.old) opened.old.store opened.new.store) }
{
    store_region(alloc, input, opened, region, layout)?;
    need_end(alloc, input, layout)?;
    Ok(())
}
