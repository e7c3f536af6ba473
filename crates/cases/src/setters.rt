//! Setters of an array, which ask the store for nothing.
use crate::building::{grid_of, object};
use cases_answers::{Answer, refused, word};
use cases_lines::Why;
use cases_lines::call::{CallLine, Name};
use std::alloc::{AllocError, Global};
use zarrs::{Array, ArrayCreateError, DimensionName};

/// Calls the setter.
pub(crate) fn answer_of<'f>(
    alloc: Global,
    array: &mut Array<()>,
    call: &CallLine<'f>,
) -> Result<Answer, Why<'f>> {
    match call.name {
        Name::AttributesMut => set_attributes(alloc, array, call.word),
        Name::SetDimensionNames => Ok(set_names(alloc, array, call.word)?),
        Name::SetMetadataOptions => {
            array.set_metadata_options(call.options.of_metadata());
            Ok(word(alloc, "ok")?)
        }
        Name::SetShape => Ok(set_shape(alloc, array, &call.list)?),
        Name::SetShapeAndChunkGrid => set_shape_and_grid(alloc, array, &call.list, call.word),
        _ => Err(Why::Call(call.written)),
    }
}

/// The answer of a setter.
fn set(
    alloc: Global,
    outcome: &Result<&mut Array<()>, ArrayCreateError>,
) -> Result<Answer, AllocError> {
    match outcome {
        Ok(_) => word(alloc, "ok"),
        Err(error) => refused(alloc, error),
    }
}

fn set_attributes<'f>(
    alloc: Global,
    array: &mut Array<()>,
    attributes: &'f str,
) -> Result<Answer, Why<'f>> {
    *array.attributes_mut() = object(alloc, attributes)?;
    Ok(word(alloc, "ok")?)
}

fn set_names(alloc: Global, array: &mut Array<()>, names: &str) -> Result<Answer, AllocError> {
    let outcome = array.set_dimension_names(alloc, names_in(alloc, names)?);
    set(alloc, &outcome)
}

fn set_shape(alloc: Global, array: &mut Array<()>, shape: &[u64]) -> Result<Answer, AllocError> {
    let outcome = array.set_shape(alloc, shape.to_vec(alloc)?);
    set(alloc, &outcome)
}

fn set_shape_and_grid<'f>(
    alloc: Global,
    array: &mut Array<()>,
    shape: &[u64],
    grid: &'f str,
) -> Result<Answer, Why<'f>> {
    let grid = grid_of(alloc, grid)?;
    let outcome = array.set_shape_and_chunk_grid(alloc, shape.to_vec(alloc)?, grid);
    Ok(set(alloc, &outcome)?)
}

/// Names joined by `,`, where `null` is no name; `-` for a list without a name; or `none` for no list.
pub(crate) fn names_in(
    alloc: Global,
    names: &str,
) -> Result<Option<Vec<DimensionName>>, AllocError> {
    let mut found = Vec::new(alloc);
    match names {
        "none" => return Ok(None),
        "-" => return Ok(Some(found)),
        _ => {}
    }
    for name in names.split(',') {
        if name == "null" {
            found.push(None)?;
        } else {
            found.push(Some(String::from_str(alloc, name)?))?;
        }
    }
    Ok(Some(found))
}
