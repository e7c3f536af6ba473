//! Copies of the lists of a document.
ghost use Rattle.std.specs.Prelude.{◌≡◌, map, option_map, IfOk};
ghost use Rattle.zarrs_metadata_parts.specs.Extension.{extension_view};
ghost use Rattle.zarrs_metadata_v3.specs.View.{name_view};

use crate::document::DimensionName;
use std::alloc::{AllocError, Global};
use zarrs_metadata_parts::MetadataV3;

pub(crate) fn copied_extensions(extensions: &Vec<MetadataV3>) -> Result<Vec<MetadataV3>, AllocError>
    ensures { IfOk result (λ copies. map extension_view copies.items
        ≡ map extension_view extensions.now.items) }
{
    extensions.clone()
}

fn copied_name(name: &DimensionName) -> Result<DimensionName, AllocError>
    ensures { IfOk result (λ copy. name_view copy ≡ name_view name.now) }
{
    match name {
        Some(name) => Ok(Some(name.clone()?)),
        None => Ok(None),
    }
}

fn copied_names(alloc: Global, names: &Vec<DimensionName>) -> Result<Vec<DimensionName>, AllocError>
    ensures { IfOk result (λ copies. map name_view copies.items ≡ map name_view names.now.items) }
{
    let mut copies = Vec::with_capacity(alloc, names.len())?;
    for name in names {
        copies.push(copied_name(name)?)?;
    }
    Ok(copies)
}

/// Returns a copy of the names, if there are names.
///
/// # Errors
/// `AllocError`: out of memory.
pub fn copied_dimension_names(
    alloc: Global,
    names: &Option<Vec<DimensionName>>,
) -> Result<Option<Vec<DimensionName>>, AllocError>
    ensures { IfOk result (λ copies. option_map (λ n. map name_view n.items) copies
        ≡ option_map (λ n. map name_view n.items) names.now) }
{
    match names {
        Some(names) => Ok(Some(copied_names(alloc, names)?)),
        None => Ok(None),
    }
}
