//! The metadata of an array as options show it.
ghost use Rattle.std.specs.Prelude.{◌≡◌, map, option_map, unwrap_or, Ok, IfOk, IfErr, OnOk};
ghost use Rattle.serde_json.specs.View.{view, members_view};
ghost use Rattle.zarrs_metadata_parts.specs.Extension.{extension_view};
ghost use Rattle.zarrs_metadata_v3.specs.View.{document_view};
ghost use Rattle.zarrs_metadata.specs.Refusals.{RefusesConversion};
ghost use Rattle.zarrs_metadata_v2.specs.View.{document_v2_view};
ghost use Rattle.zarrs_metadata.specs.Versions.{metadata_view};
ghost use Rattle.zarrs_options.specs.Options.{options_view};
ghost use Rattle.zarrs_creation.specs.Shown.{made_by, shown_attributes, renamed, main_type_name, main_grid_name};
ghost use Rattle.zarrs_creation.specs.Shown.{main_encoding_name, main_codec_name};
ghost use Rattle.zarrs_creation.specs.Shown.{with_main_names, shown_v3, shown_v2, shown};

use serde_json::{Map, Value};
use std::alloc::{AllocError, Global};
use zarrs_metadata::{
    ArrayMetadata, ArrayMetadataV2, ArrayMetadataV2ToV3Error, ArrayMetadataV3, MetadataV3,
    array_metadata_v2_to_v3,
};
use zarrs_options::{ArrayMetadataOptions, MetadataConvertVersion};

/// Returns which library made the array, with the version of zarrs whose behaviour it has.
fn made_by(alloc: Global) -> Result<Value, AllocError>
    ensures { IfOk result (λ v. view v ≡ made_by) }
{
    let version = Value::try_from_str(alloc, "0.23.13")?;
    let repository = Value::try_from_str(alloc, "https://github.com/zarrs/zarrs")?;
    let description = Value::try_from_str(alloc, "This array was created with zarrs")?;
    let mut members = Map::new(alloc);
    serde_json::put(&mut members, alloc, "version", version)?;
    serde_json::put(&mut members, alloc, "repository", repository)?;
    serde_json::put(&mut members, alloc, "description", description)?;
    Ok(Value::Object(members))
}

/// Puts which library made the array at `_zarrs`, if that is included, over an attribute of that name.
fn show_attributes(
    alloc: Global,
    attributes: &mut Map<String, Value>,
    options: &ArrayMetadataOptions,
) -> Result<(), AllocError>
    ensures { OnOk result (members_view attributes.new.entries ≡ shown_attributes
        (options_view options.now).include_zarrs_metadata (members_view attributes.old.entries)) }
{
    if options.include_zarrs_metadata() {
        let made_by = made_by(alloc)?;
        serde_json::put(attributes, alloc, "_zarrs", made_by)?;
    }
    Ok(())
}

fn main_type_name(name: &str) -> Option<&'static str>
    ensures { unwrap_or (option_map (λ main. main.now) result) name.now ≡ main_type_name name.now }
{
    match name {
        "variable_length_bytes" => Some("bytes"),
        "optional" => Some("zarrs.optional"),
        _ => None,
    }
}

fn main_grid_name(name: &str) -> Option<&'static str>
    ensures { unwrap_or (option_map (λ main. main.now) result) name.now ≡ main_grid_name name.now }
{
    match name {
        "zarrs.regular_bounded" => Some("regular_bounded"),
        _ => None,
    }
}

fn main_encoding_name(name: &str) -> Option<&'static str>
    ensures { unwrap_or (option_map (λ main. main.now) result) name.now
        ≡ main_encoding_name name.now }
{
    match name {
        "zarrs.default_suffix" => Some("default_suffix"),
        _ => None,
    }
}

fn main_codec_name(name: &str) -> Option<&'static str>
    ensures { unwrap_or (option_map (λ main. main.now) result) name.now ≡ main_codec_name name.now }
{
    match name {
        "zarrs.reshape" => Some("reshape"),
        "zarrs.squeeze" => Some("squeeze"),
        "vlen" => Some("zarrs.vlen"),
        "optional" => Some("zarrs.optional"),
        _ => None,
    }
}

/// Gives the extension its main name, if its name is an alias.
fn rename(
    alloc: Global,
    metadata: &mut MetadataV3,
    main_name: Option<&'static str>,
) -> Result<(), AllocError>
    ensures { OnOk result (extension_view metadata.new ≡ record (extension_view metadata.old) {
      name = unwrap_or (option_map (λ main. main.now) main_name.entry)
          (extension_view metadata.old).name;
    }) }
{
    if let Some(main_name) = main_name {
        metadata.set_name(String::from_str(alloc, main_name)?);
    }
    Ok(())
}

fn renamed_codec(alloc: Global, codec: &MetadataV3) -> Result<MetadataV3, AllocError>
    ensures { IfOk result (λ made. extension_view made
        ≡ renamed main_codec_name (extension_view codec.now)) }
{
    let mut made = codec.try_clone()?;
    rename(alloc, &mut made, main_codec_name(codec.name()))?;
    Ok(made)
}

fn renamed_codecs(alloc: Global, codecs: &Vec<MetadataV3>) -> Result<Vec<MetadataV3>, AllocError>
    ensures { IfOk result (λ made. map extension_view made.items
        ≡ map (λ codec. renamed main_codec_name (extension_view codec)) codecs.now.items) }
{
    let mut made = Vec::with_capacity(alloc, codecs.len())?;
    for codec in codecs {
        made.push(renamed_codec(alloc, codec)?)?;
    }
    Ok(made)
}

/// Gives each extension of the document its main name. Names inside configurations stay.
fn rename_extensions(alloc: Global, metadata: &mut ArrayMetadataV3) -> Result<(), AllocError>
    ensures { OnOk result (document_view metadata.new
        ≡ with_main_names (document_view metadata.old)) }
{
    let type_name = main_type_name(metadata.data_type.name());
    rename(alloc, &mut metadata.data_type, type_name)?;
    let grid_name = main_grid_name(metadata.chunk_grid.name());
    rename(alloc, &mut metadata.chunk_grid, grid_name)?;
    let encoding_name = main_encoding_name(metadata.chunk_key_encoding.name());
    rename(alloc, &mut metadata.chunk_key_encoding, encoding_name)?;
    metadata.codecs = renamed_codecs(alloc, &metadata.codecs)?;
    Ok(())
}

fn shown_v3(
    alloc: Global,
    mut metadata: ArrayMetadataV3,
    options: &ArrayMetadataOptions,
) -> Result<ArrayMetadataV3, AllocError>
    ensures { IfOk result (λ m. document_view m
        ≡ shown_v3 (options_view options.now) (document_view metadata)) }
{
    show_attributes(alloc, &mut metadata.attributes, options)?;
    if options.convert_aliased_extension_names() {
        rename_extensions(alloc, &mut metadata)?;
    }
    Ok(metadata)
}

fn shown_v2(
    alloc: Global,
    mut metadata: ArrayMetadataV2,
    options: &ArrayMetadataOptions,
) -> Result<ArrayMetadataV2, AllocError>
    ensures { IfOk result (λ m. document_v2_view m
        ≡ shown_v2 (options_view options.now) (document_v2_view metadata)) }
{
    show_attributes(alloc, &mut metadata.attributes, options)?;
    Ok(metadata)
}

/// Returns the metadata as these options show it: in its own version or V3, with or without the attribute `_zarrs`,
/// and with the main names of extensions or those that it has.
///
/// # Errors
/// As `array_metadata_v2_to_v3`, for V2 metadata that is to be V3.
pub fn shown_metadata(
    alloc: Global,
    metadata: &ArrayMetadata,
    options: &ArrayMetadataOptions,
) -> Result<ArrayMetadata, ArrayMetadataV2ToV3Error>
    ensures shown { IfOk result (λ m. shown (options_view options.now) (metadata_view metadata.now)
        ≡ Ok (metadata_view m)) }
    ensures refused { IfErr result (RefusesConversion
        (shown (options_view options.now) (metadata_view metadata.now))) }
{
    let document = match metadata {
        ArrayMetadata::V3(document) => document.try_clone(alloc)?,
        ArrayMetadata::V2(document) => match options.metadata_convert_version() {
            MetadataConvertVersion::Default => {
                let document = shown_v2(alloc, document.try_clone(alloc)?, options)?;
                return Ok(ArrayMetadata::V2(document));
            }
            MetadataConvertVersion::V3 => array_metadata_v2_to_v3(alloc, document)?,
        },
    };
    let document = shown_v3(alloc, document, options)?;
    Ok(ArrayMetadata::V3(document))
}
