//! The V3 metadata that says the parts of an array.
ghost use Rattle.std.specs.Prelude.{◌≡◌, true, Ok, IsSome, IfOk};
ghost use Rattle.zarrs_metadata_v3.specs.View.{document_view};
ghost use Rattle.zarrs_keys.specs.declared.encodings.ChunkKeyEncoding.TheVariants.{Default};
ghost use Rattle.zarrs_metadata_parts.specs.declared.separators.ChunkKeySeparator.TheVariants.{Slash};
ghost use Rattle.zarrs_chunk_grid.specs.declared.grid.ChunkGrid.TheVariants.{Regular};
ghost use Rattle.zarrs_data_type.specs.Cell.{fill_cell};
ghost use Rattle.zarrs_data_type.specs.Kind.{kind};
ghost use Rattle.zarrs_creation.specs.Meanings.{meaning_with, creation_v3};
ghost use Rattle.zarrs_script.specs.Parts.{document_for, is_whole_number};

use std::alloc::{AllocError, Global};
use zarrs_chunk_grid::{ChunkGridTraits, RegularChunkGrid};
use zarrs_codec::CodecChain;
use zarrs_creation::fill_metadata;
use zarrs_data_type::{DataType, FillValue};
use zarrs_data_type_kinds::laws::written_fill_value_is_read;
use zarrs_metadata::ArrayMetadataV3;

/// Returns the V3 metadata of an array of bools or integers that is cut by this grid, with `default` keys separated by
/// `/` (Zarr V3 core specification, array metadata). It says these parts.
///
/// # Errors
/// `AllocError`: out of memory.
pub fn metadata_of_parts(
    alloc: Global,
    grid: &RegularChunkGrid,
    chain: &CodecChain,
    data_type: &DataType,
    fill_value: &FillValue,
) -> Result<ArrayMetadataV3, AllocError>
    requires number { is_whole_number (kind data_type.now) ≡ true }
    requires filled { IsSome (fill_cell (kind data_type.now) fill_value.now) }
    ensures document { IfOk result (λ m. document_view m ≡ document_for (meaning_with
        (Regular grid.now) (Default Slash) chain.now data_type.now fill_value.now)) }
    ensures says { IfOk result (λ m. creation_v3 (document_view m) ≡ Ok (meaning_with
        (Regular grid.now) (Default Slash) chain.now data_type.now fill_value.now)) }
{
    written_fill_value_is_read(data_type, fill_value);
    let shape = Vec::from_slice(alloc, grid.array_shape())?;
    let chunk_grid = grid.metadata(alloc)?;
    let data_type_metadata = data_type.metadata(alloc)?;
    let fill_value_metadata = fill_metadata(alloc, data_type, fill_value)?;
    let codecs = chain.create_metadatas(alloc)?;
    let metadata = ArrayMetadataV3::new(
        alloc,
        shape,
        chunk_grid,
        data_type_metadata,
        fill_value_metadata,
        codecs,
    )?;
    Ok(metadata)
}
