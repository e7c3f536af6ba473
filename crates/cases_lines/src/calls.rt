//! Calls, by their names and the words behind them.
use crate::call::{CallLine, Name, Place};
use crate::options::Options;
use crate::why::Why;
use crate::words::{bytes, number, numbers, region};
use std::alloc::Global;

/// The forms of calls: a name, and what the words behind it are.
const FORMS: [(&str, Name); 53] = [
    ("array PATH WORD", Name::Array),
    ("attributes_mut WORD", Name::AttributesMut),
    ("build PATH LIST WORD TYPE FILL", Name::Build),
    (
        "build_metadata PATH LIST WORD TYPE FILL",
        Name::BuildMetadata,
    ),
    ("builder PATH", Name::Builder),
    ("chunk_grid_shape", Name::ChunkGridShape),
    ("chunk_key LIST", Name::ChunkKey),
    ("chunk_origin LIST", Name::ChunkOrigin),
    ("chunk_shape LIST", Name::ChunkShape),
    ("chunk_subset LIST", Name::ChunkSubset),
    ("chunk_subset_bounded LIST", Name::ChunkSubsetBounded),
    ("chunks_equal BOX", Name::ChunksEqual),
    ("chunks_in_array_subset BOX", Name::ChunksInArraySubset),
    ("chunks_subset BOX", Name::ChunksSubset),
    ("chunks_subset_bounded BOX", Name::ChunksSubsetBounded),
    ("compact_chunk LIST", Name::CompactChunk),
    ("convert WORD", Name::Convert),
    ("erase_chunk LIST", Name::EraseChunk),
    ("erase_chunks BOX", Name::EraseChunks),
    ("erase_metadata", Name::EraseMetadata),
    ("exists LIST", Name::Exists),
    ("metadata", Name::Metadata),
    ("metadata_opt", Name::MetadataOpt),
    ("open PATH", Name::Open),
    ("partial_decode LIST BOX", Name::PartialDecode),
    (
        "partial_decode_into LIST BOX PARENT INSIDE SIZE HELD DEPTH MASKS",
        Name::PartialDecodeInto,
    ),
    ("partial_encode LIST BOX WORD", Name::PartialEncode),
    ("partial_erase LIST", Name::PartialErase),
    ("resize LIST", Name::Resize),
    ("retrieve_array_subset BOX", Name::RetrieveArraySubset),
    (
        "retrieve_array_subset_into BOX PARENT INSIDE SIZE HELD DEPTH MASKS",
        Name::RetrieveArraySubsetInto,
    ),
    ("retrieve_chunk LIST", Name::RetrieveChunk),
    ("retrieve_chunk_if_exists LIST", Name::RetrieveChunkIfExists),
    ("retrieve_chunk_subset LIST BOX", Name::RetrieveChunkSubset),
    ("retrieve_chunks BOX", Name::RetrieveChunks),
    ("retrieve_encoded_chunk LIST", Name::RetrieveEncodedChunk),
    ("retrieve_encoded_chunks BOX", Name::RetrieveEncodedChunks),
    ("set_dimension_names WORD", Name::SetDimensionNames),
    ("set_metadata_options", Name::SetMetadataOptions),
    ("set_shape LIST", Name::SetShape),
    (
        "set_shape_and_chunk_grid LIST WORD",
        Name::SetShapeAndChunkGrid,
    ),
    ("shape", Name::Shape),
    ("store_array_subset BOX WORD", Name::StoreArraySubset),
    ("store_chunk LIST WORD", Name::StoreChunk),
    ("store_chunk_subset LIST BOX WORD", Name::StoreChunkSubset),
    ("store_chunks BOX WORD", Name::StoreChunks),
    ("store_encoded_chunk LIST BYTES", Name::StoreEncodedChunk),
    ("store_metadata", Name::StoreMetadata),
    ("store_metadata_opt", Name::StoreMetadataOpt),
    ("subset_all", Name::SubsetAll),
    ("supports_partial_encode LIST", Name::SupportsPartialEncode),
    ("to_v3", Name::ToV3),
    ("upgrade_metadata", Name::UpgradeMetadata),
];

/// The form of the call that begins with this word, if there is one.
pub(crate) fn form_of(first: &str) -> Option<(&'static str, Name)> {
    for (form, name) in FORMS {
        if form.split(' ').next() == Some(first) {
            return Some((form, name));
        }
    }
    None
}

/// Whether the call has as many words as the form. The masks of a place may be left out.
fn has_form(written: &str, form: &str) -> bool {
    let count = written.split(' ').count();
    match form.strip_suffix(" DEPTH MASKS") {
        Some(short) if short.split(' ').count() == count => true,
        _ => form.split(' ').count() == count,
    }
}

/// The word that stands where the form has this one, or `absent`.
fn word_at<'a>(written: &'a str, form: &str, place: &str, absent: &'a str) -> &'a str {
    for (other, word) in form.split(' ').zip(written.split(' ')) {
        if other == place {
            return word;
        }
    }
    absent
}

/// A call of this form.
pub(crate) fn call_of<'a>(
    alloc: Global,
    options: Options<'a>,
    written: &'a str,
    form: &str,
    name: Name,
) -> Result<CallLine<'a>, Why<'a>> {
    if !has_form(written, form) {
        return Err(Why::Call(first_word(written)));
    }
    let place = place_of(alloc, written, form)?;
    let list = numbers(alloc, word_at(written, form, "LIST", "-"))?;
    let region = region(alloc, word_at(written, form, "BOX", "-"))?;
    let bytes = bytes(alloc, word_at(written, form, "BYTES", "-"))?;
    Ok(CallLine {
        name,
        options,
        written,
        path: word_at(written, form, "PATH", ""),
        list,
        region,
        word: word_at(written, form, "WORD", ""),
        data_type: word_at(written, form, "TYPE", ""),
        fill_value: word_at(written, form, "FILL", ""),
        bytes,
        place,
    })
}

fn place_of<'a>(alloc: Global, written: &'a str, form: &str) -> Result<Place, Why<'a>> {
    let cell_size = number(word_at(written, form, "SIZE", "0"))? as usize;
    let depth = number(word_at(written, form, "DEPTH", "0"))? as usize;
    let parent = numbers(alloc, word_at(written, form, "PARENT", "-"))?;
    let region = region(alloc, word_at(written, form, "INSIDE", "-"))?;
    let held = bytes(alloc, word_at(written, form, "HELD", "-"))?;
    let masks = bytes(alloc, word_at(written, form, "MASKS", "-"))?;
    Ok(Place {
        parent,
        region,
        cell_size,
        bytes: held,
        depth,
        masks,
    })
}

/// The first word.
pub(crate) fn first_word(written: &str) -> &str {
    match written.split_once(" ") {
        Some((first, _)) => first,
        None => written,
    }
}
