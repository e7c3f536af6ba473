//! Calls that take an index for each dimension.
use crate::CaseArray;
use crate::encoded::store_encoded_chunk;
use cases_answers::{Answer, answered, word};
use cases_lines::Why;
use cases_lines::call::{CallLine, Name};
use std::alloc::Global;
use zarrs::{ArrayError, CodecOptions, StoreKey};

/// Makes a call of a chunk.
pub(crate) fn of_chunk<'a>(
    alloc: Global,
    array: &mut CaseArray<'_>,
    call: &CallLine<'a>,
) -> Result<Answer, Why<'a>> {
    let indices = &call.list;
    if indices.len() != array.dimensionality() {
        return Err(Why::Dimensions(call.written));
    }
    let options = call.options.of_codecs();
    match call.name {
        Name::ChunkKey => key_answered(alloc, &array.chunk_key(alloc, indices)),
        Name::CompactChunk => answered(alloc, &array.compact_chunk(alloc, indices, &options)),
        Name::EraseChunk => answered(alloc, &array.erase_chunk(alloc, indices)),
        Name::RetrieveEncodedChunk => {
            answered(alloc, &array.retrieve_encoded_chunk(alloc, indices))
        }
        Name::StoreEncodedChunk => store_encoded_chunk(alloc, array, call),
        _ => Err(Why::Call(call.written)),
    }
}

fn key_answered<'a>(
    alloc: Global,
    outcome: &Result<StoreKey, ArrayError>,
) -> Result<Answer, Why<'a>> {
    match outcome {
        Ok(key) => Ok(word(alloc, key.as_str())?),
        Err(_) => Err(Why::OutOfMemory),
    }
}

/// Makes a call of a range of chunks.
pub(crate) fn of_chunks<'a>(
    alloc: Global,
    array: &mut CaseArray<'_>,
    call: &CallLine<'a>,
) -> Result<Answer, Why<'a>> {
    let chunks = &call.region;
    if chunks.dimensionality() != array.dimensionality() {
        return Err(Why::Dimensions(call.written));
    }
    match call.name {
        Name::EraseChunks => answered(alloc, &array.erase_chunks(alloc, chunks)),
        Name::RetrieveEncodedChunks => {
            let options = CodecOptions::default();
            answered(
                alloc,
                &array.retrieve_encoded_chunks(alloc, chunks, &options),
            )
        }
        _ => Err(Why::Call(call.written)),
    }
}
