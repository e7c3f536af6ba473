//! Makes a call of an array.
use crate::CaseArray;
use crate::chunks::{of_chunk, of_chunks};
use crate::comparison::{Other, chunks_equal};
use crate::encoders::{partial_encode, partial_erase, supports_partial_encode};
use crate::queries::query;
use crate::reads::{exists, read};
use crate::replay::replay;
use crate::targets::{Held, read_into_place};
use crate::typed::by_values;
use crate::writes::{store, write};
use cases_answers::Answer;
use cases_lines::call::{CallLine, Name};
use cases_lines::{Through, Why};
use std::alloc::Global;

/// Makes the call, and returns what it answers. `other` is the array that was set aside, and `held` is what the place of
/// a read holds then.
///
/// # Errors
/// What is wrong with the line.
pub fn answer_of<'a>(
    alloc: Global,
    array: &mut CaseArray<'_>,
    call: &CallLine<'a>,
    other: Option<&Other>,
    held: &mut Held,
) -> Result<Answer, Why<'a>> {
    match call.options.through {
        Through::ReadOnly if !call.name.is_read() => return Err(Why::Option("read-only")),
        _ => {}
    }
    if call.options.replay {
        return replay(alloc, array, call);
    }
    if let Some(word) = call.options.of_values() {
        return by_values(alloc, array, call, word);
    }
    match call.name {
        Name::ChunksEqual => chunks_equal(alloc, array, other, call),
        Name::PartialDecodeInto | Name::RetrieveArraySubsetInto => {
            read_into_place(alloc, array, call, held)
        }
        _ => by_bytes(alloc, array, call),
    }
}

/// Makes a call whose cells are array bytes.
fn by_bytes<'a>(
    alloc: Global,
    array: &mut CaseArray<'_>,
    call: &CallLine<'a>,
) -> Result<Answer, Why<'a>> {
    match call.name {
        Name::ChunkKey
        | Name::CompactChunk
        | Name::EraseChunk
        | Name::RetrieveEncodedChunk
        | Name::StoreEncodedChunk => of_chunk(alloc, array, call),
        Name::EraseChunks | Name::RetrieveEncodedChunks => of_chunks(alloc, array, call),
        Name::PartialDecode
        | Name::RetrieveArraySubset
        | Name::RetrieveChunk
        | Name::RetrieveChunkIfExists
        | Name::RetrieveChunkSubset
        | Name::RetrieveChunks => read(alloc, array, call),
        Name::Exists => exists(alloc, array, call),
        Name::StoreArraySubset | Name::StoreChunk | Name::StoreChunkSubset | Name::StoreChunks =>
            store(alloc, array, call),
        Name::EraseMetadata
        | Name::Resize
        | Name::StoreMetadata
        | Name::StoreMetadataOpt
        | Name::UpgradeMetadata => write(alloc, array, call),
        Name::PartialEncode => partial_encode(alloc, array, call),
        Name::PartialErase => partial_erase(alloc, array, call),
        Name::SupportsPartialEncode => supports_partial_encode(alloc, array, call),
        _ => query(alloc, array, call),
    }
}
