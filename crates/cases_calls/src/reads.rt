//! Reads of an array over the store of a case.
use crate::CaseArray;
use cases_answers::{Answer, answered, data_answered};
use cases_lines::Why;
use cases_lines::call::{CallLine, Name};
use std::alloc::Global;
use zarrs::{ArrayBytes, ArrayError, CodecOptions};

/// Reads cells as array bytes.
pub(crate) fn read<'a>(
    alloc: Global,
    array: &CaseArray<'_>,
    call: &CallLine<'a>,
) -> Result<Answer, Why<'a>> {
    let CallLine { list, region, .. } = call;
    let outcome: Result<Option<ArrayBytes<'static>>, ArrayError> = match call.name {
        Name::PartialDecode => partial_decode(alloc, array, call).map(Some),
        Name::RetrieveArraySubset => array.retrieve_array_subset(alloc, region).map(Some),
        Name::RetrieveChunk => array.retrieve_chunk(alloc, list).map(Some),
        Name::RetrieveChunkIfExists => array.retrieve_chunk_if_exists(alloc, list),
        Name::RetrieveChunkSubset => array.retrieve_chunk_subset(alloc, list, region).map(Some),
        Name::RetrieveChunks => array.retrieve_chunks(alloc, region).map(Some),
        _ => return Err(Why::Call(call.written)),
    };
    data_answered(alloc, array.data_type(), &outcome)
}

/// A part of a chunk, by its decoder.
fn partial_decode(
    alloc: Global,
    array: &CaseArray<'_>,
    call: &CallLine<'_>,
) -> Result<ArrayBytes<'static>, ArrayError> {
    let decoder = array.partial_decoder(alloc, &call.list)?;
    decoder.partial_decode(alloc, &call.region, &CodecOptions::default())
}

/// Whether a chunk is present, by its decoder.
pub(crate) fn exists<'a>(
    alloc: Global,
    array: &CaseArray<'_>,
    call: &CallLine<'a>,
) -> Result<Answer, Why<'a>> {
    let outcome = match array.partial_decoder(alloc, &call.list) {
        Ok(decoder) => decoder.exists(alloc),
        Err(error) => Err(error),
    };
    answered(alloc, &outcome)
}
