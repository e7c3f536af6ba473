//! Writes of an array over the store of a case.
use crate::CaseArray;
use cases_answers::{Answer, answered, data_of};
use cases_lines::Why;
use cases_lines::call::{CallLine, Name};
use std::alloc::Global;
use zarrs::IntoArrayBytes;

/// Stores cells as array bytes.
pub(crate) fn store<'a>(
    alloc: Global,
    array: &mut CaseArray<'_>,
    call: &CallLine<'a>,
) -> Result<Answer, Why<'a>> {
    let data = data_of(alloc, array.data_type(), call.word)?;
    store_cells(alloc, array, call, data)
}

/// Stores these cells.
pub(crate) fn store_cells<'a, 'd, D: IntoArrayBytes<'d> + Drop>(
    alloc: Global,
    array: &mut CaseArray<'_>,
    call: &CallLine<'a>,
    cells: D,
) -> Result<Answer, Why<'a>> {
    let CallLine { list, region, .. } = call;
    let options = call.options.of_codecs();
    let outcome = match call.name {
        Name::StoreArraySubset => array.store_array_subset_opt(alloc, region, cells, &options),
        Name::StoreChunk => array.store_chunk_opt(alloc, list, cells, &options),
        Name::StoreChunkSubset => {
            array.store_chunk_subset_opt(alloc, list, region, cells, &options)
        }
        Name::StoreChunks => array.store_chunks_opt(alloc, region, cells, &options),
        _ => return Err(Why::Call(call.written)),
    };
    answered(alloc, &outcome)
}

/// Makes a call that writes no cells, or changes the array.
pub(crate) fn write<'a>(
    alloc: Global,
    array: &mut CaseArray<'_>,
    call: &CallLine<'a>,
) -> Result<Answer, Why<'a>> {
    let options = call.options;
    let outcome = match call.name {
        Name::EraseMetadata => array.erase_metadata_opt(alloc, options.of_erasing()),
        Name::Resize => return resize(alloc, array, call),
        Name::StoreMetadata => array.store_metadata(alloc),
        Name::StoreMetadataOpt => array.store_metadata_opt(alloc, &options.of_metadata()),
        Name::UpgradeMetadata => array.upgrade_metadata(alloc),
        _ => return Err(Why::Call(call.written)),
    };
    answered(alloc, &outcome)
}

fn resize<'a>(
    alloc: Global,
    array: &mut CaseArray<'_>,
    call: &CallLine<'a>,
) -> Result<Answer, Why<'a>> {
    let shape = call.list.to_vec(alloc)?;
    answered(
        alloc,
        &array.resize(alloc, shape, &call.options.of_codecs()),
    )
}
