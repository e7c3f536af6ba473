//! Calls that go by `replay`.
use crate::CaseArray;
use cases_answers::{Answer, data_of, refused, said, shown_data, word};
use cases_lines::Why;
use cases_lines::call::{CallLine, Name};
use std::alloc::{AllocError, Global};
use zarrs::{ArrayBytes, ArraySubset, Call as ArrayCall, DataType, Reply};

/// Replays a list of this call alone.
pub(crate) fn replay<'a>(
    alloc: Global,
    array: &mut CaseArray<'_>,
    call: &CallLine<'a>,
) -> Result<Answer, Why<'a>> {
    let Some(recorded) = recorded(alloc, array.data_type(), call)? else {
        return Err(Why::Option("replay"));
    };
    let calls = vec![in alloc; recorded]?;
    let replies = array.replay(alloc, &calls, &call.options.of_codecs())?;
    match replies.as_slice() {
        [reply] => Ok(shown(alloc, array.data_type(), reply)?),
        _ => Err(Why::Option("replay")),
    }
}

/// What a reply shows.
fn shown(alloc: Global, data_type: &DataType, reply: &Reply) -> Result<Answer, AllocError> {
    match reply {
        Reply::Done => word(alloc, "ok"),
        Reply::Compacted(true) => word(alloc, "true"),
        Reply::Compacted(false) => word(alloc, "false"),
        Reply::Cells(data) | Reply::MaybeCells(Some(data)) => {
            Ok(said(alloc, shown_data(alloc, data_type, data)?))
        }
        Reply::MaybeCells(None) => word(alloc, "none"),
        Reply::Refused(error) => refused(alloc, error),
    }
}

/// The call as a value, if there is one.
fn recorded<'a>(
    alloc: Global,
    data_type: &DataType,
    call: &CallLine<'a>,
) -> Result<Option<ArrayCall>, Why<'a>> {
    let list = call.list.clone()?;
    let region = call.region.clone()?;
    match call.name {
        Name::StoreArraySubset | Name::StoreChunk | Name::StoreChunkSubset | Name::StoreChunks => {
            let data = data_of(alloc, data_type, call.word)?;
            Ok(with_data(call.name, list, region, data))
        }
        name => Ok(without_data(name, list, region)),
    }
}

fn with_data(
    name: Name,
    list: Vec<u64>,
    region: ArraySubset,
    data: ArrayBytes<'static>,
) -> Option<ArrayCall> {
    match name {
        Name::StoreArraySubset => Some(ArrayCall::StoreArraySubset(region, data)),
        Name::StoreChunk => Some(ArrayCall::StoreChunk(list, data)),
        Name::StoreChunkSubset => Some(ArrayCall::StoreChunkSubset(list, region, data)),
        Name::StoreChunks => Some(ArrayCall::StoreChunks(region, data)),
        _ => None,
    }
}

fn without_data(name: Name, list: Vec<u64>, region: ArraySubset) -> Option<ArrayCall> {
    match name {
        Name::CompactChunk => Some(ArrayCall::CompactChunk(list)),
        Name::EraseChunk => Some(ArrayCall::EraseChunk(list)),
        Name::EraseChunks => Some(ArrayCall::EraseChunks(region)),
        Name::Resize => Some(ArrayCall::Resize(list)),
        Name::RetrieveArraySubset => Some(ArrayCall::RetrieveArraySubset(region)),
        Name::RetrieveChunk => Some(ArrayCall::RetrieveChunk(list)),
        Name::RetrieveChunkIfExists => Some(ArrayCall::RetrieveChunkIfExists(list)),
        Name::RetrieveChunkSubset => Some(ArrayCall::RetrieveChunkSubset(list, region)),
        Name::RetrieveChunks => Some(ArrayCall::RetrieveChunks(region)),
        _ => None,
    }
}
