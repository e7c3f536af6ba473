//! Queries of an array, which ask nothing of its store.
use crate::CaseArray;
use cases_answers::{Answer, Shown, answered, said};
use cases_lines::Why;
use cases_lines::call::{CallLine, Name};
use cases_lines::words::joined;
use std::alloc::{AllocError, Global};
use zarrs::ArrayError;

pub(crate) fn query<'a>(
    alloc: Global,
    array: &CaseArray<'_>,
    call: &CallLine<'a>,
) -> Result<Answer, Why<'a>> {
    let region = &call.region;
    match call.name {
        Name::ChunkOrigin => answered(alloc, &array.chunk_origin(alloc, &call.list)),
        Name::ChunkShape => answered(alloc, &extents(alloc, array, &call.list)),
        Name::ChunkSubset => answered(alloc, &array.chunk_subset(alloc, &call.list)),
        Name::ChunkSubsetBounded => answered(alloc, &array.chunk_subset_bounded(alloc, &call.list)),
        Name::ChunksInArraySubset => answered(alloc, &array.chunks_in_array_subset(alloc, region)),
        Name::ChunksSubset => answered(alloc, &array.chunks_subset(alloc, region)),
        Name::ChunksSubsetBounded => answered(alloc, &array.chunks_subset_bounded(alloc, region)),
        Name::SubsetAll => answered(alloc, &array.subset_all(alloc)),
        _ => query_alone(alloc, array, call),
    }
}

/// A query that takes nothing.
fn query_alone<'a>(
    alloc: Global,
    array: &CaseArray<'_>,
    call: &CallLine<'a>,
) -> Result<Answer, Why<'a>> {
    let shown = match call.name {
        Name::ChunkGridShape => joined(alloc, array.chunk_grid_shape(), ",", "-"),
        Name::Metadata => array.metadata().shown(alloc),
        Name::MetadataOpt => metadata_opt(alloc, array, call),
        Name::Shape => joined(alloc, array.shape(), ",", "-"),
        _ => return Err(Why::Call(call.written)),
    };
    Ok(said(alloc, shown?))
}

/// The extents of a chunk.
fn extents(alloc: Global, array: &CaseArray<'_>, indices: &[u64]) -> Result<Vec<u64>, ArrayError> {
    let mut extents = Vec::new(alloc);
    for extent in &array.chunk_shape(alloc, indices)? {
        extents.push(extent.get())?;
    }
    Ok(extents)
}

fn metadata_opt(
    alloc: Global,
    array: &CaseArray<'_>,
    call: &CallLine<'_>,
) -> Result<String, AllocError> {
    match array.metadata_opt(alloc, &call.options.of_metadata()) {
        Ok(metadata) => metadata.shown(alloc),
        Err(_) => Err(AllocError),
    }
}
