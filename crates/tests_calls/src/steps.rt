//! Calls as rows of a table.
use crate::make::{MemoryEngine, bytes_array, bytes_array_over};
use std::alloc::Global;
use std::num::NonZeroU64;
use std::process::Abort;
use zarrs_chunk_grid::RegularChunkGrid;
use zarrs_codec::CodecChain;
use zarrs_data_type::ArrayBytes;
use zarrs_engine::{Call, Engine};
use zarrs_keys::ChunkKeyEncoding;
use zarrs_storage::{Fence, MemoryStore};
use zarrs_subset::ArraySubset;

/// A call of an engine of bytes. A region, a range of chunks and a part of a chunk are given by their start and their shape.
pub(crate) enum Step {
    Store(&'static [u64], &'static [u8]),
    StoreRange(&'static [u64], &'static [u64], &'static [u8]),
    /// Stores a part of the chunk with the first indices.
    StorePart(&'static [u64], &'static [u64], &'static [u64], &'static [u8]),
    StoreRegion(&'static [u64], &'static [u64], &'static [u8]),
    Erase(&'static [u64]),
    EraseRange(&'static [u64], &'static [u64]),
    Read(&'static [u64]),
    ReadIfPresent(&'static [u64]),
    ReadRange(&'static [u64], &'static [u64]),
    /// Reads a part of the chunk with the first indices.
    ReadPart(&'static [u64], &'static [u64], &'static [u64]),
    ReadRegion(&'static [u64], &'static [u64]),
}

fn indices(rt: &impl Abort, alloc: Global, indices: &[u64]) -> Vec<u64> {
    indices.to_vec(alloc).expect(rt, "no refusal")
}

pub(crate) fn region(rt: &impl Abort, alloc: Global, start: &[u64], shape: &[u64]) -> ArraySubset {
    let (start, shape) = (indices(rt, alloc, start), indices(rt, alloc, shape));
    ArraySubset::new_with_start_shape(start, shape).expect(rt, "no refusal")
}

fn data(rt: &impl Abort, alloc: Global, cells: &[u8]) -> ArrayBytes<'static> {
    ArrayBytes::new_flen(cells.to_vec(alloc).expect(rt, "no refusal"))
}

fn call(rt: &impl Abort, alloc: Global, step: &Step) -> Call {
    match step {
        Step::Store(chunk, cells) => {
            Call::StoreChunk(indices(rt, alloc, chunk), data(rt, alloc, cells))
        }
        Step::StoreRange(start, shape, cells) => {
            Call::StoreChunks(region(rt, alloc, start, shape), data(rt, alloc, cells))
        }
        Step::StorePart(chunk, start, shape, cells) => {
            let part = region(rt, alloc, start, shape);
            Call::StoreChunkSubset(indices(rt, alloc, chunk), part, data(rt, alloc, cells))
        }
        Step::StoreRegion(start, shape, cells) => {
            Call::StoreArraySubset(region(rt, alloc, start, shape), data(rt, alloc, cells))
        }
        Step::Erase(chunk) => Call::EraseChunk(indices(rt, alloc, chunk)),
        Step::EraseRange(start, shape) => Call::EraseChunks(region(rt, alloc, start, shape)),
        Step::Read(chunk) => Call::RetrieveChunk(indices(rt, alloc, chunk)),
        Step::ReadIfPresent(chunk) => Call::RetrieveChunkIfExists(indices(rt, alloc, chunk)),
        Step::ReadRange(start, shape) => Call::RetrieveChunks(region(rt, alloc, start, shape)),
        Step::ReadPart(chunk, start, shape) => {
            Call::RetrieveChunkSubset(indices(rt, alloc, chunk), region(rt, alloc, start, shape))
        }
        Step::ReadRegion(start, shape) => {
            Call::RetrieveArraySubset(region(rt, alloc, start, shape))
        }
    }
}

pub(crate) fn calls(rt: &impl Abort, alloc: Global, steps: &[Step]) -> Vec<Call> {
    let mut calls = Vec::new(alloc);
    for step in steps {
        calls.push(call(rt, alloc, step)).expect(rt, "no refusal");
    }
    calls
}

fn two_by_two(rt: &impl Abort, alloc: Global) -> Vec<NonZeroU64> {
    let two = NonZeroU64::new(2).expect(rt, "2 is no zero");
    vec![in alloc; two, two].expect(rt, "no refusal")
}

/// An array of 4 by 4 cells 0 in chunks of 2 by 2.
pub(crate) fn small_array(rt: &impl Abort, alloc: Global) -> MemoryEngine {
    let shape = indices(rt, alloc, &[4, 4]);
    bytes_array(alloc, shape, two_by_two(rt, alloc)).expect(rt, "no refusal")
}

/// An array over a store of which no key may be asked.
pub(crate) type FencedEngine<'a> = Engine<
    Fence<'a, MemoryStore>,
    RegularChunkGrid,
    ChunkKeyEncoding,
    CodecChain,
>;

/// The same over this store, of which no key may be asked.
pub(crate) fn fenced_array<'a>(
    rt: &impl Abort,
    alloc: Global,
    store: &'a mut MemoryStore,
) -> FencedEngine<'a> {
    let fence = Fence::new(store, Vec::new(alloc));
    let shape = indices(rt, alloc, &[4, 4]);
    bytes_array_over(alloc, fence, shape, two_by_two(rt, alloc)).expect(rt, "no refusal")
}
