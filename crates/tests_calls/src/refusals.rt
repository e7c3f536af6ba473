//! Handles refusals.
ghost use Rattle.std.specs.Prelude.{IfSome};
ghost use Rattle.zarrs_subset.specs.Regions.{box_of};
ghost use Rattle.zarrs_engine_calls.specs.ArgumentRefusals.{dimensions_refusal};
ghost use Rattle.zarrs_engine_calls.specs.Refusals.{RefusesBy, refusal_of};
ghost use Rattle.zarrs_engine.specs.Engine.{layout_of, state_of};

use std::alloc::Global;
use zarrs_chunk_grid::RegularChunkGrid;
use zarrs_codec::CodecChain;
use zarrs_engine::{ArrayError, Engine};
use zarrs_keys::ChunkKeyEncoding;
use zarrs_storage::{ReadableStorageTraits, StorageError};
use zarrs_subset::ArraySubset;

/// What to do about a refused call.
pub fn advice(error: &ArrayError) -> &'static str {
    match error {
        ArrayError::InvalidArraySubset(_, _) => "the chunks do not cover this region: ask the grid",
        ArrayError::InvalidChunkSubset(_, _, _) => "the part does not lie in its chunk",
        ArrayError::InvalidChunkGridIndicesError(_) => "no chunk has these indices: ask the grid",
        ArrayError::CodecError(_) => "the cells do not fit, or the bytes in the store are no chunk",
        ArrayError::ElementError(_) => "the values have another type than the array",
        ArrayError::InvalidDataShape(_, _) => "the target has another shape than the region",
        ArrayError::SizeOverflow => "there are more cells, bytes or chunks than 64 bits count",
        ArrayError::StorageError(StorageError::Exhausted) =>
            "the store takes no more writing calls",
        ArrayError::StorageError(_) => "the store refused: its error says why",
        ArrayError::OutOfMemory =>
            "each chunk is done or as it was: call again when memory is free",
        ArrayError::IncompatibleDimensionalityError(_) =>
            "the array has another number of dimensions",
        _ => "no call is refused so",
    }
}

/// Why a region of another number of dimensions than the array's is not read, or `None` for a region of as many. The store
/// is not asked, so this has no condition, and the store may be a `Fence` around no key.
pub fn other_dimensions<S: ReadableStorageTraits>(
    alloc: Global,
    engine: &Engine<S, RegularChunkGrid, ChunkKeyEncoding, CodecChain>,
    region: &ArraySubset,
) -> Option<ArrayError>
    ensures { IfSome result (λ e. RefusesBy (dimensions_refusal (layout_of engine.now)
        (state_of S.state engine.now).shape (box_of region.now)) (refusal_of e)) }
{
    if region.dimensionality() == engine.dimensionality() {
        return None;
    }
    engine.retrieve_array_subset(alloc, region).err()
}
