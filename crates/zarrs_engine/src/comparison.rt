//! Arrays that are compared by the bytes of their chunks.
ghost use Rattle.std.specs.Prelude.{◌≡◌, ◌↔◌, ◌⊎◌, IfOk, IfErr, OnOk, IsTrue, None, length};
ghost use Rattle.zarrs_subset.specs.Regions.{box_of, positions};
ghost use Rattle.zarrs_engine_calls.specs.Content.{value_at};
ghost use Rattle.zarrs_engine_calls.specs.Reach.{MayAskChunk, MayAskChunks};
ghost use Rattle.zarrs_engine_calls.specs.Refusals.{RefusesBy, key_refusal, refusal_of};
ghost use Rattle.zarrs_engine.specs.Comparisons.{ComparesOrRefuses};
ghost use Rattle.zarrs_engine.specs.Engine.{layout_of, store_of};

use crate::engine::Engine;
use std::alloc::Global;
use zarrs_chunk_grid::ChunkGridTraits;
use zarrs_codec_chain::ChainTraits;
use zarrs_engine_calls::ArrayError;
use zarrs_keys::ChunkKeyEncodingTraits;
use zarrs_storage::ReadableStorageTraits;
use zarrs_subset::ArraySubset;

/// Returns whether, for each chunk with indices in the range, both arrays store the same bytes or both store none. No
/// chunk is decoded. The chunks are asked in row-major order, up to the first one that differs; an empty range asks
/// nothing. Of two canonical arrays of one grid, data type, fill value and chain it is whether they have equal cells
/// over the chunks.
///
/// # Errors
/// E8 for more chunks than a `u64` counts; E7 if one of the stores refuses the key of one of them. E9 may come at any
/// time.
pub fn chunks_equal<
    S1: ReadableStorageTraits,
    G1: ChunkGridTraits,
    K1: ChunkKeyEncodingTraits,
    C1: ChainTraits,
    S2: ReadableStorageTraits,
    G2: ChunkGridTraits,
    K2: ChunkKeyEncodingTraits,
    C2: ChainTraits,
>(
    alloc: Global,
    a: &Engine<S1, G1, K1, C1>,
    b: &Engine<S2, G2, K2, C2>,
    chunks: &ArraySubset,
) -> Result<bool, ArrayError>
    requires dimensions_a { length (box_of chunks.now).start ≡ (layout_of a.now).grid.dimensions }
    requires dimensions_b { length (box_of chunks.now).start ≡ (layout_of b.now).grid.dimensions }
    requires ask_a { MayAskChunks (layout_of a.now) (positions (box_of chunks.now))
        (store_of S1.state a.now) }
    requires ask_b { MayAskChunks (layout_of b.now) (positions (box_of chunks.now))
        (store_of S2.state b.now) }
    ensures { ComparesOrRefuses (layout_of a.now) (layout_of b.now) (store_of S1.state a.now)
        (store_of S2.state b.now) (positions (box_of chunks.now)) result }
{
    if chunks.num_elements().is_err() {
        return Err(ArrayError::SizeOverflow);
    }
    let Some(mut walk) = chunks.walk(alloc)? else {
        return Ok(true);
    };
    loop {
        if !chunk_equal(alloc, a, b, walk.current())? {
            return Ok(false);
        }
        if !walk.advance() {
            return Ok(true);
        }
    }
}

/// Returns whether both arrays store the same bytes for the chunk with these indices, or both store none.
///
/// # Errors
/// E7 if one of the stores refuses the key. E9 may come at any time.
fn chunk_equal<
    S1: ReadableStorageTraits,
    G1: ChunkGridTraits,
    K1: ChunkKeyEncodingTraits,
    C1: ChainTraits,
    S2: ReadableStorageTraits,
    G2: ChunkGridTraits,
    K2: ChunkKeyEncodingTraits,
    C2: ChainTraits,
>(
    alloc: Global,
    a: &Engine<S1, G1, K1, C1>,
    b: &Engine<S2, G2, K2, C2>,
    chunk_indices: &[u64],
) -> Result<bool, ArrayError>
    requires dimensions_a { length chunk_indices.now ≡ (layout_of a.now).grid.dimensions }
    requires dimensions_b { length chunk_indices.now ≡ (layout_of b.now).grid.dimensions }
    requires ask_a { MayAskChunk (layout_of a.now) chunk_indices.now (store_of S1.state a.now) }
    requires ask_b { MayAskChunk (layout_of b.now) chunk_indices.now (store_of S2.state b.now) }
    ensures equal { IfOk result (λ equal. IsTrue equal
        ↔ (value_at (store_of S1.state a.now) ((layout_of a.now).key chunk_indices.now)
        ≡ value_at (store_of S2.state b.now) ((layout_of b.now).key chunk_indices.now))) }
    ensures asked_a { OnOk result (key_refusal (layout_of a.now) chunk_indices.now
        (store_of S1.state a.now) ≡ None) }
    ensures asked_b { OnOk result (key_refusal (layout_of b.now) chunk_indices.now
        (store_of S2.state b.now) ≡ None) }
    ensures refused { IfErr result (λ e.
        RefusesBy (key_refusal (layout_of a.now) chunk_indices.now (store_of S1.state a.now))
        (refusal_of e)
        ⊎ RefusesBy (key_refusal (layout_of b.now) chunk_indices.now (store_of S2.state b.now))
        (refusal_of e)) }
{
    let value = a.stored_bytes(alloc, chunk_indices)?;
    let other = b.stored_bytes(alloc, chunk_indices)?;
    Ok(value == other)
}
