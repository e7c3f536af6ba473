//! Lists of calls.
ghost use Rattle.std.specs.Prelude.{◌≡◌, IfOk, IfErr, OnOk};
ghost use Rattle.zarrs_engine_calls.specs.Reach.{MayAskCalls};
ghost use Rattle.zarrs_engine_calls.specs.declared.call.Reply.TheVariants.{Done, Cells, Refused};
ghost use Rattle.zarrs_engine.specs.Engine.{layout_of, state_of};
ghost use Rattle.zarrs_engine.specs.Outcomes.{RepliesInTurn};

use super::Engine;
use std::alloc::{AllocError, Global};
use zarrs_chunk_grid::ChunkGridTraits;
use zarrs_codec_chain::{ChainTraits, CodecOptions};
use zarrs_data_type::ArrayBytes;
use zarrs_engine_calls::{ArrayError, Call, Reply};
use zarrs_engine_layout::invalid_indices;
use zarrs_keys::ChunkKeyEncodingTraits;
use zarrs_storage::WritableStorageTraits;
use zarrs_subset::ArraySubset;

/// Makes the calls in turn, whether earlier ones were refused or not, and returns the reply to each.
///
/// # Errors
/// If the list of replies is out of memory. Nothing was called then.
pub fn replay<
    S: WritableStorageTraits,
    G: ChunkGridTraits + Drop,
    K: ChunkKeyEncodingTraits,
    C: ChainTraits,
>(
    alloc: Global,
    engine: &mut Engine<S, G, K, C>,
    calls: &[Call],
    options: &CodecOptions,
) -> Result<Vec<Reply>, AllocError>
    requires { MayAskCalls (layout_of engine.old) calls.now (state_of S.state engine.old) }
    ensures { RepliesInTurn S.state options.now calls.now engine.old engine.new result }
{
    let mut replies = Vec::with_capacity(alloc, calls.len())?;
    for call in calls {
        let reply = engine.answer(alloc, call, options);
        replies.push_reserved(reply);
    }
    Ok(replies)
}

/// Returns the reply to a call that returns nothing.
fn done(made: Result<(), ArrayError>) -> Reply
    ensures done { OnOk made (result ≡ Done) }
    ensures refused { IfErr made (λ e. result ≡ Refused e) }
{
    match made {
        Ok(()) => Reply::Done,
        Err(error) => Reply::Refused(error),
    }
}

/// Returns the reply to a call that returns cells.
fn cells(made: Result<ArrayBytes<'static>, ArrayError>) -> Reply
    ensures cells { IfOk made.entry (λ held. result ≡ Cells held) }
    ensures refused { IfErr made.entry (λ e. result ≡ Refused e) }
{
    match made {
        Ok(data) => Reply::Cells(data),
        Err(error) => Reply::Refused(error),
    }
}

impl<
    S: WritableStorageTraits,
    G: ChunkGridTraits + Drop,
    K: ChunkKeyEncodingTraits,
    C: ChainTraits,
> Engine<S, G, K, C> {
    ghost use Rattle.std.specs.Prelude.{◌≡◌, [], ◌∷◌, Bool, List, None, ℕ};
    ghost use Rattle.zarrs_subset.specs.Regions.{box_of, positions};
    ghost use Rattle.zarrs_codec_chain.specs.Options.{stores_empty_chunks};
    ghost use Rattle.zarrs_engine_calls.specs.Acts.{compact, erase, resize, shape_after};
    ghost use Rattle.zarrs_engine_calls.specs.ArgumentRefusals.{resize_refusal};
    ghost use Rattle.zarrs_engine_calls.specs.Cuts.{cut_chunks};
    ghost use Rattle.zarrs_engine_calls.specs.Reach.{MayAskCall, MayAskChunk, MayAskKept};
    ghost use Rattle.zarrs_engine_calls.specs.Refusals.{length_refusal};
    ghost use Rattle.zarrs_engine_calls.specs.Step.{ActStep};
    ghost use Rattle.zarrs_engine.specs.Engine.{layout_of, state_of, store_of, KeepsOthers};
    ghost use Rattle.zarrs_engine.specs.Engine.{KeepsLayout};
    ghost use Rattle.zarrs_engine.specs.Outcomes.{StepsAs};

    /// Makes one call, and returns the reply: that it was done, what was read, or why it was refused.
    pub fn answer(&mut self, alloc: Global, call: &Call, options: &CodecOptions) -> Reply
        requires { MayAskCall (layout_of self.old) call.now (state_of S.state self.old) }
        ensures step { StepsAs (layout_of self.old) options.now call.now result
            (state_of S.state self.old) (state_of S.state self.new) }
        ensures layout { layout_of self.new ≡ layout_of self.old }
        ensures others { KeepsOthers self.old self.new }
    {
        match call {
            Call::StoreChunk(chunk_indices, chunk_data) => {
                done(self.store_chunk(alloc, chunk_indices, chunk_data, options))
            }
            Call::StoreChunks(chunks, data) => {
                done(self.store_chunks(alloc, chunks, data, options))
            }
            Call::StoreChunkSubset(chunk_indices, chunk_subset, data) => {
                done(self.store_chunk_subset(alloc, chunk_indices, chunk_subset, data, options))
            }
            Call::StoreArraySubset(array_subset, data) => {
                done(self.store_array_subset(alloc, array_subset, data, options))
            }
            Call::EraseChunk(chunk_indices) => self.answer_erase_chunk(alloc, chunk_indices),
            Call::EraseChunks(chunks) => self.answer_erase_chunks(alloc, chunks),
            Call::CompactChunk(chunk_indices) => self.answer_compact_chunk(alloc, chunk_indices),
            Call::RetrieveChunkIfExists(chunk_indices) => {
                match self.retrieve_chunk_if_exists(alloc, chunk_indices) {
                    Ok(found) => Reply::MaybeCells(found),
                    Err(error) => Reply::Refused(error),
                }
            }
            Call::RetrieveChunk(chunk_indices) => cells(self.retrieve_chunk(alloc, chunk_indices)),
            Call::RetrieveChunks(chunks) => cells(self.retrieve_chunks(alloc, chunks)),
            Call::RetrieveChunkSubset(chunk_indices, chunk_subset) => {
                cells(self.retrieve_chunk_subset(alloc, chunk_indices, chunk_subset))
            }
            Call::RetrieveArraySubset(array_subset) => {
                cells(self.retrieve_array_subset(alloc, array_subset))
            }
            Call::Resize(shape) => self.answer_resize(alloc, shape, options),
        }
    }

    /// Returns the reply to a change of the shape.
    fn answer_resize(&mut self, alloc: Global, shape: &[u64], options: &CodecOptions) -> Reply
        requires { resize_refusal (layout_of self.old) shape.now ≡ None
            → MayAskKept (layout_of self.old) shape.now (cut_chunks (layout_of self.old).grid
            (state_of S.state self.old).shape shape.now) (store_of S.state self.old) }
        ensures step { ActStep (layout_of self.old) (stores_empty_chunks options.now)
            (state_of S.state self.old).shape (resize_refusal (layout_of self.old) shape.now)
            (resize shape.now) result (store_of S.state self.old) (store_of S.state self.new) }
        ensures shape { (state_of S.state self.new).shape
            ≡ shape_after (resize shape.now) result (state_of S.state self.old).shape }
        ensures layout { layout_of self.new ≡ layout_of self.old }
        ensures others { KeepsOthers self.old self.new }
    {
        let Ok(wanted) = shape.to_vec(alloc) else {
            return Reply::Refused(ArrayError::OutOfMemory);
        };
        done(self.resize(alloc, wanted, options))
    }

    /// Returns the reply to an erasure of one chunk.
    fn answer_erase_chunk(&mut self, alloc: Global, chunk_indices: &[u64]) -> Reply
        ensures step { (keep : Bool) (shape : List ℕ) → ActStep (layout_of self.old) keep shape
            (length_refusal (layout_of self.old) chunk_indices.now)
            (erase (chunk_indices.now ∷ [])) result (store_of S.state self.old)
            (store_of S.state self.new) }
        ensures layout_kept { KeepsLayout self.old self.new }
    {
        if chunk_indices.len() != self.layout.grid.dimensionality() {
            return Reply::Refused(invalid_indices(alloc, chunk_indices));
        }
        match self.erase_chunk(alloc, chunk_indices) {
            Ok(()) => Reply::Done,
            Err(error) => Reply::Refused(error.into()),
        }
    }

    /// Returns the reply to an erasure of a range of chunks.
    fn answer_erase_chunks(&mut self, alloc: Global, chunks: &ArraySubset) -> Reply
        ensures step { (keep : Bool) (shape : List ℕ) → ActStep (layout_of self.old) keep shape
            (length_refusal (layout_of self.old) (box_of chunks.now).start)
            (erase (positions (box_of chunks.now))) result (store_of S.state self.old)
            (store_of S.state self.new) }
        ensures layout_kept { KeepsLayout self.old self.new }
    {
        if chunks.dimensionality() != self.layout.grid.dimensionality() {
            return Reply::Refused(invalid_indices(alloc, chunks.start()));
        }
        match self.erase_chunks(alloc, chunks) {
            Ok(()) => Reply::Done,
            Err(error) => Reply::Refused(error.into()),
        }
    }

    /// Returns the reply to a compaction of one chunk.
    fn answer_compact_chunk(&mut self, alloc: Global, chunk_indices: &[u64]) -> Reply
        requires { MayAskChunk (layout_of self.old) chunk_indices.now (store_of S.state self.old) }
        ensures step { (keep : Bool) (shape : List ℕ) → ActStep (layout_of self.old) keep shape
            (length_refusal (layout_of self.old) chunk_indices.now) (compact chunk_indices.now)
            result (store_of S.state self.old) (store_of S.state self.new) }
        ensures layout_kept { KeepsLayout self.old self.new }
    {
        if chunk_indices.len() != self.layout.grid.dimensionality() {
            return Reply::Refused(invalid_indices(alloc, chunk_indices));
        }
        match self.compact_chunk(alloc, chunk_indices) {
            Ok(answer) => Reply::Compacted(answer),
            Err(error) => Reply::Refused(error),
        }
    }
}
