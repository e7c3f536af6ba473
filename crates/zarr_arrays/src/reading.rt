//! The chunks of a region, read before a call asks for them.
ghost use Rattle.std.specs.Prelude.{◌≡◌, IfOk, OnOk, IsTrue};
ghost use Rattle.zarrs_subset.specs.Regions.{box_of};
ghost use Rattle.zarrs_chunk_grid.specs.Grids.{met};
ghost use Rattle.zarrs_engine_calls.specs.ChunkBoxes.{CoversBox, chunks_met};
ghost use Rattle.zarrs_engine_calls.specs.Reach.{MayAskParts, MayReadPart};
ghost use Rattle.zarrs.specs.Arrays.{layout_of_array};
ghost use Rattle.zarrs_directory.specs.Directory.{directory_state};
ghost use Rattle.zarrs_directory.specs.Excerpts.{IsNoExcerpt, excerpts_of, excerpts_state};
ghost use Rattle.zarr_arrays.specs.Reading.{HasRead, HasReadOnly, HasReadPart, KeepsRead, KeepsStore};
ghost use Rattle.zarr_arrays.specs.Reading.{ReadsAtMost, ReadsMore, ReadsNoOthers};

use crate::opened::Store;
use crate::places::wanted_of;
use crate::refusals::Refusal;
use std::alloc::Global;
use zarrs::{Array, ArraySubset};
use zarrs_directory::Excerpts;
use zarrs_subset::lies_in_box;

/// What was read of the files of chunks.
pub(crate) type ReadFiles<'d, 'r> = Excerpts<'d, 'r, HostRuntime>;

/// Returns the refusal E1 of the region.
pub(crate) fn outside(alloc: Global, array: &Array<()>, region: &ArraySubset) -> Refusal {
    match format!(in alloc;
        "E1: array subset {region} is not compatible with array shape {:?}",
        array.shape()
    ) {
        Ok(text) => Refusal::Said(text),
        Err(_) => Refusal::OutOfMemory,
    }
}

/// Returns the chunks that the region meets.
///
/// # Errors
/// E1 for a position that no chunk covers, E10 for another number of dimensions.
fn chunks_of(array: &Array<()>, alloc: Global, region: &ArraySubset) -> Result<ArraySubset, Refusal>
    ensures { IfOk result (λ chunks. box_of chunks
        ≡ met (layout_of_array array.now).grid (box_of region.now)) }
{
    match array.chunks_in_array_subset(alloc, region)? {
        Some(chunks) => Ok(chunks),
        None => Err(outside(alloc, array, region)),
    }
}

/// Reads the chunk with these indices. An index list of another length than the array has dimensions names no chunk.
#[tactic(auto, using(crate::proofs::Asked::chunk_asked, crate::proofs::Asked::other_length, crate::proofs::Asked::keeps_read, crate::proofs::Asked::keeps_same, crate::proofs::Asked::reads_at_most, crate::proofs::Asked::same_at_most))]
pub(crate) fn read_chunk(
    array: &Array<()>,
    store: &mut Store<'_>,
    alloc: Global,
    indices: &[u64],
) -> Result<(), Refusal>
    ensures read { OnOk result (HasRead (layout_of_array array.now) store.new indices.now) }
    ensures kept { OnOk result (KeepsRead (layout_of_array array.now) store.old store.new) }
    ensures most { OnOk result
        (ReadsAtMost (layout_of_array array.now) store.old store.new indices.now) }
{
    if indices.len() != array.dimensionality() {
        return Ok(());
    }
    let key = array.chunk_key(alloc, indices)?;
    store.read(alloc, &key)?;
    Ok(())
}

/// Reads of the file of the chunk with these indices what a read of the region needs.
#[tactic(auto, using(crate::proofs::WantedLemmas::other_length_part, crate::proofs::WantedLemmas::same_more))]
fn read_excerpt(
    array: &Array<()>,
    files: &mut ReadFiles<'_, '_>,
    alloc: Global,
    region: &ArraySubset,
    indices: &[u64],
) -> Result<(), Refusal>
    ensures read { OnOk result (MayReadPart (layout_of_array array.now) (box_of region.now)
        indices.now (excerpts_state files.new)) }
    ensures more { OnOk result (ReadsMore (layout_of_array array.now) indices.now
        (excerpts_state files.old) (excerpts_state files.new)) }
    ensures directory { excerpts_of files.new ≡ excerpts_of files.old }
{
    if indices.len() != array.dimensionality() {
        return Ok(());
    }
    let key = array.chunk_key(alloc, indices)?;
    let wanted = wanted_of(array, alloc, region, indices)?;
    files.read(alloc, &key, wanted)?;
    Ok(())
}

/// Reads of the files of the chunks that the region meets what a read of the region needs. Nothing was read before.
pub(crate) fn read_chunks(
    array: &Array<()>,
    files: &mut ReadFiles<'_, '_>,
    alloc: Global,
    region: &ArraySubset,
) -> Result<(), Refusal>
    requires { IsNoExcerpt (excerpts_state files.old) }
    ensures read { OnOk result (HasReadOnly (layout_of_array array.now) (box_of region.now)
        (excerpts_state files.new)) }
    ensures directory { excerpts_of files.new ≡ excerpts_of files.old }
{
    let chunks = chunks_of(array, alloc, region)?;
    for indices in chunks.indices(alloc) {
        let indices = indices?;
        read_excerpt(array, files, alloc, region, &indices)?;
    }
    Ok(())
}

/// Returns whether the region has each position of the chunk.
fn covers(region: &ArraySubset, chunk: &ArraySubset) -> bool
    ensures { IsTrue result → CoversBox (box_of region.now) (box_of chunk.now) }
{
    lies_in_box(chunk, region)
}

/// Reads the chunk with these indices, if the region covers it only in part.
#[tactic(auto, using(crate::proofs::Asked::is_no_part, crate::proofs::Asked::keeps_same, crate::proofs::Asked::same_at_most))]
fn read_part(
    array: &Array<()>,
    store: &mut Store<'_>,
    alloc: Global,
    region: &ArraySubset,
    indices: &[u64],
) -> Result<(), Refusal>
    ensures read { OnOk result
        (HasReadPart (layout_of_array array.now) (box_of region.now) store.new indices.now) }
    ensures kept { OnOk result (KeepsRead (layout_of_array array.now) store.old store.new) }
    ensures most { OnOk result
        (ReadsAtMost (layout_of_array array.now) store.old store.new indices.now) }
{
    let chunk = array.chunk_subset(alloc, indices)?;
    if covers(region, &chunk) {
        return Ok(());
    }
    read_chunk(array, store, alloc, indices)?;
    Ok(())
}

/// Reads each chunk that the region covers only in part, so that a store of the region may ask for it.
pub(crate) fn read_parts(
    array: &Array<()>,
    store: &mut Store<'_>,
    alloc: Global,
    region: &ArraySubset,
) -> Result<(), Refusal>
    ensures ask { OnOk result (MayAskParts (layout_of_array array.now) (box_of region.now)
        (chunks_met (layout_of_array array.now).grid (box_of region.now))
        (directory_state store.new)) }
    ensures kept { OnOk result (KeepsStore store.old store.new) }
    ensures no_others { OnOk result (ReadsNoOthers (layout_of_array array.now)
        (chunks_met (layout_of_array array.now).grid (box_of region.now)) store.old store.new) }
{
    let chunks = chunks_of(array, alloc, region)?;
    for indices in chunks.indices(alloc) {
        let indices = indices?;
        read_part(array, store, alloc, region, &indices)?;
    }
    Ok(())
}
