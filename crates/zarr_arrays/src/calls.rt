//! Calls of an array over the store of its directory, once what they ask for was read.
ghost use Rattle.std.specs.Prelude.{◌≡◌, length, IfOk, OnOk};
ghost use Rattle.zarrs_data_type.specs.ArrayData.{data_of};
ghost use Rattle.zarrs_subset.specs.Regions.{box_of};
ghost use Rattle.zarrs_engine_calls.specs.ChunkBoxes.{chunks_met};
ghost use Rattle.zarrs_engine_calls.specs.Reach.{MayAskChunk, MayAskParts, MayReadParts};
ghost use Rattle.zarrs_engine_calls.specs.Reads.{ReadsRegion};
ghost use Rattle.zarrs.specs.Arrays.{layout_of_array, store_of_array, HasAllButStore};
ghost use Rattle.zarrs_directory.specs.Directory.{cache_state, directory_of, directory_state};
ghost use Rattle.zarrs_directory.specs.Excerpts.{excerpts_state};
ghost use Rattle.zarr_arrays.specs.Storing.{CompactsOver, StoresOver, UpgradesOver, lent_to};

use crate::opened::Store;
use crate::reading::ReadFiles;
use crate::refusals::Refusal;
use std::alloc::Global;
use zarrs::{Array, ArrayBytes, ArraySubset, CodecOptions, ReadableStorageTraits};
use zarrs_directory::{Cache, Directory, Excerpts, LentDirectory};

/// A directory of this system.
type Place<'r> = Directory<'r, HostRuntime>;

/// Returns the array over what was read of the files of its chunks.
fn reading<'d, 'r>(
    array: &Array<()>,
    alloc: Global,
    files: ReadFiles<'d, 'r>,
) -> Result<Array<ReadFiles<'d, 'r>>, Refusal>
    ensures layout { IfOk result (λ a. layout_of_array a ≡ layout_of_array array.now) }
    ensures store { IfOk result (λ a.
        store_of_array ⟦<Excerpts<'d, 'r, HostRuntime> as ReadableStorageTraits>⟧.state a
        ≡ excerpts_state files.entry) }
{
    Ok(array.with_storage(alloc, files)?)
}

/// Returns the array over the directory and what is held of it, which are lent to be written.
fn writing<'s, 'r>(
    array: &Array<()>,
    alloc: Global,
    directory: &'s Place<'r>,
    cache: &'s mut Cache,
) -> Result<Array<LentDirectory<'s, 'r, HostRuntime>>, Refusal>
    ensures copied { IfOk result (HasAllButStore array.now) }
    ensures lent { IfOk result (λ a. lent_to a ≡ cache.entry) }
{
    Ok(array.with_storage(alloc, LentDirectory::new(directory, cache))?)
}

/// Returns the cells of the region, of whose chunks was read what it needs.
pub(crate) fn retrieve_cells(
    array: &Array<()>,
    alloc: Global,
    files: ReadFiles<'_, '_>,
    region: &ArraySubset,
) -> Result<ArrayBytes<'static>, Refusal>
    requires { MayReadParts (layout_of_array array.now) (box_of region.now)
        (chunks_met (layout_of_array array.now).grid (box_of region.now))
        (excerpts_state files) }
    ensures { IfOk result (λ cells. ReadsRegion (layout_of_array array.now) (box_of region.now)
        (chunks_met (layout_of_array array.now).grid (box_of region.now)) (data_of cells)
        (excerpts_state files.entry)) }
{
    let array = reading(array, alloc, files)?;
    let cells: Result<ArrayBytes<'static>, _> = array.retrieve_array_subset(alloc, region);
    drop(array);
    Ok(cells?)
}

/// Stores the cells of the region, through an array over a directory that is lent.
fn store_through(
    array: &mut Array<LentDirectory<'_, '_, HostRuntime>>,
    alloc: Global,
    region: &ArraySubset,
    cells: ArrayBytes<'_>,
    options: &CodecOptions,
) -> Result<(), Refusal>
    requires { MayAskParts (layout_of_array array.old) (box_of region.now)
        (chunks_met (layout_of_array array.old).grid (box_of region.now))
        (cache_state (lent_to array.old).now) }
    ensures loan { OnOk result ((lent_to array.new).ghost_name ≡ (lent_to array.old).ghost_name) }
    ensures stored { OnOk result (StoresOver (layout_of_array array.old) (box_of region.now)
        (data_of cells.entry) (cache_state (lent_to array.old).now)
        (cache_state (lent_to array.new).now)) }
{
    array.store_array_subset_opt(alloc, region, cells, options)?;
    Ok(())
}

/// Stores the cells of the region in the directory. The chunks that it covers only in part were read.
fn store_beside(
    array: &Array<()>,
    alloc: Global,
    directory: &Place<'_>,
    cache: &mut Cache,
    region: &ArraySubset,
    cells: ArrayBytes<'_>,
    options: &CodecOptions,
) -> Result<(), Refusal>
    requires { MayAskParts (layout_of_array array.now) (box_of region.now)
        (chunks_met (layout_of_array array.now).grid (box_of region.now))
        (cache_state cache.old) }
    ensures { OnOk result (StoresOver (layout_of_array array.now) (box_of region.now)
        (data_of cells.entry) (cache_state cache.old) (cache_state cache.new)) }
{
    let mut array = writing(array, alloc, directory, cache)?;
    store_through(&mut array, alloc, region, cells, options)?;
    let _cache = array.into_storage().into_inner();
    Ok(())
}

/// Compacts the chunk with these indices, through an array over a directory that is lent.
fn compact_through(
    array: &mut Array<LentDirectory<'_, '_, HostRuntime>>,
    alloc: Global,
    indices: &[u64],
) -> Result<bool, Refusal>
    requires dimensions { length indices.now ≡ (layout_of_array array.old).grid.dimensions }
    requires ask { MayAskChunk (layout_of_array array.old) indices.now
        (cache_state (lent_to array.old).now) }
    ensures loan { OnOk result ((lent_to array.new).ghost_name ≡ (lent_to array.old).ghost_name) }
    ensures compacted { IfOk result (λ answer. CompactsOver (layout_of_array array.old) indices.now
        answer (cache_state (lent_to array.old).now) (cache_state (lent_to array.new).now)) }
{
    let answer = array.compact_chunk(alloc, indices, &CodecOptions::default())?;
    Ok(answer)
}

/// Compacts the chunk with these indices, which was read. Returns whether it was not compact.
fn compact_beside(
    array: &Array<()>,
    alloc: Global,
    directory: &Place<'_>,
    cache: &mut Cache,
    indices: &[u64],
) -> Result<bool, Refusal>
    requires dimensions { length indices.now ≡ (layout_of_array array.now).grid.dimensions }
    requires ask { MayAskChunk (layout_of_array array.now) indices.now (cache_state cache.old) }
    ensures { IfOk result (λ answer. CompactsOver (layout_of_array array.now) indices.now answer
        (cache_state cache.old) (cache_state cache.new)) }
{
    let mut array = writing(array, alloc, directory, cache)?;
    let answer = compact_through(&mut array, alloc, indices)?;
    let _cache = array.into_storage().into_inner();
    Ok(answer)
}

/// Makes the V2 document of the array a V3 one, through an array over a directory that is lent.
fn upgrade_through(
    array: &mut Array<LentDirectory<'_, '_, HostRuntime>>,
    alloc: Global,
) -> Result<(), Refusal>
    ensures loan { OnOk result ((lent_to array.new).ghost_name ≡ (lent_to array.old).ghost_name) }
    ensures upgraded { OnOk result (UpgradesOver array.old
        (cache_state (lent_to array.old).now) (cache_state (lent_to array.new).now)) }
{
    array.upgrade_metadata(alloc)?;
    Ok(())
}

/// Makes the V2 document of the array a V3 one.
fn upgrade_beside(
    array: &Array<()>,
    alloc: Global,
    directory: &Place<'_>,
    cache: &mut Cache,
) -> Result<(), Refusal>
    ensures { OnOk result (UpgradesOver array.now (cache_state cache.old) (cache_state cache.new)) }
{
    let mut array = writing(array, alloc, directory, cache)?;
    upgrade_through(&mut array, alloc)?;
    let _cache = array.into_storage().into_inner();
    Ok(())
}

/// Stores the cells of the region. The chunks that it covers only in part were read.
pub(crate) fn store_cells(
    array: &Array<()>,
    alloc: Global,
    store: &mut Store<'_>,
    region: &ArraySubset,
    cells: ArrayBytes<'_>,
    options: &CodecOptions,
) -> Result<(), Refusal>
    requires { MayAskParts (layout_of_array array.now) (box_of region.now)
        (chunks_met (layout_of_array array.now).grid (box_of region.now))
        (directory_state store.old) }
    ensures stored { OnOk result (StoresOver (layout_of_array array.now) (box_of region.now)
        (data_of cells.entry) (directory_state store.old) (directory_state store.new)) }
    ensures directory { directory_of store.new ≡ directory_of store.old }
{
    store_beside(
        array,
        alloc,
        &store.directory,
        &mut store.cache,
        region,
        cells,
        options,
    )
}

/// Compacts the chunk with these indices, which was read. Returns whether it was not compact.
pub(crate) fn compact_chunk(
    array: &Array<()>,
    alloc: Global,
    store: &mut Store<'_>,
    indices: &[u64],
) -> Result<bool, Refusal>
    requires dimensions { length indices.now ≡ (layout_of_array array.now).grid.dimensions }
    requires ask { MayAskChunk (layout_of_array array.now) indices.now (directory_state store.old) }
    ensures compacted { IfOk result (λ answer. CompactsOver (layout_of_array array.now) indices.now
        answer (directory_state store.old) (directory_state store.new)) }
    ensures directory { directory_of store.new ≡ directory_of store.old }
{
    compact_beside(array, alloc, &store.directory, &mut store.cache, indices)
}

/// Makes the V2 document of the array a V3 one.
pub(crate) fn upgrade(
    array: &Array<()>,
    alloc: Global,
    store: &mut Store<'_>,
) -> Result<(), Refusal>
    ensures upgraded { OnOk result
        (UpgradesOver array.now (directory_state store.old) (directory_state store.new)) }
    ensures directory { directory_of store.new ≡ directory_of store.old }
{
    upgrade_beside(array, alloc, &store.directory, &mut store.cache)
}
