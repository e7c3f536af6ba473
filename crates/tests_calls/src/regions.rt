//! Stores a region, and reads a part of a chunk.
ghost use Rattle.std.specs.Prelude.{false, IfOk, OnOk};
ghost use Rattle.zarrs_subset.specs.Regions.{box_of};
ghost use Rattle.zarrs_storage.specs.Memory.{open_state};
ghost use Rattle.zarrs_data_type.specs.ArrayData.{data_of, fixed};
ghost use Rattle.zarrs_engine_calls.specs.Step.{StoresRegion, RetrievesPart};
ghost use Rattle.zarrs_engine.specs.Engine.{layout_of, store_of};
ghost use Rattle.zarrs_engine.specs.Outcomes.{StoresRegionOrRefuses};

use crate::make::MemoryEngine;
use std::alloc::Global;
use zarrs_codec::CodecOptions;
use zarrs_data_type::ArrayBytes;
use zarrs_engine::ArrayError;
use zarrs_subset::ArraySubset;

/// Stores these bytes as the cells of the region, in row-major order, whatever chunks it crosses.
pub fn store_region(
    alloc: Global,
    engine: &mut MemoryEngine,
    region: &ArraySubset,
    region_bytes: &[u8],
) -> Result<(), ArrayError>
    ensures { StoresRegionOrRefuses open_state false (box_of region.now) (fixed region_bytes.now)
        engine.old engine.new result }
{
    let region_data = ArrayBytes::from_flen(region_bytes);
    let options = CodecOptions::default();
    engine.store_array_subset(alloc, region, &region_data, &options)
}

/// The cells of a part of a chunk, in row-major order. The part is seen from the origin of the chunk.
pub fn part_of_chunk(
    alloc: Global,
    engine: &MemoryEngine,
    chunk_indices: &[u64],
    part: &ArraySubset,
) -> Result<ArrayBytes<'static>, ArrayError>
    ensures { IfOk result (λ read. RetrievesPart (layout_of engine.now) chunk_indices.now
        (box_of part.now) (data_of read) (store_of open_state engine.now)) }
{
    engine.retrieve_chunk_subset(alloc, chunk_indices, part)
}
