//! Laws of grids, and a grid of a million sizes. Case files show the rest.
use crate::checks::{must, must_eq};
use serde_json::Value;
use std::alloc::Global;
use std::num::NonZeroU64;
use std::process::Abort;
use zarrs_chunk_grid::laws::{
    box_of_a_chunk, chunk_of_a_position, chunk_range_fills_a_box, chunks_share_no_position,
    covered_positions, grid_of_its_configuration, metadata_describes_the_configuration,
};
use zarrs_chunk_grid::{
    ChunkGrid, ChunkGridTraits, ChunkSizes, GridError, RectangularChunkGrid, SizeList,
};
use zarrs_metadata_parts::MetadataV3;
use zarrs_subset::IncompatibleDimensionalityError;
use zarrs_subset::laws::{
    boxes_hold_along_each_dimension, parts_lie_in_their_chunks, positions_are_row_major,
    shifted_boxes_hold_shifted_positions,
};

fn fours(rt: &impl Abort, alloc: Global) -> ChunkGrid {
    const FOURS: &str = r#"{"configuration":{"chunk_shape":[4]},"name":"regular"}"#;
    let value = Value::from_str(alloc, FOURS).expect(rt, "no refusal");
    let metadata = MetadataV3::from_value(value).expect(rt, "no refusal");
    ChunkGrid::from_metadata(alloc, &metadata, &[8]).expect(rt, "no refusal")
}

#[test]
fn laws_of_boxes_and_grids(rt: HostRuntime) {
    positions_are_row_major();
    boxes_hold_along_each_dimension();
    shifted_boxes_hold_shifted_positions();
    parts_lie_in_their_chunks();
    let grid = fours(&rt, rt.alloc());
    chunks_share_no_position(&grid);
    chunk_of_a_position(&grid);
    chunk_range_fills_a_box(&grid);
    box_of_a_chunk(&grid);
    covered_positions(&grid);
    metadata_describes_the_configuration(&grid);
    grid_of_its_configuration(&grid);
    must_have_shapes(&rt, rt.alloc(), &grid);
}

/// Shapes of chunks as plain numbers.
fn must_have_shapes(rt: &impl Abort, alloc: Global, grid: &ChunkGrid) {
    let shape = grid.chunk_shape_u64(alloc, &[1]).expect(rt, "no refusal");
    must_eq(rt, shape.expect(rt, "there").as_slice(), [4].as_slice());
    let past = grid.chunk_shape_u64(alloc, &[u64::MAX]);
    must(rt, past.expect(rt, "no refusal").is_none());
    let flat = grid.chunk_shape_u64(alloc, &[0, 0]);
    let refusal = GridError::from(IncompatibleDimensionalityError::new(2, 1));
    must(rt, matches!(flat, Err(error) if error == refusal));
}

/// The sizes 1, 2 and 3 in turn: a million.
fn million_sizes(rt: &impl Abort, alloc: Global) -> SizeList {
    let mut sizes = Vec::with_capacity(alloc, 1000000).expect(rt, "no refusal");
    for number in 0..1000000u64 {
        let size = NonZeroU64::new(number % 3 + 1).expect(rt, "a size is 0");
        sizes.push(size).expect(rt, "no refusal");
    }
    SizeList::new(alloc, sizes).expect(rt, "no refusal")
}

fn grid_of_sizes(rt: &impl Abort, alloc: Global, sizes: SizeList) -> RectangularChunkGrid {
    must_eq(rt, (sizes.sizes().len(), sizes.end()), (1000000, 1999999));
    let axes = vec![in alloc; ChunkSizes::Sizes(sizes)].expect(rt, "no refusal");
    let shape = vec![in alloc; 1999999u64].expect(rt, "no refusal");
    RectangularChunkGrid::new(alloc, shape, axes).expect(rt, "no refusal")
}

fn must_have_number(rt: &impl Abort, grid: &RectangularChunkGrid, at: u64, number: Option<u64>) {
    must(
        rt,
        grid.dimensionality() == 1 && grid.chunk_number(0, at) == number,
    );
}

#[test]
fn a_million_listed_sizes(rt: HostRuntime) {
    let grid = grid_of_sizes(&rt, rt.alloc(), million_sizes(&rt, rt.alloc()));
    for turn in 0..100000u64 {
        must_have_number(&rt, &grid, 6 * turn, Some(3 * turn));
        must_have_number(&rt, &grid, 6 * turn + 2, Some(3 * turn + 1));
        must_have_number(&rt, &grid, 6 * turn + 5, Some(3 * turn + 2));
    }
    must_have_number(&rt, &grid, 1999999, None);
}
