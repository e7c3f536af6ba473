//! What follows from the laws of a chunk grid. These functions do nothing: their contracts are the theorems.
ghost use Rattle.std.specs.Prelude.{◌≡◌, ◌↔◌, ℕ, List, Some, true};
ghost use Rattle.zarrs_subset.specs.Regions.{Box, InBox, Holds};
ghost use Rattle.zarrs_chunk_grid.specs.Grids.{InChunk, IsCovered, IsChunkRange};
ghost use Rattle.zarrs_chunk_grid.specs.Grids.{box_at, has_box, index_at, is_covered, range_box};
ghost use Rattle.zarrs_chunk_grid.specs.Configurations.{grid_of, counts_of, takes_shape};
ghost use Rattle.zarrs_chunk_grid.specs.Metadata.{configuration_said};
ghost use Rattle.zarrs_chunk_grid.specs.GridView.{configuration_of};

use crate::grid::ChunkGrid;
use crate::traits::ChunkGridTraits;

/// The boxes of two chunks share no position.
pub fn chunks_share_no_position<G: ChunkGridTraits>(_grid: &G)
    ensures { (indices others position : List ℕ) → InChunk (G.grid _grid.now) indices position
        → InChunk (G.grid _grid.now) others position → indices ≡ others }
{}

/// The indices of the chunk that holds a position are a function of the position.
pub fn chunk_of_a_position<G: ChunkGridTraits>(_grid: &G)
    ensures { (indices position : List ℕ) → InChunk (G.grid _grid.now) indices position
        → indices ≡ index_at (G.grid _grid.now) position }
{}

/// The chunks of a range of indices fill one box.
pub fn chunk_range_fills_a_box<G: ChunkGridTraits>(_grid: &G)
    ensures { (range : Box) (position : List ℕ) → IsChunkRange (G.grid _grid.now) range
        → (InBox (range_box (G.grid _grid.now) range) position)
        ↔ ((indices : List ℕ) × InBox range indices × InChunk (G.grid _grid.now) indices position) }
{}

/// The metadata of a grid describes its configuration, over an array of any shape.
pub fn metadata_describes_the_configuration(_grid: &ChunkGrid)
    ensures { configuration_said (⟦<ChunkGrid as ChunkGridTraits>⟧.extension _grid.now)
        ≡ Some (configuration_of _grid.now) }
{}

/// A grid is the one of its configuration over an array of its shape. So a grid that is made anew from the metadata of
/// another over an array of the same shape is the same.
pub fn grid_of_its_configuration(_grid: &ChunkGrid)
    ensures grid { ⟦<ChunkGrid as ChunkGridTraits>⟧.grid _grid.now ≡ grid_of
        (configuration_of _grid.now) (⟦<ChunkGrid as ChunkGridTraits>⟧.array_extents _grid.now) }
    ensures counts { ⟦<ChunkGrid as ChunkGridTraits>⟧.grid_extents _grid.now ≡ counts_of
        (configuration_of _grid.now) (⟦<ChunkGrid as ChunkGridTraits>⟧.array_extents _grid.now) }
    ensures taken { takes_shape (configuration_of _grid.now)
        (⟦<ChunkGrid as ChunkGridTraits>⟧.array_extents _grid.now) ≡ true }
{}

/// The box of a chunk has the positions that the chunk holds.
pub fn box_of_a_chunk<G: ChunkGridTraits>(_grid: &G)
    ensures { (indices position : List ℕ) → has_box (G.grid _grid.now) indices ≡ true
        → (Holds (box_at (G.grid _grid.now) indices) position)
        ↔ InChunk (G.grid _grid.now) indices position }
{}

/// A position is covered exactly if some chunk holds it.
pub fn covered_positions<G: ChunkGridTraits>(_grid: &G)
    ensures { (position : List ℕ) → (is_covered (G.grid _grid.now) position ≡ true)
        ↔ IsCovered (G.grid _grid.now) position }
{}
