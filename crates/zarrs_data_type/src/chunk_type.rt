//! Chunks of cells of one type.
use zarrs_data_type_kinds::CellType;

/// A chunk of this shape, of cells of this type. Its bytes may be more than a `u64` counts: parts of it can be read.
#[derive(Clone, Copy, Debug, Drop)]
pub struct ChunkType<'c> {
    /// The type of the cells.
    pub cell_type: &'c CellType,
    /// The chunk's extents.
    pub shape: &'c [u64],
}
