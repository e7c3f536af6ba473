//! What the layers below have for their own layers: parts of boxes, of grids, of documents, of data and of engines.

pub use zarrs_chunk_grid::{ChunkNumbers, Interval};
pub use zarrs_data_type::{CellType, ChunkType, VariableLengthBuilder, inner_fill};
pub use zarrs_engine::{ChunkPartialDecoder, ChunkPartialEncoder};
pub use zarrs_engine_layout::ArrayLayout;
pub use zarrs_metadata::{EndianV2, KindV2, TypeV2};
pub use zarrs_subset::{
    Corner, Indices, PositionWalk, copy_box, element_count, lies_in_box, place_part,
};
