//! The parts of an array beside its store, and what they alone decide of a call, before the store is asked.
//!
//! `zarrs_engine` uses `ArrayLayout`: a grid, a path, a key encoding, a chain and a cell type. It gives the chunks that a
//! region meets (`chunks_met`), or the one that it lies in (`only_chunk`), and the key, the value and the cells of a
//! chunk. It refuses bad arguments. `ChunkShare` and `part_in_chunk` are what a region and a chunk share, and `CutWalk`
//! finds the chunks that a new shape cuts.
//!
//! `layout_meaning` of `specs/Layouts.antt` gives the `Layout` of `zarrs_engine_calls`, and the ghost field `lawful`
//! says that it is lawful. `Answers` of `specs/Answers.antt` is what a step returns, or what refuses it. `CoverRegion` of
//! `specs/Covers.antt` says that chunks cover a region. `HasValue` of `specs/Steps.antt` says what is to be at the key of
//! a chunk. `specs/Shared.antt`, `specs/CutWalks.antt` and `specs/WholeChunks.antt` have the rest.
#![tactic(auto)]

mod array_layout;
mod chunk_parts;
mod compactions;
mod cut_walk;
mod extents;
mod part_decodes;
mod partial_encodes;
mod regions;
mod resizing;
mod shared;

pub use array_layout::{ArrayLayout, Chunk, invalid_indices};
pub use cut_walk::CutWalk;
pub use extents::ChunkExtents;
pub use resizing::beyond;
pub use shared::{ChunkShare, covers_chunk, part_in_chunk};
