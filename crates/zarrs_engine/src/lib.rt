//! The calls of an array over any store, chunk grid, key encoding and chain of codecs.
//!
//! `zarrs` uses `Engine`, a store and an `ArrayLayout`, which has a function for each call. `answer` makes one
//! `Call`, and `replay` a list of them. `ChunkPartialDecoder` and `ChunkPartialEncoder` read and write the parts of
//! one chunk. `chunks_equal` compares the stored bytes of two arrays.
//!
//! `layout_of`, `store_of` and `state_of` of `specs/Engine.antt` say what an engine means and what its store is.
//! `specs/Outcomes.antt` says what each call ends in: what was asked is done or refused, and the layout stays.
//! `specs/Into.antt` has reads into targets, `specs/PartialDecoders.antt` and `specs/PartialEncoders.antt` calls on
//! parts. `specs/Comparisons.antt` has comparisons, and `specs/ReadLaws.antt` the law that reads agree.
#![tactic(auto)]

mod comparison;
mod engine;
pub mod laws;
mod partial_decoder;
mod partial_encoder;

pub use comparison::chunks_equal;
pub use engine::{Engine, layouts_are_lawful, replay};
pub use partial_decoder::ChunkPartialDecoder;
pub use partial_encoder::ChunkPartialEncoder;
pub use zarrs_engine_calls::{ArrayError, Call, Reply};
