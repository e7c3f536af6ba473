//! Codecs that look at cells alone, whatever the shape of the array, `zarrs.optional` among them.
//!
//! `zarrs_codec` uses `PlainCodec`, the list of the codecs of plain cells, and `CellsCodec`, which is one of these or an
//! `OptionalCodec`: a `MaskCodec`, and a `CellsCodec` for what is inside. `codec_of` reads one from metadata.
//! `sharding_parts` reads the configuration of `sharding_indexed`.
//!
//! `specs/PlainCodecs.antt` has the meaning and the metadata of each codec of plain cells. `cells_meaning` of
//! `specs/CellsCodecs.antt` gives the `LeafMeaning` of a codec. `optional_meaning` of `specs/Optional.antt` makes that of
//! `zarrs.optional` from those of its two codecs. `specs/Configurations.antt` has the meaning of a configuration, and
//! `specs/Metadata.antt` what metadata says (`cells_codec_said`). `specs/ShardingMetadata.antt` does so for shards
//! (`sharding_data`).
#![tactic(auto)]

mod bytes_metadata;
mod codec;
mod metadata;
mod optional;
mod packbits_metadata;
mod plain;
mod sharding_configuration;
mod sole;
mod texts;
mod vlen_metadata;

pub use codec::CellsCodec;
pub use metadata::{codec_of, default_cells_codec, named};
pub use optional::{MaskCodec, OptionalCodec};
pub use plain::PlainCodec;
pub use sharding_configuration::{ShardingParts, sharding_metadata, sharding_parts};
