//! Codecs that make an array of an array: the dimensions in another order, or another shape.
//!
//! Chains use `ArrayToArrayCodec`, which is a `TransposeCodec`, a `ReshapeCodec` or a `SqueezeCodec`.
//! `encoded_shape`, `encode_array` and `decode_array` take a list of them, one after another.
//!
//! `array_meaning` of `specs/ArrayCodecs.antt` gives the `ArrayMeaning` of a codec: the shapes that it takes, the
//! encoded shape, and the cells forward and back. `specs/Arrays.antt` has this record and its law `IsLawfulArray`:
//! decoding returns what was encoded. `specs/Configurations.antt` has the meaning of a configuration
//! (`meaning_of_array_codec`), and `specs/Metadata.antt` the configuration that metadata says (`array_codec_said`).
//! `specs/Orders.antt`, `specs/Transpose.antt` and `specs/Reshape.antt` have the details.
#![tactic(auto)]

mod array;
mod gather;
mod lists;
mod metadata;
mod reshape;
mod squeeze;
mod transpose;

pub use array::{ArrayToArrayCodec, decode_array, encode_array, encoded_shape};
pub use reshape::{ReshapeCodec, ReshapeExtent};
pub use squeeze::SqueezeCodec;
pub use transpose::TransposeCodec;
