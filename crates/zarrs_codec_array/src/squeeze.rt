//! The codec `squeeze` (Zarr extension "squeeze").
ghost use Rattle.std.specs.Prelude.{◌≡◌, IfOk, option_map};
ghost use Rattle.zarrs_codec_array.specs.Arrays.{squeezed};
ghost use Rattle.zarrs_codec_array.specs.Gathered.{encoded_shape};

use std::alloc::{AllocError, Global};

/// The codec `squeeze`: the dimensions of extent 1 go, and the cells keep their order.
#[derive(Clone, Copy, Debug, Drop, PartialEq, Eq)]
pub struct SqueezeCodec;

impl SqueezeCodec {
    /// The shape of the encoded array.
    pub(crate) fn encoded_shape(
        &self,
        alloc: Global,
        shape: &[u64],
    ) -> Result<Option<Vec<u64>>, AllocError>
        ensures { IfOk result (λ made. option_map (λ made. made.items) made
            ≡ encoded_shape squeezed shape.now) }
    {
        let mut made = Vec::new(alloc);
        for extent in shape {
            if *extent != 1 {
                made.push(*extent)?;
            }
        }
        Ok(Some(made))
    }
}
