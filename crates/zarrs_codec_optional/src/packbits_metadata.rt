//! The configuration of the codec `packbits`.
ghost use Rattle.std.specs.Prelude.{◌≡◌};
ghost use Rattle.zarrs_metadata_parts.specs.Extension.{extension_view, settings};
ghost use Rattle.zarrs_codec_optional.specs.PackBitsMetadata.{packbits_said};

use crate::texts::is_text_or_absent;
use zarrs_metadata_parts::MetadataV3;

/// Returns whether the member `padding_encoding` is `none` or absent, and there is no other.
pub fn says_packbits(metadata: &MetadataV3) -> bool
    ensures { result ≡ packbits_said (settings (extension_view metadata.now)) }
{
    metadata.has_only(&["padding_encoding"])
        && is_text_or_absent(metadata.member("padding_encoding"), "none")
}
