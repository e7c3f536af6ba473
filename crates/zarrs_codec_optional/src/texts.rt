//! Members of a configuration that are texts.
ghost use Rattle.std.specs.Prelude.{◌≡◌, option_map};
ghost use Rattle.serde_json.specs.View.{view};
ghost use Rattle.zarrs_codec_optional.specs.Texts.{is_text, is_text_or_absent};

use serde_json::Value;

/// Returns whether the member is this text or absent.
pub fn is_text_or_absent(member: Option<&Value>, text: &str) -> bool
    ensures { result
        ≡ is_text_or_absent text.now (option_map (λ value. view value.now) member.entry) }
{
    member.is_none() || is_text(member, text)
}

/// Returns whether the member is this text.
pub fn is_text(member: Option<&Value>, text: &str) -> bool
    ensures { result ≡ is_text text.now (option_map (λ value. view value.now) member.entry) }
{
    member
        .and_then(|value| value.as_str())
        .is_some_and(|found| found == text)
}
