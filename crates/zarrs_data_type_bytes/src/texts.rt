//! Bytes of texts.
ghost use Rattle.std.specs.Prelude.{◌≡◌, nat_lt};
ghost use Rattle.std.specs.List.{list_all};
ghost use Rattle.std.specs.Str.{is_utf8};

/// Whether each byte is below 128. It never stops early, so that the compiler tests many bytes at a time.
pub(crate) fn are_ascii(bytes: &[u8]) -> bool
    ensures { result ≡ list_all (λ byte. nat_lt byte 128) bytes.now }
{
    let mut ascii = true;
    for byte in bytes {
        ascii &= *byte < 128;
    }
    ascii
}

/// Whether the bytes are UTF-8.
pub(crate) fn is_text(bytes: &[u8]) -> bool
    ensures { result ≡ is_utf8 bytes.now }
{
    str::from_utf8(bytes).is_ok()
}
