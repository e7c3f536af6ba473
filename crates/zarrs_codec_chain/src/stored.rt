//! Bytes that stand one after another in a source.
ghost use Rattle.std.specs.Prelude.{◌≡◌, ◌<◌, ◌^◌, length};
ghost use Rattle.zarrs_codec_leaf.specs.Sources.{IsWindow};

use std::alloc::{AllocError, Global};
use zarrs_codec_leaf::{ByteSource, SourceBytes, Window};
use zarrs_storage::StorageError;

/// Bytes that stand one after another in a source: those of a window.
pub struct Stored<'s, B: ByteSource> {
    pub(crate) source: &'s B,
    pub(crate) window: Window,
    ghost within: { IsWindow window (B.bytes source.now) },
    // A `u64` counts the bytes of the source, so that no place passes it.
    ghost counted: { length (B.bytes source.now) < 2 ^ 64 },
}

impl<B: ByteSource> Clone for Stored<'_, B> {
    ghost use Rattle.std.specs.Prelude.{⊤};

    ghost is_clone = { λ stored copy. copy ≡ stored };

    ghost is_infallible = { λ _. ⊤ };

    fn clone(&self) -> Result<Self, AllocError> {
        Ok(*self)
    }
}

impl<B: ByteSource> Copy for Stored<'_, B> {}

impl<'s, B: ByteSource> Stored<'s, B> {
    ghost use Rattle.std.specs.Prelude.{◌+◌, ◌≤◌, ℕ, IfErr, IfOk, IfSome, slice_range};
    ghost use Rattle.zarrs_codec_leaf.specs.Sources.{RefusesSource, bytes_in};
    ghost use Rattle.zarrs_codec_chain.specs.Stored.{MayReadAll, bytes_of, may_read_at, refuses_of};

    /// The bytes of a window of a source.
    pub fn new(source: &'s B, window: Window) -> Stored<'s, B>
        requires { IsWindow window (B.bytes source.now) }
        ensures source { result.source ≡ source.entry }
        ensures window { result.window ≡ window }
    {
        let _counted = source.size();
        Stored { source, window }
    }

    /// All of them.
    ///
    /// # Errors
    /// What the source says if it refuses; `OutOfMemory`.
    pub fn read(&self, alloc: Global) -> Result<SourceBytes<'s>, StorageError>
        requires { MayReadAll self.now }
        ensures bytes { IfOk result (λ made. bytes_in made ≡ bytes_of self.now) }
        ensures refused { IfErr result (RefusesSource (refuses_of self.now)) }
    {
        self.source.read(alloc, self.window)
    }

    /// All of them, if the source lends them.
    pub fn lent(&self) -> Option<&'s [u8]>
        ensures { IfSome result (λ bytes. bytes.now ≡ bytes_of self.now) }
    {
        let bytes = self.source.lent()?;
        Some(self.window.slice(bytes))
    }

    /// Those from `start` up to `end`.
    pub fn part(&self, start: u64, end: u64) -> Stored<'s, B>
        requires order { start ≤ end }
        requires within { end ≤ length (bytes_of self.now) }
        ensures bytes { bytes_of result ≡ slice_range (bytes_of self.now) start end }
        ensures may_read { (place : ℕ) → may_read_at result place
            ≡ may_read_at self.now (start + place) }
        ensures refuses { refuses_of result ≡ refuses_of self.now }
    {
        Stored {
            source: self.source,
            window: Window {
                offset: self.window.offset + start,
                len: end - start,
            },
        }
    }
}
