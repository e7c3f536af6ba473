//! What a source of bytes is, and slices as sources.
ghost use Rattle.std.specs.Prelude.{◌≡◌, ℕ, Bool, List, false, true, length, IfOk, IfErr, IfSome};
ghost use Rattle.zarrs_codec_leaf.specs.Sources.{IsWindow, LendsBytes, MayReadPlaces, RefusesSource};
ghost use Rattle.zarrs_codec_leaf.specs.Sources.{bytes_in, window_bytes};

use bytes::Bytes;
use std::alloc::Global;
use zarrs_storage::StorageError;

/// Bytes that a source returns: lent by it, or shared with what holds them. They are not copied.
#[derive(Debug, Drop)]
pub enum SourceBytes<'a> {
    /// Bytes that the source lends.
    Lent(&'a [u8]),
    /// Bytes that are shared with a store.
    Shared(Bytes),
}

impl<'a> SourceBytes<'a> {
    /// The bytes.
    pub fn as_slice(&self) -> &[u8]
        ensures { result.now ≡ bytes_in self.now }
    {
        match self {
            SourceBytes::Lent(bytes) => bytes,
            SourceBytes::Shared(bytes) => bytes,
        }
    }
}

/// Some bytes of a source, one after another.
#[derive(Clone, Copy, Debug, Drop, PartialEq, Eq)]
pub struct Window {
    /// The place of the first of them.
    pub offset: u64,
    /// How many there are.
    pub len: u64,
}

impl Window {
    /// The bytes of the window, out of all of them.
    pub fn slice(self, bytes: &[u8]) -> &[u8]
        requires { IsWindow self bytes.now }
        ensures { result.now ≡ window_bytes self bytes.now }
    {
        let start = self.offset as usize;
        let end = start + self.len as usize;
        &bytes[start..end]
    }
}

/// Bytes that are read range by range. Reading changes nothing.
pub trait ByteSource {
    /// All its bytes.
    ghost bytes: { Self → List ℕ };
    /// Whether it refuses to be read now.
    ghost refuses: { Self → Bool };
    /// The places of its bytes that may be read.
    ghost may_read: { Self → ℕ → Bool };

    /// The number of its bytes. None of them is read.
    fn size(&self) -> u64
        ensures { result ≡ length (bytes self.now) };

    /// Lends all its bytes, if it has them at hand and nothing keeps them from being read. `None` says nothing about
    /// them, and is the default.
    fn lent(&self) -> Option<&[u8]>
        ensures lends { IfSome result (λ lent. LendsBytes (bytes self.now) (may_read self.now)
            lent.now) }
    {
        None
    }

    /// The bytes of a window.
    ///
    /// # Errors
    /// What the source says if it refuses; `OutOfMemory`.
    fn read(&self, alloc: Global, window: Window) -> Result<SourceBytes<'_>, StorageError>
        requires within { IsWindow window (bytes self.now) }
        requires may_read { MayReadPlaces (may_read self.now) window.offset window.len }
        ensures bytes { IfOk result (λ made. bytes_in made ≡ window_bytes window (bytes self.now)) }
        ensures refused { IfErr result (RefusesSource (refuses self.now)) };
}

/// A slice, of which each byte may be read.
#[derive(Clone, Copy, Debug, Drop)]
pub struct SliceSource<'a> {
    /// The bytes.
    pub bytes: &'a [u8],
}

impl<'a> ByteSource for SliceSource<'a> {
    ghost bytes = { λ source. source.bytes.now };

    ghost refuses = { λ _. false };

    ghost may_read = { λ _ _. true };

    fn size(&self) -> u64 {
        self.bytes.len() as u64
    }

    fn lent(&self) -> Option<&[u8]> {
        Some(self.bytes)
    }

    fn read(&self, _alloc: Global, window: Window) -> Result<SourceBytes<'_>, StorageError> {
        Ok(SourceBytes::Lent(window.slice(self.bytes)))
    }
}
