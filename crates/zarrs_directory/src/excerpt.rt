//! `Excerpt`: a part of a file that was read.
ghost use Rattle.std.specs.Prelude.{◌≡◌, ◌⊎◌, ℕ, ◌+◌, ◌≤◌, ◌<◌, length, take, drop, true};
ghost use Rattle.std.specs.Prelude.{IfErr, IfOk, IfSome, IsErrOf};

use std::alloc::AllocError;
use zarrs_storage::{Bytes, StorageError};

/// The places that are wanted of a file that has so many bytes: those from `start` on, before `end`.
#[derive(Clone, Copy, Debug)]
pub struct Wanted {
    pub size: u64,
    pub start: u64,
    pub end: u64,
}

/// A part of a file: how many bytes the file has, where the part begins, and its bytes.
#[derive(Drop)]
pub struct Excerpt {
    size: u64,
    start: u64,
    bytes: Bytes,
    ghost inside: { start + length bytes ≤ size },
}

impl Excerpt {
    ghost use Rattle.zarrs_directory.specs.Excerpts.{file_bytes, has_place, IsWhole};

    /// Makes the excerpt that is the whole file.
    pub(crate) fn whole(bytes: Bytes) -> Excerpt
        ensures whole { IsWhole result }
        ensures bytes { result.bytes ≡ bytes }
    {
        let size = bytes.len() as u64;
        let start = 0;
        Excerpt { size, start, bytes }
    }

    /// Makes the excerpt of these bytes from `start` on.
    pub(crate) fn part(size: u64, start: u64, bytes: Bytes) -> Excerpt
        requires { start + length bytes ≤ size }
        ensures size { result.size ≡ size }
        ensures start { result.start ≡ start }
        ensures bytes { result.bytes ≡ bytes }
    {
        Excerpt { size, start, bytes }
    }

    /// Returns the bytes of the part.
    pub(crate) fn into_bytes(self) -> Bytes
        ensures { result ≡ self.bytes }
    {
        self.bytes
    }

    /// Returns how many bytes the file has.
    pub(crate) fn size(&self) -> u64
        ensures { result ≡ length (file_bytes self.now) }
    {
        self.size
    }

    /// Returns the bytes of the file, all of which were read.
    pub(crate) fn whole_bytes(&self) -> Result<Bytes, AllocError>
        requires read { (place : ℕ) → place < length (file_bytes self.now)
            → has_place self.now place ≡ true }
        ensures { IfOk result (λ bytes. bytes ≡ file_bytes self.now) }
    {
        self.bytes.clone()
    }

    /// Returns a range of the file, whose places were read.
    pub(crate) fn range(&self, offset: u64, count: u64) -> Result<Bytes, StorageError>
        requires read { (place : ℕ) → offset ≤ place → place < offset + count
            → has_place self.now place ≡ true }
        ensures ok { IfOk result (λ part. part ≡ take count (drop offset (file_bytes self.now))) }
        ensures passing { length (file_bytes self.now) < offset + count
            → IsErrOf result StorageError.InvalidByteRange }
        ensures refused { IfErr result (λ e. (e ≡ StorageError.OutOfMemory)
            ⊎ ((e ≡ StorageError.InvalidByteRange) × (length (file_bytes self.now) < offset + count))) }
    {
        if offset > self.size || count > self.size - offset {
            return Err(StorageError::InvalidByteRange);
        }
        if count == 0 {
            return Ok(Bytes::new());
        }
        let from = offset - self.start;
        Ok(self.bytes.slice(from as usize..(from + count) as usize)?)
    }

    /// Lends the bytes of the file, if all were read.
    pub(crate) fn lend(&self) -> Option<&[u8]>
        ensures lends { IfSome result (λ bytes. bytes.now ≡ file_bytes self.now) }
        ensures whole { IfSome result (λ bytes. (place : ℕ) → place < length (file_bytes self.now)
            → has_place self.now place ≡ true) }
    {
        if self.start == 0 && self.bytes.len() as u64 == self.size {
            return Some(self.bytes.as_slice());
        }
        None
    }
}
