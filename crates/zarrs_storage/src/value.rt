//! `StoredValue`: the bytes at one key of a store in memory.
ghost use Rattle.std.specs.Prelude.{◌≡◌, ◌+◌, ◌-◌, ◌≤◌, ◌++◌, length, take, drop};
ghost use Rattle.std.specs.Prelude.{slice_range, replicate, MatchResult, IfOk, OnOk, OnErr};
ghost use Rattle.zarrs_storage.specs.Store.{overwritten};
ghost use Rattle.zarrs_storage.specs.Memory.{held_bytes};

use bytes::{Bytes, BytesMut};
use std::alloc::{AllocError, Global};
use std::marker::Model;
use std::{fmt, mem};

/// The bytes at one key.
#[derive(Drop)]
pub(crate) struct StoredValue {
    held: Held,
}

/// Who has the bytes of a value.
#[derive(Drop)]
pub(crate) enum Held {
    /// The store, and each reply that shares them.
    Shared(Bytes),
    /// The store alone: they were written in place, and no memory was left to count who shares
    /// them.
    Sole(BytesMut),
}

impl Model for StoredValue {
    ghost use Rattle.std.specs.Prelude.{ℕ, List};
    ghost use Rattle.zarrs_storage.specs.Memory.{held_bytes};

    ghost Value = { List ℕ };

    ghost view = { λ value. held_bytes value.held };
}

impl StoredValue {
    /// Stores the bytes, with no copy.
    pub(crate) fn new(bytes: Bytes) -> StoredValue
        ensures { result ≡ bytes }
    {
        StoredValue {
            held: Held::Shared(bytes),
        }
    }

    pub(crate) fn len(&self) -> usize
        ensures { result ≡ length self.now }
    {
        self.as_slice().len()
    }

    pub(crate) fn as_slice(&self) -> &[u8]
        ensures { result.now ≡ self.now }
    {
        match &self.held {
            Held::Shared(bytes) => bytes.as_slice(),
            Held::Sole(buffer) => buffer.as_slice(),
        }
    }

    /// Returns the bytes. They are copied where they cannot be shared.
    #[inline(always)]
    pub(crate) fn share(&self, alloc: Global) -> Result<Bytes, AllocError>
        ensures { IfOk result (λ bytes. bytes ≡ self.now) }
    {
        match &self.held {
            Held::Shared(bytes) => bytes.clone(),
            Held::Sole(buffer) => Bytes::copy_from_slice(alloc, buffer.as_slice()),
        }
    }

    /// Returns the bytes from `start` to before `end`. They are copied where they cannot be shared.
    pub(crate) fn share_part(
        &self,
        alloc: Global,
        start: usize,
        end: usize,
    ) -> Result<Bytes, AllocError>
        requires { (start ≤ end) × (end ≤ length self.now) }
        ensures { IfOk result (λ part. part ≡ slice_range self.now start end) }
    {
        match &self.held {
            Held::Shared(bytes) => bytes.slice(start..end),
            Held::Sole(buffer) => Bytes::copy_from_slice(alloc, &buffer.as_slice()[start..end]),
        }
    }

    /// Writes the bytes from `offset` on: in place if nobody shares the value, or else into a copy.
    /// If out of memory, the value is what it was.
    pub(crate) fn overwrite(
        &mut self,
        alloc: Global,
        offset: usize,
        bytes: &[u8],
    ) -> Result<(), AllocError>
        requires { offset + length bytes.now ≤ usize.MAX }
        ensures ok { OnOk result (self.new ≡ overwritten self.old offset bytes.now) }
        ensures kept { OnErr result (self.new ≡ self.old) }
    {
        let held = mem::replace(&mut self.held, Held::Shared(Bytes::new()));
        let (held, outcome) = held.overwrite(alloc, offset, bytes);
        self.held = held;
        outcome
    }
}

impl fmt::Debug for StoredValue {
    fn fmt<W: fmt::Write>(&self, f: &mut fmt::Formatter<W>) -> fmt::Result {
        fmt::Debug::fmt(self.as_slice(), f)
    }
}

impl Held {
    /// Returns the bytes that were held, now with these written into them, or as they were.
    fn overwrite(self, alloc: Global, offset: usize, bytes: &[u8]) -> (Held, Result<(), AllocError>)
        requires { offset + length bytes.now ≤ usize.MAX }
        ensures ok { OnOk result.1 (held_bytes result.0
            ≡ overwritten (held_bytes self) offset bytes.now) }
        ensures kept { OnErr result.1 (held_bytes result.0 ≡ held_bytes self) }
    {
        match self.try_into_mut() {
            Ok(mut buffer) => {
                let outcome = write_at(&mut buffer, offset, bytes);
                (Held::from_mut(buffer), outcome)
            }
            Err(shared) => match copy_with(alloc, shared.as_slice(), offset, bytes) {
                Ok(copy) => (Held::from_mut(BytesMut::from_vec(copy)), Ok(())),
                Err(error) => (Held::Shared(shared), Err(error)),
            },
        }
    }

    /// Returns the bytes to be written in place, if nobody else shares them.
    fn try_into_mut(self) -> Result<BytesMut, Bytes>
        ensures { MatchResult result (λ buffer. buffer.items ≡ held_bytes self)
            (λ shared. shared ≡ held_bytes self) }
    {
        match self {
            Held::Shared(bytes) => bytes.try_into_mut(),
            Held::Sole(buffer) => Ok(buffer),
        }
    }

    /// Lets the bytes be shared, if there is memory to count who does.
    fn from_mut(buffer: BytesMut) -> Held
        ensures { held_bytes result ≡ buffer.items }
    {
        match buffer.freeze() {
            Ok(bytes) => Held::Shared(bytes),
            Err(refused) => Held::Sole(refused.value),
        }
    }
}

/// Returns a copy of the value with these bytes in it, from `offset` on.
fn copy_with(
    alloc: Global,
    value: &[u8],
    offset: usize,
    bytes: &[u8],
) -> Result<Vec<u8>, AllocError>
    requires { offset + length bytes.now ≤ usize.MAX }
    ensures { IfOk result (λ copy. copy.items ≡ overwritten value.now offset bytes.now) }
{
    let end = offset + bytes.len();
    let mut copy = Vec::with_capacity(alloc, value.len().max(end))?;
    copy.extend_from_slice(&value[..value.len().min(offset)])?;
    copy.resize(offset, 0)?;
    copy.extend_from_slice(bytes)?;
    copy.extend_from_slice(&value[value.len().min(end)..])?;
    Ok(copy)
}

/// Writes the bytes from `offset` on, in place.
fn write_at(buffer: &mut BytesMut, offset: usize, bytes: &[u8]) -> Result<(), AllocError>
    requires { offset + length bytes.now ≤ usize.MAX }
    ensures ok { OnOk result (buffer.new.items
        ≡ overwritten buffer.old.items offset bytes.now) }
    ensures kept { OnErr result (buffer.new.items ≡ buffer.old.items) }
{
    make_room(buffer, offset, offset + bytes.len())?;
    write_reserved(buffer, offset, bytes);
    Ok(())
}

/// Fills up to `offset` with zeros, and makes room up to `end`.
fn make_room(buffer: &mut BytesMut, offset: usize, end: usize) -> Result<(), AllocError>
    ensures gap { OnOk result (buffer.new.items
        ≡ buffer.old.items ++ replicate (offset - length buffer.old.items) 0) }
    ensures room { OnOk result (end ≤ length buffer.new.items + buffer.new.spare) }
    ensures kept { OnErr result (buffer.new.items ≡ buffer.old.items) }
{
    let len = buffer.len();
    buffer.reserve(end.saturating_sub(len))?;
    buffer.resize(len.max(offset), 0)
}

/// Writes the bytes from `offset` on, in the room that there is.
fn write_reserved(buffer: &mut BytesMut, offset: usize, bytes: &[u8])
    requires start { offset ≤ length buffer.old.items }
    requires room { offset + length bytes.now ≤ length buffer.old.items + buffer.old.spare }
    ensures { buffer.new.items ≡ take offset buffer.old.items ++ bytes.now
        ++ drop (offset + length bytes.now) buffer.old.items }
{
    let inside = bytes.len().min(buffer.len() - offset);
    let (front, tail) = bytes.split_at(inside);
    buffer.as_mut_slice()[offset..offset + inside].copy_from_slice(front);
    buffer.extend_reserved(tail);
}
