//! Values that are written as bytes, one after another.
ghost use Rattle.std.specs.Prelude.{◌≡◌, ◌+◌, ◌*◌, ◌<◌, ◌≤◌, ◌++◌, ℕ, List, IfOk, OnOk, length, vec_capacity};
ghost use Rattle.std.specs.List.{flat_map};

use std::alloc::{AllocError, Global};

/// A way to write a value in `N` bytes.
pub trait Writing<V, const N: usize> {
    // The bytes of a value.
    ghost written: { V → List ℕ };

    /// The bytes of a value.
    fn write(value: &V) -> [u8; N]
        ensures { result ≡ written value.now };
}

/// How many values are written at a time: few enough that their bytes stay in the processor's cache.
const BLOCK: usize = 1024;

/// The bytes of the values, one after another. A value has at most 8 bytes.
///
/// # Errors
/// `AllocError`: out of memory.
pub fn written<W: Writing<V, N>, V, const N: usize>(
    alloc: Global,
    values: &[V],
) -> Result<Vec<u8>, AllocError>
    requires { N < 9 }
    ensures items { IfOk result (λ made. made.items ≡ flat_map W.written values.now) }
    ensures len { IfOk result (λ made. length made.items ≡ length values.now * N) }
{
    let room = values.len().min(BLOCK);
    let mut left = values;
    let mut made = Vec::with_capacity(alloc, values.len().saturating_mul(N))?;
    let mut block = Vec::with_capacity(alloc, room)?;
    while !left.is_empty() {
        let (values, rest) = left.split_at(left.len().min(room));
        extend_written::<W, V, N>(&mut made, &mut block, values)?;
        left = rest;
    }
    Ok(made)
}

/// Puts the bytes of the values behind the bytes. What the block holds is dropped.
fn extend_written<W: Writing<V, N>, V, const N: usize>(
    bytes: &mut Vec<u8>,
    block: &mut Vec<[u8; N]>,
    values: &[V],
) -> Result<(), AllocError>
    requires small { N < 9 }
    requires room { length values.now ≤ vec_capacity block.old }
    ensures bytes { OnOk result (bytes.new.items ≡ bytes.old.items
        ++ flat_map W.written values.now) }
    ensures len { OnOk result (length bytes.new.items ≡ length bytes.old.items
        + length values.now * N) }
    ensures room { vec_capacity block.new ≡ vec_capacity block.old }
{
    block.clear();
    for value in values {
        block.push_reserved(W::write(value));
    }
    bytes.extend_from_slice(block.as_slice().as_flattened())?;
    Ok(())
}
