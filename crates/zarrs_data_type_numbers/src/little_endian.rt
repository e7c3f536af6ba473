//! A number and its bytes, the lowest byte first.
ghost use Rattle.std.specs.Prelude.{◌≡◌, ℕ, ◌%◌, ◌<◌, List, [], ◌∷◌, IfOk, length, refl, slice_index};
ghost use Rattle.std.specs.Int.{w8, w16, w32, w64, cast_unsigned, to_le_bytes};
ghost use Rattle.std.specs.List.{flat_map};
ghost use Rattle.std.proofs.Common.{lit≤};

use crate::writing::Writing;
use std::alloc::{AllocError, Global};

/// A number of `N` bytes.
pub(crate) trait LittleEndian<const N: usize>: Copy + Drop {
    // Its bytes, the lowest first.
    ghost le_bytes: { Self → List ℕ };

    // They are at most 8.
    ghost width: { (0 < N) × (N < 9) };

    // Each number has them.
    ghost sized: { (number : Self) → length (le_bytes number) ≡ N };

    fn to_le(self) -> [u8; N]
        ensures { result ≡ le_bytes self };

    fn from_le(cell: &[u8; N]) -> Self
        ensures { Self.le_bytes result ≡ cell.now };
}

/// A number is written as its bytes, the lowest first.
pub(crate) struct LowestFirst;

impl<T: LittleEndian<N>, const N: usize> Writing<T, N> for LowestFirst {
    ghost written = { T.le_bytes };

    fn write(number: &T) -> [u8; N] {
        number.to_le()
    }
}

/// The numbers of these bytes.
pub(crate) fn from_bytes<T: LittleEndian<N>, const N: usize>(
    alloc: Global,
    bytes: &[u8],
) -> Result<Vec<T>, AllocError>
    requires some { 0 < N }
    requires small { N < 9 }
    requires whole { length bytes.now % N ≡ 0 }
    ensures { IfOk result (λ made. flat_map T.le_bytes made.items ≡ bytes.now) }
{
    let (cells, _) = bytes.as_chunks::<N>();
    let mut numbers = Vec::with_capacity(alloc, cells.len())?;
    for cell in cells {
        numbers.push_reserved(T::from_le(cell));
    }
    Ok(numbers)
}

impl LittleEndian<1> for u8 {
    ghost le_bytes = { λ x. x ∷ [] };

    ghost width = { (lit≤ tt, lit≤ tt) };

    ghost sized = { λ number. refl };

    fn to_le(self) -> [u8; 1] {
        self.to_le_bytes()
    }

    fn from_le(cell: &[u8; 1]) -> u8 {
        u8::from_le_bytes(*cell)
    }
}

impl LittleEndian<2> for u16 {
    ghost le_bytes = { λ x. to_le_bytes w16 x };

    ghost width = { (lit≤ tt, lit≤ tt) };

    ghost sized = { λ number. refl };

    fn to_le(self) -> [u8; 2] {
        self.to_le_bytes()
    }

    fn from_le(cell: &[u8; 2]) -> u16 {
        u16::from_le_bytes(*cell)
    }
}

impl LittleEndian<4> for u32 {
    ghost le_bytes = { λ x. to_le_bytes w32 x };

    ghost width = { (lit≤ tt, lit≤ tt) };

    ghost sized = { λ number. refl };

    fn to_le(self) -> [u8; 4] {
        self.to_le_bytes()
    }

    fn from_le(cell: &[u8; 4]) -> u32 {
        u32::from_le_bytes(*cell)
    }
}

impl LittleEndian<8> for u64 {
    ghost le_bytes = { λ x. to_le_bytes w64 x };

    ghost width = { (lit≤ tt, lit≤ tt) };

    ghost sized = { λ number. refl };

    fn to_le(self) -> [u8; 8] {
        self.to_le_bytes()
    }

    fn from_le(cell: &[u8; 8]) -> u64 {
        u64::from_le_bytes(*cell)
    }
}

impl LittleEndian<1> for i8 {
    ghost le_bytes = { λ x. cast_unsigned w8 x ∷ [] };

    ghost width = { (lit≤ tt, lit≤ tt) };

    ghost sized = { λ number. refl };

    fn to_le(self) -> [u8; 1] {
        self.to_le_bytes()
    }

    fn from_le(cell: &[u8; 1]) -> i8 {
        i8::from_le_bytes(*cell)
    }
}

impl LittleEndian<2> for i16 {
    ghost le_bytes = { λ x. to_le_bytes w16 (cast_unsigned w16 x) };

    ghost width = { (lit≤ tt, lit≤ tt) };

    ghost sized = { λ number. refl };

    fn to_le(self) -> [u8; 2] {
        self.to_le_bytes()
    }

    fn from_le(cell: &[u8; 2]) -> i16 {
        i16::from_le_bytes(*cell)
    }
}

impl LittleEndian<4> for i32 {
    ghost le_bytes = { λ x. to_le_bytes w32 (cast_unsigned w32 x) };

    ghost width = { (lit≤ tt, lit≤ tt) };

    ghost sized = { λ number. refl };

    fn to_le(self) -> [u8; 4] {
        self.to_le_bytes()
    }

    fn from_le(cell: &[u8; 4]) -> i32 {
        i32::from_le_bytes(*cell)
    }
}

impl LittleEndian<8> for i64 {
    ghost le_bytes = { λ x. to_le_bytes w64 (cast_unsigned w64 x) };

    ghost width = { (lit≤ tt, lit≤ tt) };

    ghost sized = { λ number. refl };

    fn to_le(self) -> [u8; 8] {
        self.to_le_bytes()
    }

    fn from_le(cell: &[u8; 8]) -> i64 {
        i64::from_le_bytes(*cell)
    }
}
