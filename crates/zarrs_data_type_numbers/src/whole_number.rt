//! Whole numbers of 8 to 64 bits.
ghost use Rattle.std.specs.Prelude.{◌≡◌, ℕ, ◌%◌, ◌+◌, ◌*◌, ◌<◌, List, All, None, IfOk, IfSome};
ghost use Rattle.std.specs.Prelude.{length, map, slice_index_or, slice_range};
ghost use Rattle.std.specs.List.{flat_map};
ghost use Rattle.zarrs_data_type_numbers.specs.Options.{option_bytes, option_flag};

use crate::little_endian::{LittleEndian, LowestFirst, from_bytes};
use crate::options::{OrZeros, options_from_bytes};
use crate::writing::written;
use std::alloc::{AllocError, Global};

/// The bytes of a number of the type `T`, as an array of their count. It reads and writes lists of numbers.
pub trait NumberBytes<T> {
    // The number of bytes.
    ghost size: { ℕ };

    // The bytes of a number, the lowest first.
    ghost le_bytes: { T → List ℕ };

    // Each number has `size` bytes.
    ghost sized: { (number : T) → length (le_bytes number) ≡ size };

    /// The bytes of the numbers, one after another.
    ///
    /// # Errors
    /// `AllocError`: out of memory.
    fn to_bytes(alloc: Global, numbers: &[T]) -> Result<Vec<u8>, AllocError>
        ensures { IfOk result (λ made. made.items ≡ flat_map le_bytes numbers.now) };

    /// The numbers of these bytes.
    ///
    /// # Errors
    /// `AllocError`: out of memory.
    fn from_bytes(alloc: Global, bytes: &[u8]) -> Result<Vec<T>, AllocError>
        requires { length bytes.now % size ≡ 0 }
        ensures { IfOk result (λ made. flat_map Self.le_bytes made.items ≡ bytes.now) };

    /// The bytes of the numbers, one after another, and as many zeros for each none.
    ///
    /// # Errors
    /// `AllocError`: out of memory.
    fn options_to_bytes(alloc: Global, options: &[Option<T>]) -> Result<Vec<u8>, AllocError>
        ensures { IfOk result (λ made. made.items
            ≡ flat_map (option_bytes Self.size Self.le_bytes) options.now) };

    /// None for each flag that is 0, and for another one the number of the bytes at its place.
    ///
    /// # Errors
    /// `AllocError`: out of memory.
    fn options_from_bytes(
        alloc: Global,
        flags: &[u8],
        bytes: &[u8],
    ) -> Result<Vec<Option<T>>, AllocError>
        requires flags { All (λ flag. flag < 2) flags.now }
        requires cells { length bytes.now ≡ length flags.now * size }
        ensures flags { IfOk result (λ made. map option_flag made.items ≡ flags.now) }
        ensures numbers { IfOk result (λ made. (i : ℕ) → i < length made.items
            → IfSome (slice_index_or made.items i None)
            (λ number. Self.le_bytes number
            ≡ slice_range bytes.now (i * Self.size) (i * Self.size + Self.size))) };
}

impl<T: LittleEndian<N>, const N: usize> NumberBytes<T> for [u8; N] {
    ghost size = { N };

    ghost le_bytes = { T.le_bytes };

    ghost sized = { T.sized };

    fn to_bytes(alloc: Global, numbers: &[T]) -> Result<Vec<u8>, AllocError> {
        written::<LowestFirst, T, N>(alloc, numbers)
    }

    fn from_bytes(alloc: Global, bytes: &[u8]) -> Result<Vec<T>, AllocError> {
        from_bytes::<T, N>(alloc, bytes)
    }

    fn options_to_bytes(alloc: Global, options: &[Option<T>]) -> Result<Vec<u8>, AllocError> {
        written::<OrZeros, Option<T>, N>(alloc, options)
    }

    fn options_from_bytes(
        alloc: Global,
        flags: &[u8],
        bytes: &[u8],
    ) -> Result<Vec<Option<T>>, AllocError> {
        options_from_bytes::<T, N>(alloc, flags, bytes)
    }
}

/// A whole number of 8 to 64 bits. Its bytes are little endian.
pub trait WholeNumber: Copy + Drop {
    /// Its bytes.
    type Bytes: NumberBytes<Self>;
}

impl WholeNumber for u8 {
    type Bytes = [u8; 1];
}

impl WholeNumber for u16 {
    type Bytes = [u8; 2];
}

impl WholeNumber for u32 {
    type Bytes = [u8; 4];
}

impl WholeNumber for u64 {
    type Bytes = [u8; 8];
}

impl WholeNumber for i8 {
    type Bytes = [u8; 1];
}

impl WholeNumber for i16 {
    type Bytes = [u8; 2];
}

impl WholeNumber for i32 {
    type Bytes = [u8; 4];
}

impl WholeNumber for i64 {
    type Bytes = [u8; 8];
}
