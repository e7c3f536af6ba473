//! Lists of whole numbers from bytes and to bytes, little endian.
ghost use Rattle.std.specs.Prelude.{◌≡◌, ◌%◌, IfOk, length};
ghost use Rattle.std.specs.List.{flat_map};

use crate::whole_number::{NumberBytes, WholeNumber};
use std::alloc::{AllocError, Global};

/// The numbers of these bytes.
///
/// # Errors
/// `AllocError`: out of memory.
pub fn convert_from_bytes_slice<T: WholeNumber>(
    alloc: Global,
    bytes: &[u8],
) -> Result<Vec<T>, AllocError>
    requires { length bytes.now % T.Bytes.size ≡ 0 }
    ensures { IfOk result (λ numbers. flat_map T.Bytes.le_bytes numbers.items ≡ bytes.now) }
{
    T::Bytes::from_bytes(alloc, bytes)
}

/// The numbers of these bytes.
///
/// # Errors
/// `AllocError`: out of memory.
pub fn transmute_from_bytes_vec<T: WholeNumber>(
    alloc: Global,
    bytes: Vec<u8>,
) -> Result<Vec<T>, AllocError>
    requires { length bytes.items % T.Bytes.size ≡ 0 }
    ensures { IfOk result (λ numbers. flat_map T.Bytes.le_bytes numbers.items ≡ bytes.items) }
{
    T::Bytes::from_bytes(alloc, bytes.as_slice())
}

/// The bytes of these numbers.
///
/// # Errors
/// `AllocError`: out of memory.
pub fn convert_to_bytes_vec<T: WholeNumber>(
    alloc: Global,
    numbers: &[T],
) -> Result<Vec<u8>, AllocError>
    ensures { IfOk result (λ bytes. bytes.items ≡ flat_map T.Bytes.le_bytes numbers.now) }
{
    T::Bytes::to_bytes(alloc, numbers)
}

/// The bytes of these numbers.
///
/// # Errors
/// `AllocError`: out of memory.
pub fn transmute_to_bytes_vec<T: WholeNumber>(
    alloc: Global,
    numbers: Vec<T>,
) -> Result<Vec<u8>, AllocError>
    ensures { IfOk result (λ bytes. bytes.items ≡ flat_map T.Bytes.le_bytes numbers.items) }
{
    T::Bytes::to_bytes(alloc, numbers.as_slice())
}

/// The bytes of these numbers.
///
/// # Errors
/// `AllocError`: out of memory.
pub fn transmute_to_bytes<T: WholeNumber>(
    alloc: Global,
    numbers: &[T],
) -> Result<Vec<u8>, AllocError>
    ensures { IfOk result (λ bytes. bytes.items ≡ flat_map T.Bytes.le_bytes numbers.now) }
{
    T::Bytes::to_bytes(alloc, numbers)
}
