//! Options of numbers and their bytes: zeros for none.
ghost use Rattle.std.specs.Prelude.{◌≡◌, ℕ, ◌+◌, ◌*◌, ◌<◌, All, None, IfOk, IfSome, map, length};
ghost use Rattle.std.specs.Prelude.{slice_index_or, slice_range};
ghost use Rattle.zarrs_data_type_numbers.specs.Options.{option_bytes, option_flag};

use crate::little_endian::LittleEndian;
use crate::writing::Writing;
use std::alloc::{AllocError, Global};

/// An option is written as its number, or as zeros.
pub(crate) struct OrZeros;

impl<T: LittleEndian<N>, const N: usize> Writing<Option<T>, N> for OrZeros {
    ghost written = { option_bytes N T.le_bytes };

    fn write(option: &Option<T>) -> [u8; N] {
        match option {
            Some(number) => number.to_le(),
            None => [0; N],
        }
    }
}

/// None if the flag is 0, and else the number of these bytes.
fn option_of<T: LittleEndian<N>, const N: usize>(flag: u8, cell: &[u8; N]) -> Option<T>
    requires { flag < 2 }
    ensures flag { option_flag result ≡ flag }
    ensures number { IfSome result (λ number. T.le_bytes number ≡ cell.now) }
{
    // The number is read whatever the flag is: then many options are made at a time.
    let number = T::from_le(cell);
    if flag == 0 { None } else { Some(number) }
}

/// None for each flag that is 0, and else the number of the bytes at its place.
pub(crate) fn options_from_bytes<T: LittleEndian<N>, const N: usize>(
    alloc: Global,
    flags: &[u8],
    bytes: &[u8],
) -> Result<Vec<Option<T>>, AllocError>
    requires some { 0 < N }
    requires small { N < 9 }
    requires flags { All (λ flag. flag < 2) flags.now }
    requires cells { length bytes.now ≡ length flags.now * N }
    ensures flags { IfOk result (λ made. map option_flag made.items ≡ flags.now) }
    ensures numbers { IfOk result (λ made. (i : ℕ) → i < length made.items
        → IfSome (slice_index_or made.items i None)
        (λ number. T.le_bytes number ≡ slice_range bytes.now (i * N) (i * N + N))) }
{
    let (cells, _) = bytes.as_chunks::<N>();
    let mut options = Vec::with_capacity(alloc, flags.len())?;
    for index in 0..flags.len() {
        options.push_reserved(option_of(flags[index], &cells[index]));
    }
    Ok(options)
}
