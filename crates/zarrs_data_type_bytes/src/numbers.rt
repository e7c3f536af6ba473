//! Numbers over boxes.
ghost use Rattle.std.specs.Prelude.{◌≡◌, ◌<◌, [], ◌∷◌, ◌++◌, IfOk, OnOk, length, replicate, slice_index};
ghost use Rattle.zarrs_data_type_bytes.specs.Parts.{TakesAt};
ghost use Rattle.zarrs_subset.specs.Boxes.{position_count};
ghost use Rattle.zarrs_subset.specs.Regions.{box_of};

use crate::boxes::bytes_with_part;
use std::alloc::{AllocError, Global};
use std::marker::Model;
use zarrs_data_type_numbers::convert_to_bytes_vec;
use zarrs_subset::ArraySubset;

/// A number for each position of a box, in row-major order. Each takes 8 bytes, little endian, so that those of a part
/// are put in as cells of one size are. Contracts see the list of the numbers.
#[derive(Debug, Drop)]
pub(crate) struct Numbers {
    bytes: Vec<u8>,
}

impl Model for Numbers {
    ghost use Rattle.std.specs.Prelude.{◌≡◌, ◌%◌, ℕ, List, length};
    ghost use Rattle.zarrs_data_type_bytes.specs.Places.{numbers_in};

    ghost Value = { List ℕ };

    ghost view = { λ n. numbers_in n.bytes.items };

    ghost invariant = { λ n. length n.bytes.items % 8 ≡ 0 };
}

impl Numbers {
    /// These numbers.
    pub(crate) fn new(alloc: Global, numbers: &[u64]) -> Result<Numbers, AllocError>
        ensures { IfOk result (λ made. made ≡ numbers.now) }
    {
        let bytes = convert_to_bytes_vec::<u64>(alloc, numbers)?;
        Ok(Numbers { bytes })
    }

    /// No numbers, with room for `count`.
    pub(crate) fn with_room(alloc: Global, count: usize) -> Result<Numbers, AllocError>
        ensures { IfOk result (λ made. made ≡ []) }
    {
        let bytes = Vec::with_capacity(alloc, count.saturating_mul(8))?;
        Ok(Numbers { bytes })
    }

    /// Appends a number.
    #[inline]
    pub(crate) fn push(&mut self, number: u64) -> Result<(), AllocError>
        ensures { OnOk result (self.new ≡ self.old ++ number ∷ []) }
    {
        self.bytes.extend_from_slice(&number.to_le_bytes())
    }

    /// The number, `count` times.
    pub(crate) fn repeated(alloc: Global, number: u64, count: usize) -> Result<Numbers, AllocError>
        ensures { IfOk result (λ made. made ≡ replicate count number) }
    {
        if number == 0 {
            return Numbers::zeros(alloc, count);
        }
        let numbers = vec![in alloc; number; count]?;
        Numbers::new(alloc, numbers.as_slice())
    }

    /// `count` zeros. More bytes than a `usize` counts fit in no memory.
    fn zeros(alloc: Global, count: usize) -> Result<Numbers, AllocError>
        ensures { IfOk result (λ made. made ≡ replicate count 0) }
    {
        let Some(len) = count.checked_mul(8) else {
            return Err(AllocError);
        };
        let bytes = vec![in alloc; 0; len]?;
        Ok(Numbers { bytes })
    }

    /// How many numbers there are.
    pub(crate) fn len(&self) -> usize
        ensures { result ≡ length self.now }
    {
        self.bytes.len() / 8
    }

    /// The number at this place.
    #[inline]
    pub(crate) fn get(&self, index: usize) -> u64
        requires { index < length self.now }
        ensures { result ≡ slice_index self.now index }
    {
        let (cells, _) = self.bytes.as_slice().as_chunks::<8>();
        u64::from_le_bytes(cells[index])
    }

    /// These numbers, over `held_box`, with those of `part` at the positions that both boxes have.
    pub(crate) fn with_part(
        self,
        held_box: &ArraySubset,
        part: &Numbers,
        part_box: &ArraySubset,
    ) -> Numbers
        requires dimensions { length (box_of held_box.now).start
            ≡ length (box_of part_box.now).start }
        requires held_len { length self ≡ position_count (box_of held_box.now).shape }
        requires part_len { length part.now ≡ position_count (box_of part_box.now).shape }
        ensures len { length result ≡ position_count (box_of held_box.now).shape }
        ensures numbers { TakesAt (box_of held_box.now) (box_of part_box.now)
            (slice_index part.now) (slice_index self) (slice_index result) }
    {
        let bytes = bytes_with_part(self.bytes, 8, held_box, part.bytes.as_slice(), part_box);
        Numbers { bytes }
    }
}
