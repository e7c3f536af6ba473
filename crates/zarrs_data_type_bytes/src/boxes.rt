//! Parts of bytes that are arrays over boxes.
ghost use Rattle.std.specs.Prelude.{◌≡◌, ◌*◌, ◌<◌, IfOk, length};
ghost use Rattle.zarrs_data_type_bytes.specs.Parts.{ExtractsAt, TakesAt};
ghost use Rattle.zarrs_subset.specs.Boxes.{position_count};
ghost use Rattle.zarrs_subset.specs.Pieces.{piece_at};
ghost use Rattle.zarrs_subset.specs.Regions.{box_of, LiesInBox};

use std::alloc::{AllocError, Global};
use zarrs_subset::{ArraySubset, place_part};

/// These bytes, cells of one size over `held_box`, with the cells of `part` at the positions that both boxes have.
pub fn bytes_with_part(
    bytes: Vec<u8>,
    size: usize,
    held_box: &ArraySubset,
    part: &[u8],
    part_box: &ArraySubset,
) -> Vec<u8>
    requires dimensions { length (box_of held_box.now).start ≡ length (box_of part_box.now).start }
    requires held_len { length bytes.items ≡ position_count (box_of held_box.now).shape * size }
    requires part_len { length part.now ≡ position_count (box_of part_box.now).shape * size }
    ensures len { length result.items ≡ position_count (box_of held_box.now).shape * size }
    ensures cells { TakesAt (box_of held_box.now) (box_of part_box.now) (piece_at size part.now)
        (piece_at size bytes.items) (piece_at size result.items) }
{
    let mut made = bytes;
    place_part(held_box, &mut made, part_box, part, size);
    made
}

/// The cells of one size at the positions of `subset`, of an array over `held_box`.
pub(crate) fn extract_bytes(
    alloc: Global,
    bytes: &[u8],
    size: usize,
    held_box: &ArraySubset,
    subset: &ArraySubset,
) -> Result<Vec<u8>, AllocError>
    requires positive { 0 < size }
    requires held_len { length bytes.now ≡ position_count (box_of held_box.now).shape * size }
    requires inside { LiesInBox (box_of subset.now) (box_of held_box.now) }
    ensures len { IfOk result (λ made. length made.items
        ≡ position_count (box_of subset.now).shape * size) }
    ensures cells { IfOk result (λ made. ExtractsAt (box_of held_box.now) (piece_at size bytes.now)
        (box_of subset.now) (piece_at size made.items)) }
{
    let Ok(count) = subset.num_elements() else {
        unreachable!()
    };
    let mut made = vec![in alloc; 0; count as usize * size]?;
    place_part(subset, &mut made, held_box, bytes, size);
    Ok(made)
}
