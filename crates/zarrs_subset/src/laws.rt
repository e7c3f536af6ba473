//! Laws of boxes, as contracts of functions that do nothing.
ghost use Rattle.std.specs.Prelude.{◌≡◌, ◌↔◌, ℕ, List, Some, length, slice_get};
ghost use Rattle.zarrs_subset.specs.Boxes.{offset_by};
ghost use Rattle.zarrs_subset.specs.Regions.{Box, Holds, InBox, IsLong, LiesInShape, place_in};
ghost use Rattle.zarrs_subset.specs.Regions.{positions, shifted_box};

/// The list of the positions of a box has each of them once, at its row-major number, and no others.
pub fn positions_are_row_major()
    ensures { (box : Box) (position : List ℕ) (number : ℕ) → IsLong box
        → (slice_get (positions box) number ≡ Some position)
        ↔ (Holds box position × (number ≡ place_in box position)) }
{}

/// A position lies in a box if and only if it does so in each dimension.
pub fn boxes_hold_along_each_dimension()
    ensures { (box : Box) (position : List ℕ) → IsLong box → (Holds box position) ↔ InBox box
        position }
{}

/// The positions of a shifted box are those of the box, with the offset added.
pub fn shifted_boxes_hold_shifted_positions()
    ensures { (box : Box) (offset position : List ℕ) → IsLong box
        → length offset ≡ length box.start → length position ≡ length box.start
        → (Holds (shifted_box box offset) (offset_by offset position)) ↔ Holds box position }
{}

/// A part that lies in the shape of its chunk lies in the chunk once it is shifted by the chunk's start.
pub fn parts_lie_in_their_chunks()
    ensures { (chunk part : Box) (position : List ℕ) → IsLong chunk → IsLong part
        → LiesInShape part chunk.shape
        → Holds (shifted_box part chunk.start) position → Holds chunk position }
{}
