//! The open array that the lines of a script speak to.
ghost use Rattle.std.specs.Prelude.{◌≡◌, true, false};
ghost use Rattle.serde_json.specs.Written.{has_float};
ghost use Rattle.zarrs_metadata.specs.Versions.{data_of_metadata};
ghost use Rattle.zarrs_data_type.specs.Same.{kind_eq};
ghost use Rattle.zarrs_storage.specs.Memory.{open_state};
ghost use Rattle.zarrs_engine_calls.specs.Canon.{IsCanonical, HasChunksAlone};
ghost use Rattle.zarrs_engine_calls.specs.Content.{value_at};
ghost use Rattle.zarrs.specs.Arrays.{layout_of_array, metadata_of_array, store_of_array};
ghost use Rattle.zarrs_script.specs.CellTypes.{kind_of_cells};

use crate::cell_type::CellType;
use zarrs::Array;
use zarrs_storage::MemoryStore;

/// The open array. Its store has what the array holds, and no other key.
#[derive(Drop)]
pub struct OpenArray {
    /// The type of its cells.
    pub cell_type: CellType,
    /// The array, which owns a store in memory.
    pub array: Array<MemoryStore>,
    ghost typed: { kind_eq (layout_of_array array).kind (kind_of_cells cell_type) ≡ true },
    ghost plain: { has_float (data_of_metadata (metadata_of_array array)) ≡ false },
    ghost canonical: { ∥ IsCanonical (layout_of_array array)
        (value_at (store_of_array open_state array)) ∥₁ },
    ghost alone: { HasChunksAlone (layout_of_array array) (store_of_array open_state array) },
}
