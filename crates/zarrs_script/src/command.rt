//! What the lines of a script ask for.
ghost use Rattle.std.specs.Prelude.{IsSome};
ghost use Rattle.zarrs_data_type.specs.Cell.{fill_cell};
ghost use Rattle.zarrs_script.specs.CellTypes.{kind_of_cells};

use crate::cell_type::CellType;
use crate::names::look_up;
use zarrs_engine::Call;

/// The first word of a line.
#[derive(Clone, Copy)]
pub enum Verb {
    /// `array`
    Array,
    /// `chunk`
    Chunk,
    /// `read`
    Read,
    /// `erase`
    Erase,
    /// `put`
    Put,
    /// `get`
    Get,
    /// `resize`
    Resize,
    /// `keys`
    Keys,
    /// `meta`
    Meta,
}

/// The verbs by their names.
const VERBS: [(&[u8], Verb); 9] = [
    (b"array", Verb::Array),
    (b"chunk", Verb::Chunk),
    (b"read", Verb::Read),
    (b"erase", Verb::Erase),
    (b"put", Verb::Put),
    (b"get", Verb::Get),
    (b"resize", Verb::Resize),
    (b"keys", Verb::Keys),
    (b"meta", Verb::Meta),
];

impl Verb {
    ghost use Rattle.std.specs.Prelude.{◌≡◌};
    ghost use Rattle.zarrs_script.specs.Script.{verb_of};

    /// Returns the verb of this name.
    #[tactic(auto, unfolding(crate::specs::Script::verb_of))]
    pub fn named(name: &[u8]) -> Option<Verb>
        ensures { result ≡ verb_of name.now }
    {
        look_up(&VERBS, name)
    }
}

/// A new array. There may be no such array: the lists are as the line has them.
#[derive(Drop)]
pub struct Creation {
    /// The array's extent along each dimension.
    pub shape: Vec<u64>,
    /// A chunk's extent along each dimension.
    pub chunk_shape: Vec<u64>,
    /// The type of its cells.
    pub cell_type: CellType,
    /// The bytes of the fill value.
    pub fill: Vec<u8>,
    ghost filled: { IsSome (fill_cell (kind_of_cells cell_type) fill.items) },
}

/// What a line asks for.
#[derive(Drop)]
pub enum Command {
    /// Makes an array.
    Array(Creation),
    /// A call of the open array.
    Call(Call),
    /// Lists the keys that are present, and their bytes.
    Keys,
    /// Shows the metadata of the open array.
    Meta,
}
