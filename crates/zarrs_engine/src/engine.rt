//! An engine: a store, and the layout that says what its values mean.
mod calls;
mod into;
mod partial_writes;
mod reads;
mod region_lists;
mod region_reads;
mod region_writes;
mod resize;
mod writes;

pub use calls::replay;
use std::fmt;
use zarrs_chunk_grid::ChunkGridTraits;
use zarrs_codec_chain::ChainTraits;
use zarrs_data_type::{CellType, DataType, FillValue};
use zarrs_engine_layout::ArrayLayout;
use zarrs_keys::{ChunkKeyEncodingTraits, NodePath};

/// The chunks of one array in a store.
///
/// An array is a function from the positions that its chunks cover to cells: the fill value if a chunk is absent, else
/// what the bytes at its key decode to (Zarr V3 core specification, "Fill value", "Chunk encoding"). Each call says in
/// its contract what it does to that function and to the store.
#[derive(Drop)]
pub struct Engine<S, G: ChunkGridTraits, K: ChunkKeyEncodingTraits, C: ChainTraits> {
    storage: S,
    layout: ArrayLayout<G, K, C>,
}

impl<S, G: ChunkGridTraits, K: ChunkKeyEncodingTraits, C: ChainTraits> Engine<S, G, K, C> {
    ghost use Rattle.std.specs.Borrow.{sem};
    ghost use Rattle.std.specs.Prelude.{◌≡◌, IsSome};
    ghost use Rattle.zarrs_data_type.specs.Kind.{kind};
    ghost use Rattle.zarrs_data_type.specs.Cell.{fill_cell};
    ghost use Rattle.zarrs_engine_calls.specs.Layout.{layout_at};
    ghost use Rattle.zarrs_engine_layout.specs.Layouts.{layout_meaning};
    ghost use Rattle.zarrs_engine.specs.Engine.{layout_of, the_store, path_of, grid_of, keys_of};
    ghost use Rattle.zarrs_engine.specs.Engine.{cell_type_of, chain_of, data_type_of, fill_value_of, HasParts};
    ghost use Rattle.zarrs_engine.specs.Lending.{LendsStore};

    /// Makes an engine over the store, for the array at the path that is cut by the grid, whose chunks lie at the keys of
    /// the encoding and are turned into bytes by the chain. The bytes of the fill value are a value of the data type.
    pub fn new(
        storage: S,
        path: NodePath,
        grid: G,
        keys: K,
        chain: C,
        data_type: DataType,
        fill_value: FillValue,
    ) -> Self
        requires { IsSome (fill_cell (kind data_type) fill_value) }
        ensures layout { layout_of result ≡ layout_at (G.grid grid) path (K.key keys)
            (C.meaning chain) (kind data_type) fill_value }
        ensures storage { the_store result ≡ storage }
        ensures parts { HasParts path grid keys chain data_type fill_value result }
    {
        let layout = ArrayLayout {
            path,
            grid,
            keys,
            chain,
            cell_type: CellType {
                data_type,
                fill_value,
            },
        };
        Engine { storage, layout }
    }

    /// Returns the store.
    pub fn storage(&self) -> &S
        ensures { result.now ≡ the_store self.now }
    {
        &self.storage
    }

    /// Lends the store, for a caller that changes it. The layout stays.
    pub fn storage_mut(&mut self) -> &mut S
        ensures* writes_back { sem 𝓛 (LendsStore S.row G.row K.row C.row G.ChunkGridTraits
            K.ChunkKeyEncodingTraits C.ChainTraits self.entry result) }
        ensures value { result.now ≡ the_store self.old }
    {
        &mut self.storage
    }

    /// Returns what an engine is beside its store.
    pub fn layout(&self) -> &ArrayLayout<G, K, C>
        ensures layout { layout_meaning result.now ≡ layout_of self.now }
        ensures path { result.now.path ≡ path_of self.now }
        ensures grid { result.now.grid ≡ grid_of self.now }
        ensures keys { result.now.keys ≡ keys_of self.now }
        ensures chain { result.now.chain ≡ chain_of self.now }
        ensures cell_type { result.now.cell_type ≡ cell_type_of self.now }
    {
        &self.layout
    }

    /// Returns where the array lies.
    pub fn path(&self) -> &NodePath
        ensures { result.now ≡ path_of self.now }
    {
        &self.layout.path
    }

    /// Returns how the array is cut into chunks.
    pub fn chunk_grid(&self) -> &G
        ensures { result.now ≡ grid_of self.now }
    {
        &self.layout.grid
    }

    /// Returns the number of dimensions, which is the length of an index list.
    pub fn dimensionality(&self) -> usize
        ensures { result ≡ (layout_of self.now).grid.dimensions }
    {
        self.layout.grid.dimensionality()
    }

    /// Returns how the keys of chunks are made.
    pub fn keys(&self) -> &K
        ensures { result.now ≡ keys_of self.now }
    {
        &self.layout.keys
    }

    /// Returns how the cells of a chunk become bytes.
    pub fn chain(&self) -> &C
        ensures { result.now ≡ chain_of self.now }
    {
        &self.layout.chain
    }

    /// Returns the type of the cells.
    pub fn data_type(&self) -> &DataType
        ensures { result.now ≡ data_type_of self.now }
    {
        &self.layout.cell_type.data_type
    }

    /// Returns the value of a cell that was never written.
    pub fn fill_value(&self) -> &FillValue
        ensures { result.now ≡ fill_value_of self.now }
    {
        &self.layout.cell_type.fill_value
    }
}

impl<S, G: ChunkGridTraits + Drop, K: ChunkKeyEncodingTraits, C: ChainTraits> Engine<S, G, K, C> {
    ghost use Rattle.std.specs.Prelude.{◌≡◌};
    ghost use Rattle.zarrs_engine.specs.Engine.{grid_of, GivesGrid};

    /// Replaces how the array is cut into chunks, over as many dimensions. The store is not asked: what it holds is
    /// read by the new grid from now on.
    pub fn set_chunk_grid(&mut self, grid: G)
        requires { (G.grid grid).dimensions ≡ (G.grid (grid_of self.old)).dimensions }
        ensures { GivesGrid grid self.old self.new }
    {
        self.layout.grid = grid;
    }
}

impl<S, G: ChunkGridTraits + Drop, K: ChunkKeyEncodingTraits + Drop, C: ChainTraits + Drop> Engine<
    S,
    G,
    K,
    C,
> {
    ghost use Rattle.std.specs.Prelude.{◌≡◌};
    ghost use Rattle.zarrs_engine.specs.Engine.{the_store};

    /// Returns the store, which is all that is kept.
    pub fn into_storage(self) -> S
        ensures { result ≡ the_store self }
    {
        self.storage
    }
}

/// Prints where the array lies, its data type and its fill value. The store is not printed.
impl<S, G: ChunkGridTraits, K: ChunkKeyEncodingTraits, C: ChainTraits> fmt::Debug
    for Engine<S, G, K, C> {
    fn fmt<W: fmt::Write>(&self, f: &mut fmt::Formatter<W>) -> fmt::Result {
        f.debug_struct("Engine")
            .field("path", &self.layout.path)
            .field("data_type", &self.layout.cell_type.data_type)
            .field("fill_value", &self.layout.cell_type.fill_value)
            .finish_non_exhaustive()
    }
}

ghost use Rattle.zarrs_engine_calls.specs.Layout.{IsLawful};
ghost use Rattle.zarrs_engine.specs.Engine.{layout_of};

/// The layout of every engine is lawful: its grid, its keys and its chain keep their laws, no chunk key is a metadata
/// key, and the fill value is a value of the type.
pub fn layouts_are_lawful<S, G: ChunkGridTraits, K: ChunkKeyEncodingTraits, C: ChainTraits>(
    _engine: &Engine<S, G, K, C>,
)
    ensures { IsLawful (layout_of _engine.now) }
{}
