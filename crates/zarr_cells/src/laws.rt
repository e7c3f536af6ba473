//! Laws of the forms of cells. These functions do nothing: their contracts are the facts.
ghost use Rattle.zarr_cells.specs.Laws.{LinesAreReadBack, RawIsReadBack};

/// Cells that are written raw are read back as they were, whatever follows. So are cells that are written as lines, if as
/// many are read. So what `get` writes and `put` reads are the same cells.
pub fn written_cells_are_read_back()
    ensures raw { RawIsReadBack }
    ensures lines { LinesAreReadBack }
{}
