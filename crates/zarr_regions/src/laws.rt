//! Laws of regions that are written and stored. These functions do nothing: their contracts are the facts.
ghost use Rattle.zarrs_directory.specs.Directory.{directory_of};
ghost use Rattle.zarr_regions.specs.Laws.{BytesArePutBack, LinesArePutBack, NpyIsPutBack};

use zarr_arrays::Opened;
use zarr_cells::laws::written_cells_are_read_back;

/// Cells that were written of one array, as bytes, as lines or in numpy's format, are stored in another one of their type as
/// they were: what `get` writes and `put` stores are the same cells.
pub fn written_cells_are_put_back(_source: &Opened<'_>, _old: &Opened<'_>, _new: &Opened<'_>)
    ensures bytes { BytesArePutBack (directory_of _source.now.store) _old.now.store _new.now.store }
    ensures lines { LinesArePutBack (directory_of _source.now.store) _old.now.store _new.now.store }
    ensures npy { NpyIsPutBack (directory_of _source.now.store) _old.now.store _new.now.store }
{
    written_cells_are_read_back();
}
