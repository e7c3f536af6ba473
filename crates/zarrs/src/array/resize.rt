//! Changes of an array's shape.
use super::Array;
use std::alloc::Global;
use zarrs_chunk_grid::ChunkGridTraits;
use zarrs_codec::CodecOptions;
use zarrs_creation::overwrite_shape;
use zarrs_engine::ArrayError;
use zarrs_storage::WritableStorageTraits;
use zarrs_subset::ArrayShape;

impl<TStorage: WritableStorageTraits> Array<TStorage> {
    ghost use Rattle.zarrs_codec.specs.Options.{stores_empty_chunks};
    ghost use Rattle.zarrs.specs.Outcomes.{MayResize, ResizesOrRefuses};

    /// Makes the array's shape this one. Of the chunks of the array as it was, in row-major order, each that has a cell
    /// which is not below the new shape is cut, by one writing call: it is erased if it has no cell below it, else it is
    /// read, and stored with fill in place of what is cut away. The metadata of this array gets the new shape; nothing of
    /// it is stored.
    ///
    /// # Errors
    /// In this order: E10 for another number of dimensions; E28 for a grid that is not `regular`. Then, at one of the
    /// chunks, those of `Engine::resize`. E9 may come at any time before the last chunk is cut. The chunks before that one
    /// are cut then, and no later one, and the array has the shape that it had.
    pub fn resize(
        &mut self,
        alloc: Global,
        shape: ArrayShape,
        options: &CodecOptions,
    ) -> Result<(), ArrayError>
        requires { MayResize TStorage.state shape.items self.old }
        ensures { ResizesOrRefuses TStorage.state (stores_empty_chunks options.now) shape.items
            self.old self.new result }
    {
        self.engine.resize(alloc, shape, options)?;
        overwrite_shape(&mut self.metadata, self.engine.chunk_grid().array_shape());
        Ok(())
    }
}
