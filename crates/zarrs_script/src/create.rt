//! The arrays that `array` lines make.
ghost use Rattle.std.specs.Prelude.{◌≡◌, IfOk};
ghost use Rattle.zarrs_script.specs.Sizes.{HasSizes};
ghost use Rattle.zarrs_script.specs.Sessions.{Describes, Creates, HasParts};

use crate::array::OpenArray;
use crate::command::Creation;
use crate::error::CreationError;
use crate::parts::metadata_of_parts;
use std::alloc::Global;
use std::num::NonZeroU64;
use zarrs::Array;
use zarrs::laws::an_array_is_its_metadata;
use zarrs_chunk_grid::{ChunkShape, GridError, RegularChunkGrid};
use zarrs_codec::{ArrayToBytesCodec, BytesCodec, BytesToBytesCodecs, CodecChain};
use zarrs_data_type::FillValue;
use zarrs_metadata::{ArrayMetadata, ArrayMetadataV3};
use zarrs_options::ArrayCreateError;
use zarrs_storage::MemoryStore;

/// Returns the extents of a chunk, none of which may be 0.
fn chunk_shape_of(alloc: Global, extents: &[u64]) -> Result<ChunkShape, CreationError>
    ensures { HasSizes extents.now result }
{
    let mut sizes = Vec::new(alloc);
    for extent in extents {
        let Some(size) = NonZeroU64::new(*extent) else {
            return Err(CreationError::NoGrid);
        };
        sizes.push(size)?;
    }
    Ok(sizes)
}

/// Makes the metadata of the array, which has the `regular` grid, `default` keys with `/` and the codec `bytes`, little
/// endian, and says these parts.
fn metadata_of(alloc: Global, creation: Creation) -> Result<ArrayMetadataV3, CreationError>
    ensures { Describes creation result }
{
    let Creation {
        shape,
        chunk_shape,
        cell_type,
        fill,
    } = creation;
    let chunk_shape = chunk_shape_of(alloc, &chunk_shape)?;
    let grid = match RegularChunkGrid::new(alloc, shape, chunk_shape) {
        Ok(grid) => grid,
        Err(GridError::OutOfMemory) => return Err(CreationError::OutOfMemory),
        Err(_) => return Err(CreationError::NoGrid),
    };
    let chain = CodecChain::new(
        Vec::new(alloc),
        ArrayToBytesCodec::Bytes(BytesCodec::little()),
        BytesToBytesCodecs,
    );
    let data_type = cell_type.data_type();
    let fill_value = FillValue::new(fill);
    let metadata = metadata_of_parts(alloc, &grid, &chain, &data_type, &fill_value)?;
    Ok(metadata)
}

impl OpenArray {
    /// Returns a new array at the path `/` of a new store in memory, with the `regular` grid, `default` keys with `/`
    /// and the codec `bytes`, made of the metadata that says these parts.
    ///
    /// # Errors
    /// `NoGrid` if the chunk shape has another length than the shape, or an extent 0. `OutOfMemory` may come at any
    /// time.
    pub fn create(alloc: Global, creation: Creation) -> Result<OpenArray, CreationError>
        ensures created { Creates creation result }
        ensures parts { IfOk result (HasParts creation) }
    {
        let cell_type = creation.cell_type;
        let document = metadata_of(alloc, creation)?;
        let metadata = ArrayMetadata::V3(document);
        match Array::new_with_metadata(alloc, MemoryStore::new(alloc), "/", metadata) {
            Ok(array) => {
                an_array_is_its_metadata(&array);
                Ok(OpenArray { cell_type, array })
            }
            Err(error) => match error {
                ArrayCreateError::OutOfMemory => Err(CreationError::OutOfMemory),
                _ => unreachable!(),
            },
        }
    }
}
