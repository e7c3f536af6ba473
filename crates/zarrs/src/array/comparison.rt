//! Arrays that are compared by the bytes of their chunks.
use super::Array;
use std::alloc::Global;
use zarrs_engine::{ArrayError, chunks_equal};
use zarrs_storage::ReadableStorageTraits;
use zarrs_subset::ArraySubsetTraits;

impl<TStorage: ReadableStorageTraits> Array<TStorage> {
    ghost use Rattle.std.specs.Prelude.{◌≡◌, length};
    ghost use Rattle.zarrs_subset.specs.Regions.{positions};
    ghost use Rattle.zarrs_engine_calls.specs.Reach.{MayAskChunks};
    ghost use Rattle.zarrs.specs.Arrays.{layout_of_array, store_of_array};
    ghost use Rattle.zarrs.specs.Outcomes.{ComparesChunks};

    /// Returns whether, for each chunk with indices in the range, both arrays store the same bytes or both store none.
    /// No chunk is decoded. The chunks are asked in row-major order, up to the first one that differs; an empty range
    /// asks nothing. Of two canonical arrays of one grid, data type, fill value and chain it is whether they have equal
    /// cells over the chunks.
    ///
    /// # Errors
    /// E8 for more chunks than a `u64` counts; E7 if one of the stores refuses the key of one of them. E9 may come at
    /// any time.
    pub fn chunks_equal<TStorage2: ReadableStorageTraits, R: ArraySubsetTraits>(
        &self,
        alloc: Global,
        other: &Array<TStorage2>,
        chunks: &R,
    ) -> Result<bool, ArrayError>
        requires dimensions { length (R.region chunks.now).start
            ≡ (layout_of_array self.now).grid.dimensions }
        requires other_dimensions { length (R.region chunks.now).start
            ≡ (layout_of_array other.now).grid.dimensions }
        requires ask { MayAskChunks (layout_of_array self.now) (positions (R.region chunks.now))
            (store_of_array TStorage.state self.now) }
        requires other_ask { MayAskChunks (layout_of_array other.now)
            (positions (R.region chunks.now)) (store_of_array TStorage2.state other.now) }
        ensures { ComparesChunks (layout_of_array self.now) (layout_of_array other.now)
            (store_of_array TStorage.state self.now) (store_of_array TStorage2.state other.now)
            (positions (R.region chunks.now)) result }
    {
        let chunks = chunks.to_array_subset(alloc)?;
        chunks_equal(alloc, &self.engine, &other.engine, &chunks)
    }
}
