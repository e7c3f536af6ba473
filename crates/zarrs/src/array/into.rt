//! Reads of regions into boxes that callers lend, which pass to the engine.
use super::Array;
use std::alloc::Global;
use zarrs_codec::CodecOptions;
use zarrs_data_type::ArrayBytesDecodeIntoTarget;
use zarrs_engine::ArrayError;
use zarrs_storage::ReadableStorageTraits;
use zarrs_subset::ArraySubsetTraits;

impl<TStorage: ReadableStorageTraits> Array<TStorage> {
    ghost use Rattle.zarrs.specs.Outcomes.{MayRetrieveRegion, RetrievesIntoOrRefuses};

    /// Reads the region into the target's box, where its cells are in row-major order. Every byte outside the box
    /// stays.
    ///
    /// # Errors
    /// In this order: E1 for another number of dimensions; E4 for a target of another cell size or depth than the data
    /// type's, of which a variable type has none; E6 for a box of another shape than the region's; E1 for a position
    /// that no chunk covers; then as `retrieve_array_subset`. E9 may come at any time. What the arguments decide is
    /// refused before a byte is written; after another refusal the inside of the box is open.
    pub fn retrieve_array_subset_into<R: ArraySubsetTraits>(
        &self,
        alloc: Global,
        array_subset: &R,
        target: &mut ArrayBytesDecodeIntoTarget<'_, '_, '_>,
    ) -> Result<(), ArrayError>
        requires { MayRetrieveRegion TStorage.state (R.region array_subset.now) self.now }
        ensures { RetrievesIntoOrRefuses TStorage.state (R.region array_subset.now) self.now
            target.old target.new result }
    {
        self.retrieve_array_subset_into_opt(alloc, array_subset, target, &CodecOptions::default())
    }

    /// Does what `retrieve_array_subset_into` does. No option changes what is read.
    ///
    /// # Errors
    /// Those of `retrieve_array_subset_into`.
    pub fn retrieve_array_subset_into_opt<R: ArraySubsetTraits>(
        &self,
        alloc: Global,
        array_subset: &R,
        target: &mut ArrayBytesDecodeIntoTarget<'_, '_, '_>,
        _options: &CodecOptions,
    ) -> Result<(), ArrayError>
        requires { MayRetrieveRegion TStorage.state (R.region array_subset.now) self.now }
        ensures { RetrievesIntoOrRefuses TStorage.state (R.region array_subset.now) self.now
            target.old target.new result }
    {
        let array_subset = array_subset.to_array_subset(alloc)?;
        self.engine
            .retrieve_array_subset_into(alloc, &array_subset, target)
    }
}
