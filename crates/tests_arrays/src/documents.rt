//! Arrays by their metadata.
use anyhow::Result;
use std::alloc::Global;
use zarrs::{
    Array, ArrayError, ArrayMetadata, ArrayMetadataOptions, ArrayMetadataV3, ArraySubset,
    MemoryStore, MetadataConvertVersion,
};

/// An array that is made of the text of its document, which is then in its store.
pub fn create_array(
    alloc: Global,
    storage: MemoryStore,
    path: &str,
    document: &[u8],
) -> Result<Array<MemoryStore>> {
    let metadata = ArrayMetadata::V3(ArrayMetadataV3::from_slice(alloc, document)?);
    let mut array = Array::new_with_metadata(alloc, storage, path, metadata)?;
    array.store_metadata(alloc)?;
    Ok(array)
}

/// The numbers of a region of the array of bytes whose document is in the store.
pub fn read_region_at(
    alloc: Global,
    storage: MemoryStore,
    path: &str,
    region: &ArraySubset,
) -> Result<Vec<u8>> {
    let array = Array::open(alloc, storage, path)?;
    let numbers: Result<Vec<u8>, ArrayError> = array.retrieve_array_subset(alloc, region);
    drop(array);
    Ok(numbers?)
}

/// The metadata as compact text.
fn text_of(alloc: Global, metadata: &ArrayMetadata) -> Result<String> {
    let document = metadata.to_value(alloc)?;
    Ok(document.to_string(alloc)?)
}

/// The V3 document of the array, as compact text.
fn text_in_v3(alloc: Global, array: &Array<MemoryStore>) -> Result<String> {
    let options = ArrayMetadataOptions::default().with_metadata_convert_version(
        MetadataConvertVersion::V3,
    );
    let metadata = array.metadata_opt(alloc, &options)?;
    let text = text_of(alloc, &metadata);
    drop(metadata);
    text
}

/// The V3 document of the array in the store, of whichever version its metadata is, as compact text.
pub fn v3_text(alloc: Global, storage: MemoryStore, path: &str) -> Result<String> {
    let array = Array::open(alloc, storage, path)?;
    let text = text_in_v3(alloc, &array);
    drop(array);
    text
}
