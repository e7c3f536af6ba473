//! Which versions of metadata are written, erased and read.

/// Which version of the metadata is written.
#[derive(Clone, Copy, Debug, Default, Drop, PartialEq, Eq)]
pub enum MetadataConvertVersion {
    /// The version of the array.
    #[default]
    Default,
    /// V3.
    V3,
}

/// Which metadata is erased.
#[derive(Clone, Copy, Debug, Default, Drop, PartialEq, Eq)]
pub enum MetadataEraseVersion {
    /// That of the version of the array.
    #[default]
    Default,
    /// That of every version.
    All,
    /// `zarr.json`.
    V3,
    /// `.zarray` and `.zattrs`.
    V2,
}

/// Which metadata an array is opened with.
#[derive(Clone, Copy, Debug, Default, Drop, PartialEq, Eq)]
pub enum MetadataRetrieveVersion {
    /// V3, and V2 if that is absent.
    #[default]
    Default,
    /// V3 alone.
    V3,
    /// V2 alone.
    V2,
}
