//! Arrays as they are printed.
use super::Array;
use std::fmt;

/// Prints where the array lies, its metadata and its options. The store is not printed.
impl<TStorage> fmt::Debug for Array<TStorage> {
    fn fmt<W: fmt::Write>(&self, f: &mut fmt::Formatter<W>) -> fmt::Result {
        f.debug_struct("Array")
            .field("path", self.engine.path())
            .field("metadata", &self.metadata)
            .field("codec_options", &self.codec_options)
            .field("codec_specific_options", &self.codec_specific_options)
            .field("metadata_options", &self.metadata_options)
            .finish()
    }
}
