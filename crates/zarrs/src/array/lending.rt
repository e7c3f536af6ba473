//! The attributes of an array, lent to be changed.
ghost use Rattle.std.specs.Borrow.{sem};
ghost use Rattle.std.specs.Prelude.{◌≡◌};
ghost use Rattle.serde_json.specs.View.{members_view};
ghost use Rattle.zarrs_metadata.specs.Versions.{metadata_view};
ghost use Rattle.zarrs_creation.specs.Meanings.{attributes_of};
ghost use Rattle.zarrs.specs.Lending.{LendsAttributesIn};

use super::Array;
use serde_json::{Map, Value};
use zarrs_metadata::ArrayMetadata;

/// Lends the attributes of metadata of either version.
fn attributes_in(metadata: &mut ArrayMetadata) -> &mut Map<String, Value>
    ensures* writes_back { sem 𝓛 (LendsAttributesIn metadata.entry result) }
    ensures value { members_view result.now.entries ≡ attributes_of (metadata_view metadata.old) }
{
    match metadata {
        ArrayMetadata::V3(document) => &mut document.attributes,
        ArrayMetadata::V2(document) => &mut document.attributes,
    }
}

impl<TStorage> Array<TStorage> {
    ghost use Rattle.std.specs.Borrow.{sem};
    ghost use Rattle.std.specs.Prelude.{◌≡◌};
    ghost use Rattle.serde_json.specs.View.{members_view};
    ghost use Rattle.zarrs_creation.specs.Meanings.{attributes_of};
    ghost use Rattle.zarrs.specs.Arrays.{metadata_of_array};
    ghost use Rattle.zarrs.specs.Lending.{LendsAttributes};

    /// Lends the user attributes, for a caller that changes them. The store is not asked.
    pub fn attributes_mut(&mut self) -> &mut Map<String, Value>
        ensures* writes_back { sem 𝓛 (LendsAttributes TStorage.row self.entry result) }
        ensures value { members_view result.now.entries
            ≡ attributes_of (metadata_of_array self.old) }
    {
        attributes_in(&mut self.metadata)
    }
}
