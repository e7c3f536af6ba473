//! Laws of fill values, as contracts of functions that do nothing.
ghost use Rattle.std.specs.Prelude.{◌≡◌, ℕ, ◌<◌, [], Some, None, IsSome, slice_index};
ghost use Rattle.std.specs.Prelude.{if◌then◌else◌, option_and_then, option_map};
ghost use Rattle.zarrs_metadata_parts.specs.Extension.{ExtensionData, settings};
ghost use Rattle.zarrs_metadata_parts.specs.Members.{has_only};
ghost use Rattle.zarrs_data_type_kinds.specs.Cell.{fill_cell};
ghost use Rattle.zarrs_data_type_kinds.specs.FillMetadata.{fill_said, fill_written};
ghost use Rattle.zarrs_data_type_kinds.specs.Kind.{kind, optional};
ghost use Rattle.zarrs_data_type_kinds.specs.TypeMetadata.{inner_extension, is_optional_name, kind_of, plain_kind};

use crate::data_type::DataType;
use crate::fill_value::FillValue;

/// Each number of a slice of bytes is below 256.
fn are_bytes(_bytes: &[u8])
    ensures { (i : ℕ) → slice_index _bytes.now i < 256 }
{}

/// The metadata that is written for a fill value of a type reads as this fill value again.
pub fn written_fill_value_is_read(_data_type: &DataType, _fill_value: &FillValue)
    requires { IsSome (fill_cell (kind _data_type.now) _fill_value.now) }
    ensures { fill_said (kind _data_type.now) (fill_written (kind _data_type.now) _fill_value.now)
        ≡ Some _fill_value.now }
{
    are_bytes(_fill_value.as_bytes());
}

/// Metadata says a type level by level: an optional type is that of the inner type that its configuration says; another
/// one is said by its name alone.
pub fn types_are_said_by_levels()
    ensures { (e : ExtensionData) → kind_of e ≡ (if is_optional_name e.name
        then option_map optional (option_and_then kind_of (inner_extension (settings e)))
        else if has_only [] (settings e) then plain_kind e.name else None) }
{}
