//! Laws of arrays and of their metadata. These functions do nothing: their contracts are the facts.
ghost use Rattle.std.specs.Prelude.{◌≡◌, Ok};
ghost use Rattle.zarrs_engine_calls.specs.Layout.{IsLawful};
ghost use Rattle.zarrs_creation.specs.Meanings.{creation};
ghost use Rattle.zarrs.specs.Layouts.{layout_meant};
ghost use Rattle.zarrs.specs.Laws.{WrittenMetadataOpens, NormalMetadataSaysTheSame};
ghost use Rattle.zarrs.specs.Laws.{ConvertedMetadataSaysTheSame, ShownMetadataSaysTheSame};
ghost use Rattle.zarrs.specs.Laws.{MetadataCallsLeaveContent, CallsLeaveMetadata};
ghost use Rattle.zarrs.specs.OpeningReach.{OpeningsDependOnTheReach};
ghost use Rattle.zarrs.specs.Counts.{StoringCounts, ErasingCounts, UpgradingCounts};
ghost use Rattle.zarrs.specs.Upgrade.{UpgradesOpen, UpgradeCallsOpen, UpgradesLeaveContent, UpgradeCallsLeaveContent};
ghost use Rattle.zarrs.specs.Arrays.{metadata_of_array, meaning_of_array, layout_of_array, path_of_array};

use crate::array::Array;
pub use zarrs_chunk_grid::laws::{
    box_of_a_chunk, chunk_of_a_position, chunk_range_fills_a_box, chunks_share_no_position,
    covered_positions, grid_of_its_configuration, metadata_describes_the_configuration,
};
pub use zarrs_codec::laws::{
    chains_are_lawful, codecs_are_said_by_levels, sole_shardings_make_shards,
};
pub use zarrs_data_type_kinds::laws::{types_are_said_by_levels, written_fill_value_is_read};
pub use zarrs_engine::laws::{
    accepted_shape_changes, an_array_is_one_function, answers_depend_on_the_reach,
    canonical_chunks_are_compact, canonical_maps_are_one, canonical_parts_are_maps,
    canonical_stores_are_compact, canonical_stores_are_their_map, canonical_stores_decode,
    compactions_keep_content, comparison_is_content, content_is_bytes, course_counts_agree,
    course_read_after_store, course_store_after_read, courses_agree, courses_keep_canon,
    courses_keep_decoding, courses_keep_other_keys, courses_keep_reach, cuts_are_right,
    disjoint_events_agree, disjoint_writes_agree, empty_stores_are_canonical,
    empty_stores_are_fill, equal_counts_agree, event_parts_make_the_region,
    event_reads_of_decoding_chunks, events_count, parts_make_the_region, read_after_store,
    reads_agree, refused_shape_changes, runs_are_courses, same_chunks_have_same_cells,
    shape_changes_keep_outside, shards_compact_to_their_encoding, store_after_read,
    target_reads_depend_on_places, writes_keep_canon, writes_keep_decoding,
};
pub use zarrs_keys::{paths_are_names, paths_keep_keys_lawful, unrelated_paths_share_no_key};
pub use zarrs_subset::laws::{
    boxes_hold_along_each_dimension, parts_lie_in_their_chunks, positions_are_row_major,
    shifted_boxes_hold_shifted_positions,
};

/// The parts of an array are those that its metadata says, and it lies in its store as they mean at its path. So two
/// arrays at one path whose metadata says the same parts lie in the same way. Its layout is lawful, as the laws of steps
/// and of runs ask.
pub fn an_array_is_its_metadata<TStorage>(_array: &Array<TStorage>)
    ensures parts { creation (metadata_of_array _array.now) ≡ Ok (meaning_of_array _array.now) }
    ensures layout { layout_of_array _array.now
        ≡ layout_meant (path_of_array _array.now) (meaning_of_array _array.now) }
    ensures lawful { IsLawful (layout_of_array _array.now) }
{}

/// What was written for an array opens again, by the version that was written.
pub fn written_metadata_opens()
    ensures { WrittenMetadataOpens }
{}

/// Metadata and its normal form, in which an empty configuration is none, say the same parts.
pub fn normal_metadata_says_the_same()
    ensures { NormalMetadataSaysTheSame }
{}

/// V2 metadata and its V3 document say the same parts.
pub fn converted_metadata_says_the_same()
    ensures { ConvertedMetadataSaysTheSame }
{}

/// Metadata that is shown by options, as it is written, says the parts of the array. So what was written for an array
/// opens in its layout, by `written_metadata_opens`.
pub fn shown_metadata_says_the_same()
    ensures { ShownMetadataSaysTheSame }
{}

/// Storing and erasing the metadata of an array, accepted or refused, leaves its content.
pub fn metadata_calls_leave_content()
    ensures { MetadataCallsLeaveContent }
{}

/// If they are accepted, none of their writing calls fails: storing the metadata makes one of V3 and two of V2, erasing it
/// one to three, by the version, and an upgrade three of V2 and none of V3.
pub fn metadata_calls_count()
    ensures stores { StoringCounts }
    ensures erases { ErasingCounts }
    ensures upgrades { UpgradingCounts }
{}

/// Calls on chunks and regions, accepted or refused, leave the values at the keys of the metadata.
pub fn calls_leave_metadata()
    ensures { CallsLeaveMetadata }
{}

/// After each front of an upgrade from V2 to V3 an array of the same parts opens at its path, of V2 metadata before the
/// first writing call, of V3 metadata after it. So one opens in the state that an upgrade leaves, accepted or refused.
pub fn upgrades_open()
    ensures fronts { UpgradesOpen }
    ensures calls { UpgradeCallsOpen }
{}

/// No front of an upgrade changes a cell of the array, and no upgrade does, accepted or refused.
pub fn upgrades_leave_content()
    ensures fronts { UpgradesLeaveContent }
    ensures calls { UpgradeCallsLeaveContent }
{}

/// What opens at a path in one store, or why nothing does, is so in any other that agrees with it at the keys that the
/// metadata of the version may have there.
pub fn openings_depend_on_the_reach()
    ensures { OpeningsDependOnTheReach }
{}
