//! Laws of steps, of runs and of canonical stores, as contracts of functions that do nothing.
ghost use Rattle.zarrs_engine_calls.specs.Laws.{AcceptedShapeChanges, CanonicalChunksAreCompact, CanonicalMapsAreOne};
ghost use Rattle.zarrs_engine_calls.specs.Laws.{CanonicalPartsAreMaps, CanonicalStoresAreCompact};
ghost use Rattle.zarrs_engine_calls.specs.Laws.{CanonicalStoresAreTheirMap, CanonicalStoresDecode};
ghost use Rattle.zarrs_engine_calls.specs.Laws.{CompactionsKeepContent, ComparisonIsContent, ContentIsBytes};
ghost use Rattle.zarrs_engine_calls.specs.Laws.{CourseCountsAgree, CourseReadAfterStore, CourseStoreAfterRead};
ghost use Rattle.zarrs_engine_calls.specs.Laws.{CoursesAgree, CoursesKeepCanon, CoursesKeepDecoding};
ghost use Rattle.zarrs_engine_calls.specs.Laws.{CoursesKeepOtherKeys, CoursesKeepReach, CutsAreRight};
ghost use Rattle.zarrs_engine_calls.specs.Laws.{DisjointEventsAgree, DisjointWritesAgree, EmptyStoresAreCanonical};
ghost use Rattle.zarrs_engine_calls.specs.Laws.{EmptyStoresAreFill, EqualCountsAgree, EventPartsMakeTheRegion};
ghost use Rattle.zarrs_engine_calls.specs.Laws.{EventReadsOfDecodingChunks, EventsCount};
ghost use Rattle.zarrs_engine_calls.specs.Laws.{PartsMakeTheRegion, ReadAfterStore, RefusedShapeChanges};
ghost use Rattle.zarrs_engine_calls.specs.Laws.{RunsAreCourses, SameChunksHaveSameCells, ShapeChangesKeepOutside};
ghost use Rattle.zarrs_engine_calls.specs.Laws.{StepsAreEvents, StoreAfterRead, WritesKeepCanon, WritesKeepDecoding};
ghost use Rattle.zarrs_engine_calls.specs.Headline.{AnArrayIsOneFunction, RunsAreOneFunction, PatchedRunsAreOneFunction};
ghost use Rattle.zarrs_engine_calls.specs.Reached.{AnswersDependOnTheReach, CellsDependOnPlaces, ReadsDependOnPlaces};

/// After any calls, accepted or refused, the array is one function from positions to cells, if each chunk that is present at
/// first decodes: an accepted write changes its region alone, a refused one at most its first chunks, and a read lists the
/// cells of its region in row-major order. So it is too where stores write the parts of chunks by themselves (`patched`).
/// Two histories from stores without a chunk, which keep no empty chunks and write no part by itself, have equal functions
/// exactly if the same bytes are present at each chunk key (`bytes`).
pub fn an_array_is_one_function()
    ensures changes { AnArrayIsOneFunction }
    ensures runs { RunsAreOneFunction }
    ensures patched { PatchedRunsAreOneFunction }
    ensures bytes { CoursesAgree }
{}

/// What a call may answer over one store it may answer over any other that agrees with it where the call may ask, and both
/// are changed alike. Of a read that needs a part of a chunk alone, by a call, a decoder or into a target, the places that it
/// needs are enough, if the chunks that it meets decode.
pub fn answers_depend_on_the_reach()
    ensures keys { AnswersDependOnTheReach }
    ensures places { CellsDependOnPlaces }
    ensures reads { ReadsDependOnPlaces }
{}

/// Canonical stores of one layout have equal content exactly if the same bytes are present at each chunk key, or none
/// in both. So stores are compared without decoding a chunk.
pub fn content_is_bytes()
    ensures { ContentIsBytes }
{}

/// Each chunk that is present in a canonical store decodes.
pub fn canonical_stores_decode()
    ensures { CanonicalStoresDecode }
{}

/// A store without a chunk is canonical.
pub fn empty_stores_are_canonical()
    ensures { EmptyStoresAreCanonical }
{}

/// A store without a chunk is fill at each position that a chunk covers.
pub fn empty_stores_are_fill()
    ensures { EmptyStoresAreFill }
{}

/// A store is canonical exactly if its part at the keys of chunks is the map of its content: one entry for each chunk that
/// is not all fill, which holds the bytes of its cells, and no other entry.
pub fn canonical_parts_are_maps()
    ensures { CanonicalPartsAreMaps }
{}

/// The values of a canonical store that has the keys of chunks alone are the map of its content.
pub fn canonical_stores_are_their_map()
    ensures { CanonicalStoresAreTheirMap }
{}

/// Functions that agree at each position that a chunk covers have one map.
pub fn canonical_maps_are_one()
    ensures { CanonicalMapsAreOne }
{}

/// Between two states of a run with equally many accepted writing calls no value changed. So a store that stops at any
/// writing call leaves a front of one call.
pub fn equal_counts_agree()
    ensures { EqualCountsAgree }
{}

/// A read of a region after a store of it, with no cell written between, returns the stored cells. Reads and compactions
/// write none.
pub fn read_after_store()
    ensures { ReadAfterStore }
{}

/// Storing what was read, with no cell written between, changes no cell.
pub fn store_after_read()
    ensures { StoreAfterRead }
{}

/// Two disjoint writes that are accepted in both orders leave the same content. A change of the array's shape is a write
/// of what it cuts away; two of them are never disjoint.
pub fn disjoint_writes_agree()
    ensures { DisjointWritesAgree }
{}

/// The cells of a region are those of its parts put together, whatever chunks it crosses, if these decode.
pub fn parts_make_the_region()
    ensures { PartsMakeTheRegion }
{}

/// An array that is cut by another grid, as after a change of its shape, has the same cell at each position whose chunk
/// has the same indices and the same box in both grids.
pub fn same_chunks_have_same_cells()
    ensures { SameChunksHaveSameCells }
{}

/// If an array's shape changes, a chunk is cut exactly if it has a position that is not below the new shape, and keeps some
/// of its cells exactly if it has one that is.
pub fn cuts_are_right()
    ensures { CutsAreRight }
{}

/// Each writing call leaves a canonical store canonical, accepted or refused, if empty chunks are not kept: the contract
/// of each is one of these eight.
pub fn writes_keep_canon()
    ensures { WritesKeepCanon }
{}

/// Each writing call, accepted or refused, leaves chunks that decode, if all did.
pub fn writes_keep_decoding()
    ensures { WritesKeepDecoding }
{}

/// No chunk of a canonical store has a compaction.
pub fn canonical_chunks_are_compact()
    ensures { CanonicalChunksAreCompact }
{}

/// An accepted compaction changes no cell.
pub fn compactions_keep_content()
    ensures { CompactionsKeepContent }
{}

/// A compaction of a chunk of a canonical store answers that nothing was written, and nothing was.
pub fn canonical_stores_are_compact()
    ensures { CanonicalStoresAreCompact }
{}

/// Chunks of two canonical arrays of the same grid, data type, fill value and chain have the same bytes exactly if the
/// arrays agree over them. The arrays may lie at different keys.
pub fn comparison_is_content()
    ensures { ComparisonIsContent }
{}

/// A step of a call is an event, and a run of calls a course of events, so the laws of courses serve both. An event is what a
/// call does over data: so a call of typed values is one as well, by the data that stands for the values. What the contract of
/// a call promises makes its event happen, as `Rattle.zarrs_engine_calls.specs.Events` shows for each.
pub fn runs_are_courses()
    ensures steps { StepsAreEvents }
    ensures runs { RunsAreCourses }
{}

/// A course leaves a canonical store canonical, if empty chunks are not kept.
pub fn courses_keep_canon()
    ensures { CoursesKeepCanon }
{}

/// A course leaves chunks that decode, if all did.
pub fn courses_keep_decoding()
    ensures { CoursesKeepDecoding }
{}

/// No course changes what may be asked of the store.
pub fn courses_keep_reach()
    ensures { CoursesKeepReach }
{}

/// No course changes the value at a key that is that of no chunk.
pub fn courses_keep_other_keys()
    ensures { CoursesKeepOtherKeys }
{}

/// Two courses from stores without a chunk, which keep no empty chunks, have equal content exactly if the same bytes are
/// present at each chunk key: the bytes are a function of the content, whichever calls made it, in whatever order. No call
/// at all is a course, and a list of calls is one by `runs_are_courses`.
pub fn courses_agree()
    ensures { CoursesAgree }
{}

/// Between two states of a course with equally many accepted writing calls no value changed.
pub fn course_counts_agree()
    ensures { CourseCountsAgree }
{}

/// An accepted store, erasure or change of the shape makes one writing call for each of its chunks, a compaction one
/// where it answers true, and a read none; none of them fails. A refused call makes one for each chunk that it has
/// done, and at most one that fails.
pub fn events_count()
    ensures { EventsCount }
{}

/// A read of a region after a store of it, with no cell written between, returns the stored cells.
pub fn course_read_after_store()
    ensures { CourseReadAfterStore }
{}

/// Storing what was read, with no cell written between, changes no cell.
pub fn course_store_after_read()
    ensures { CourseStoreAfterRead }
{}

/// Two disjoint writes that are accepted in both orders leave the same content.
pub fn disjoint_events_agree()
    ensures { DisjointEventsAgree }
{}

/// If the chunks that a region meets decode, a read of it returns the content over it.
pub fn event_reads_of_decoding_chunks()
    ensures { EventReadsOfDecodingChunks }
{}

/// The cells of a region are those of its parts put together, if the chunks that it meets decode.
pub fn event_parts_make_the_region()
    ensures { EventPartsMakeTheRegion }
{}

/// After an accepted change of the shape the array has the new shape, and is fill where a chunk of the array as it was has
/// a position that is not below the new shape. Elsewhere it is what it was. It made one writing call for each such chunk.
pub fn accepted_shape_changes()
    ensures { AcceptedShapeChanges }
{}

/// A refused change of the shape leaves the shape, and has cut a front of the chunks that it cuts, in row-major order.
pub fn refused_shape_changes()
    ensures { RefusedShapeChanges }
{}

/// A change of the shape, accepted or not, changes no chunk outside the array as it was, and no cell that it does not cut
/// away.
pub fn shape_changes_keep_outside()
    ensures { ShapeChangesKeepOutside }
{}
