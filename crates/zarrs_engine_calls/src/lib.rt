//! The calls of an array, what each does to the array and its store, and the laws of lists of calls.
//!
//! The layers above use `Call` and `Reply`, a call and its answer as values, and `ArrayError`, why a call is refused.
//! Each law is the contract of a public function that does nothing, as `read_after_store`.
//!
//! `Layout` of `specs/Layout.antt` is what an array is cut into and what its bytes mean, and its law is `IsLawful`.
//! `content` of `specs/Content.antt` is the array as a function from positions to cells. `act_of` of
//! `specs/Acts.antt` reads a call as an `Act`. `specs/Step.antt` has `Step`, what a call does and answers, and `Run`,
//! a list of steps. `specs/Reach.antt` says what a call may ask, `specs/Canon.antt` which stores are canonical,
//! `specs/Refusals.antt` which refusal comes first. `specs/Laws.antt` states the laws.
#![tactic(auto)]

mod call;
mod error;
mod laws;

pub use call::{Call, Reply};
pub use error::ArrayError;
pub use laws::{
    accepted_shape_changes, an_array_is_one_function, answers_depend_on_the_reach,
    canonical_chunks_are_compact, canonical_maps_are_one, canonical_parts_are_maps,
    canonical_stores_are_compact, canonical_stores_are_their_map, canonical_stores_decode,
    compactions_keep_content, comparison_is_content, content_is_bytes, course_counts_agree,
    course_read_after_store, course_store_after_read, courses_agree, courses_keep_canon,
    courses_keep_decoding, courses_keep_other_keys, courses_keep_reach, cuts_are_right,
    disjoint_events_agree, disjoint_writes_agree, empty_stores_are_canonical,
    empty_stores_are_fill, equal_counts_agree, event_parts_make_the_region,
    event_reads_of_decoding_chunks, events_count, parts_make_the_region, read_after_store,
    refused_shape_changes, runs_are_courses, same_chunks_have_same_cells,
    shape_changes_keep_outside, store_after_read, writes_keep_canon, writes_keep_decoding,
};
