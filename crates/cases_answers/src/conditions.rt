//! What the store of a call refuses, and what it may be asked.
use cases_lines::call::Places;
use std::alloc::Global;
use zarrs_storage::StoreKey;

/// What the store of a call refuses, and the keys and places that it may be asked for.
#[derive(Drop)]
pub struct Conditions {
    /// The keys that are not read.
    pub refused: Vec<StoreKey>,
    /// The keys whose values are not read whole.
    pub refused_whole: Vec<StoreKey>,
    /// The number of the writing call that is refused, from 1.
    pub refused_write: Option<u64>,
    /// How many writing calls pass.
    pub passed: u64,
    /// The keys that may be asked for, if not all.
    pub allowed: Option<Vec<StoreKey>>,
    /// The places that may be asked for; if there are none, all.
    pub allowed_places: Vec<Places>,
}

impl Conditions {
    /// Nothing is refused, and everything may be asked for.
    pub fn none(alloc: Global) -> Conditions {
        Conditions {
            refused: Vec::new(alloc),
            refused_whole: Vec::new(alloc),
            refused_write: None,
            passed: u64::MAX,
            allowed: None,
            allowed_places: Vec::new(alloc),
        }
    }
}
