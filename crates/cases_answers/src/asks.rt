//! What a store was asked.
use cases_lines::call::Places;
use std::alloc::{AllocError, Global};
use std::ops::Range;
use zarrs_storage::StoreKey;

/// A question.
#[derive(Drop)]
pub struct Ask {
    pub key: StoreKey,
    /// The places of the bytes at the key that were asked for: none if only their number was, and all that there can be
    /// if a read of the whole value was refused.
    pub places: Range<u64>,
}

impl Ask {
    /// The first place asked for that these do not allow.
    fn place_beyond(&self, allowed: &[Places]) -> Option<u64> {
        let mut place = self.places.start;
        for one in allowed {
            if one.key == self.key {
                place = one.end_from(place);
            }
        }
        (place < self.places.end).then_some(place)
    }
}

/// The record of the questions, in their order, unless there was no memory for one.
pub type Asks = Result<Vec<Ask>, AllocError>;

/// Adds a question.
pub(crate) fn note(asks: &mut Asks, key: &StoreKey, places: Range<u64>) {
    let Ok(list) = asks else {
        return;
    };
    let noted = match key.clone() {
        Ok(key) => list.push(Ask { key, places }).is_ok(),
        Err(_) => false,
    };
    if !noted {
        *asks = Err(AllocError);
    }
}

/// The first place asked for that these do not allow, and its key.
pub fn place_beyond<'a>(asks: &'a [Ask], allowed: &[Places]) -> Option<(&'a StoreKey, u64)> {
    asks.iter().find_map(|ask| match ask.place_beyond(allowed) {
        Some(place) => Some((&ask.key, place)),
        None => None,
    })
}

/// The keys asked for, each once, in ascending order.
pub fn keys_of(alloc: Global, asks: &[Ask]) -> Result<Vec<StoreKey>, AllocError> {
    let mut keys = Vec::new(alloc);
    for ask in asks {
        keys.push(ask.key.clone()?)?;
    }
    keys.sort_unstable();
    keys.dedup();
    Ok(keys)
}
