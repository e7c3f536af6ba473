//! Shards (`sharding_indexed`): the bytes of a chunk that is cut into subchunks, over any chain of these.
//!
//! `zarrs_codec` uses `Subchunks`, the cut of a chunk, `read_index` and `ShardWriter` for the index, and
//! `compact_shard`. `LentSubchunks` is the same cut over shapes that are lent, which reads of parts use. `ShardPatch`
//! writes some subchunks anew, and returns a `PartialWrite`.
//!
//! A shard is said over a `SubchunkMeaning` of `specs/Sharded.antt`, a chain at one type, fill value and shape. There
//! stand `sharded_encoded`, `sharded_decoded` and the others of a chain. `specs/Shards.antt` has the bytes: the data,
//! and the index (`index_bytes`), which says where each subchunk stands (`shard_parts`). `specs/Subchunks.antt` has
//! the boxes, and `specs/PartialShards.antt` the change of a part (`sharded_partly`). `laws` has the laws of shards.
#![tactic(auto)]

mod blocks;
mod compact;
mod corners;
mod error;
pub mod laws;
mod lent;
mod patch;
mod shard_index;
mod subchunks;
mod unmet;

pub use compact::compact_shard;
pub use error::CompactError;
pub use lent::LentSubchunks;
pub use patch::{PartialWrite, ShardPatch, stored_ranges};
pub use shard_index::{ShardWriter, SubchunkRange, are_entries, range_at, read_index};
pub use subchunks::{Subchunks, is_cut_by};
