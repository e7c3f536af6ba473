//! Shapes of subchunks that divide no chunk, and the laws of shards. What is read, written and compacted of a shard is shown
//! by the case files.
use crate::checks::must_for;
use std::alloc::Global;
use std::process::Abort;
use zarrs_codec_shard::Subchunks;
use zarrs_codec_shard::laws::{
    parts_follow_one_another, shards_are_lawful, shards_compact_to_their_encoding,
    subchunks_fill_their_chunk,
};

fn must_not_divide(rt: &impl Abort, alloc: Global, sub: &[u64]) {
    let made = Subchunks::new(alloc, &[4], sub).expect(rt, "no refusal");
    must_for(rt, sub, made.is_none());
}

#[test]
fn subchunks_divide_their_chunk(rt: HostRuntime) {
    must_not_divide(&rt, rt.alloc(), &[3]);
    must_not_divide(&rt, rt.alloc(), &[0]);
    must_not_divide(&rt, rt.alloc(), &[2, 1]);
    shards_are_lawful();
    shards_compact_to_their_encoding();
    parts_follow_one_another();
    subchunks_fill_their_chunk();
}
