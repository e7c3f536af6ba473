//! A call of an array that found no memory is made again. The array has 16 bytes in chunks of 4, which are cut into
//! subchunks of 2, and the fill value 9.
use crate::checks::{must, must_eq};
use std::alloc::{AllocError, Global};
use std::ops::Range;
use std::process::Abort;
use std::slice;
use zarrs::{
    Array, ArrayBytes, ArrayCreateError, ArrayError, ArraySubset, Call, CodecOptions, DataType,
    MemoryStore, Reply,
};
use zarrs_builder::ArrayBuilder;

fn list(rt: &impl Abort, alloc: Global, numbers: &[u64]) -> Vec<u64> {
    match numbers.to_vec(alloc) {
        Ok(list) => list,
        Err(_) => numbers.to_vec(alloc).expect(rt, "no second refusal"),
    }
}

fn region(rt: &impl Abort, alloc: Global, ranges: &[Range<u64>]) -> ArraySubset {
    match ArraySubset::new_with_ranges(alloc, ranges) {
        Ok(region) => region,
        Err(_) => ArraySubset::new_with_ranges(alloc, ranges).expect(rt, "no second refusal"),
    }
}

fn built(alloc: Global) -> Result<Array<MemoryStore>, ArrayCreateError> {
    let mut builder = ArrayBuilder::new(alloc, [16u64], [4u64], DataType::UInt8, 9u8);
    builder.subchunk_shape(alloc, Some([2u64]));
    let array = builder.build(alloc, MemoryStore::new(alloc), "/");
    drop(builder);
    array
}

fn array(rt: &impl Abort, alloc: Global) -> Array<MemoryStore> {
    match built(alloc) {
        Ok(array) => array,
        Err(_) => built(alloc).expect(rt, "no second refusal"),
    }
}

/// The cells of the whole array, of which one subchunk is all fill.
const FILLED: &[u8] = &[1, 2, 3, 4, 5, 6, 7, 8, 9, 9, 1, 2, 3, 4, 5, 6];

/// Stores each cell, or tells that there was no memory for one of the chunks.
fn is_filled(rt: &impl Abort, alloc: Global, array: &mut Array<MemoryStore>) -> bool {
    match array.store_array_subset(alloc, &[0..16], ArrayBytes::from_flen(FILLED)) {
        Ok(()) => true,
        Err(ArrayError::OutOfMemory) => false,
        Err(_) => rt.panic("another refusal"),
    }
}

/// Whether the first chunks are those of `FILLED`, and the others are all fill.
fn is_front(cells: &[u8]) -> bool {
    let mut is_stored = true;
    for (found, stored) in cells.chunks(4).zip(FILLED.chunks(4)) {
        is_stored = is_stored && found == stored;
        if !is_stored && found != [9u8; 4].as_slice() {
            return false;
        }
    }
    true
}

fn must_hold_front(rt: &impl Abort, alloc: Global, array: &Array<MemoryStore>) {
    let read = array.retrieve_array_subset(alloc, &[0..16]);
    let cells: Vec<u8> = read.expect(rt, "no second refusal");
    must_eq(rt, cells.len(), FILLED.len());
    must(rt, is_front(&cells));
}

/// Stores each cell. The first chunks alone are stored if that found no memory, and it is made again.
fn must_fill(rt: &impl Abort, alloc: Global, array: &mut Array<MemoryStore>) {
    if !is_filled(rt, alloc, array) {
        must_hold_front(rt, alloc, array);
        must(rt, is_filled(rt, alloc, array));
    }
}

/// Calls that write, no two of them the same cells, so that their order does not matter.
fn writes(rt: &impl Abort, alloc: Global) -> [Call; 3] {
    [
        Call::StoreArraySubset(
            region(rt, alloc, &[2..7]),
            ArrayBytes::from_flen(&[11, 12, 13, 14, 15]),
        ),
        Call::StoreChunkSubset(
            list(rt, alloc, &[2]),
            region(rt, alloc, &[1..3]),
            ArrayBytes::from_flen(&[16, 17]),
        ),
        Call::EraseChunk(list(rt, alloc, &[3])),
    ]
}

/// What the calls that write read.
const NONE_READ: &[&[u8]] = &[&[], &[], &[]];

/// A part of a chunk, a chunk that is absent, and the whole are read.
fn reads(rt: &impl Abort, alloc: Global) -> [Call; 3] {
    [
        Call::RetrieveChunkSubset(list(rt, alloc, &[1]), region(rt, alloc, &[2..4])),
        Call::RetrieveChunk(list(rt, alloc, &[3])),
        Call::RetrieveArraySubset(region(rt, alloc, &[0..16])),
    ]
}

const READ: &[&[u8]] = &[
    &[15, 8],
    &[9, 9, 9, 9],
    &[1, 2, 11, 12, 13, 14, 15, 8, 9, 16, 17, 2, 9, 9, 9, 9],
];

/// Makes the calls. Parts are written by themselves.
fn made(
    alloc: Global,
    array: &mut Array<MemoryStore>,
    calls: &[Call],
) -> Result<Vec<Reply>, AllocError> {
    let options = CodecOptions::default().with_experimental_partial_encoding(true);
    array.replay(alloc, calls, &options)
}

/// The replies to the calls. If there is no memory for the list, none is made.
fn replies(
    rt: &impl Abort,
    alloc: Global,
    array: &mut Array<MemoryStore>,
    calls: &[Call],
) -> Vec<Reply> {
    match made(alloc, array, calls) {
        Ok(replies) => replies,
        Err(_) => made(alloc, array, calls).expect(rt, "no second refusal"),
    }
}

/// Whether the reply to a call that reads has these cells, or that to a call that writes says that it was made.
fn is_wanted(reply: &Reply, cells: &[u8]) -> bool {
    match reply {
        Reply::Done => cells.is_empty(),
        Reply::Cells(ArrayBytes::Fixed(read)) => read.as_slice() == cells,
        _ => false,
    }
}

/// The reply is wanted. If it says want of memory, that to the same call, made again, is.
fn must_reply(
    rt: &impl Abort,
    alloc: Global,
    array: &mut Array<MemoryStore>,
    call: &Call,
    reply: &Reply,
    cells: &[u8],
) {
    if !matches!(reply, Reply::Refused(ArrayError::OutOfMemory)) {
        return must(rt, is_wanted(reply, cells));
    }
    let again = replies(rt, alloc, array, slice::from_ref(call));
    match again.as_slice() {
        [reply] => must(rt, is_wanted(reply, cells)),
        _ => rt.panic("another number of replies"),
    }
    drop(again);
}

/// Makes the calls, and then those again that found no memory.
fn must_make(
    rt: &impl Abort,
    alloc: Global,
    array: &mut Array<MemoryStore>,
    calls: &[Call],
    wanted: &[&[u8]],
) {
    let replies = replies(rt, alloc, array, calls);
    must_eq(
        rt,
        (replies.len(), calls.len()),
        (wanted.len(), wanted.len()),
    );
    for ((call, reply), cells) in calls.iter().zip(replies.iter()).zip(wanted) {
        must_reply(rt, alloc, array, call, reply, cells);
    }
    drop(replies);
}

#[test]
fn calls_are_made_again(rt: HostRuntime) {
    let alloc = rt.alloc();
    let mut array = array(&rt, alloc);
    must_fill(&rt, alloc, &mut array);
    must_make(&rt, alloc, &mut array, &writes(&rt, alloc), NONE_READ);
    must_make(&rt, alloc, &mut array, &reads(&rt, alloc), READ);
    drop(array);
}
