//! Reads into places.
use crate::CaseArray;
use cases_answers::{Answer, answered};
use cases_lines::Why;
use cases_lines::call::{CallLine, Name};
use std::alloc::Global;
use zarrs::{ArrayBytesDecodeIntoTarget, ArrayError, CodecOptions};

/// The bytes and masks of a place.
#[derive(Drop)]
pub struct Held {
    pub bytes: Vec<u8>,
    pub masks: Vec<u8>,
}

impl Held {
    /// Nothing.
    pub fn new(alloc: Global) -> Held {
        Held {
            bytes: Vec::new(alloc),
            masks: Vec::new(alloc),
        }
    }
}

/// Reads into a copy of the place.
pub(crate) fn read_into_place<'a>(
    alloc: Global,
    array: &CaseArray<'_>,
    call: &CallLine<'a>,
    held: &mut Held,
) -> Result<Answer, Why<'a>> {
    let place = &call.place;
    held.bytes = place.bytes.to_vec(alloc)?;
    held.masks = place.masks.to_vec(alloc)?;
    let target = ArrayBytesDecodeIntoTarget::new_optional(
        &mut held.bytes,
        place.cell_size,
        &mut held.masks,
        place.depth,
        &place.parent,
        &place.region,
    );
    match target {
        Ok(mut target) => answered(alloc, &read_into(alloc, array, call, &mut target)),
        Err(_) => Err(Why::Target(call.written)),
    }
}

fn read_into(
    alloc: Global,
    array: &CaseArray<'_>,
    call: &CallLine<'_>,
    target: &mut ArrayBytesDecodeIntoTarget<'_, '_, '_>,
) -> Result<(), ArrayError> {
    match call.name {
        Name::PartialDecodeInto => partial_decode_into(alloc, array, call, target),
        _ => array.retrieve_array_subset_into(alloc, &call.region, target),
    }
}

fn partial_decode_into(
    alloc: Global,
    array: &CaseArray<'_>,
    call: &CallLine<'_>,
    target: &mut ArrayBytesDecodeIntoTarget<'_, '_, '_>,
) -> Result<(), ArrayError> {
    let decoder = array.partial_decoder(alloc, &call.list)?;
    decoder.partial_decode_into(alloc, &call.region, target, &CodecOptions::default())
}
