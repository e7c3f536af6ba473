//! Encoders of the parts of a chunk, over the store of a case.
use crate::CaseArray;
use cases_answers::{Answer, answered, data_of};
use cases_lines::Why;
use cases_lines::call::CallLine;
use std::alloc::Global;
use zarrs::{ArrayBytes, ArrayError, CodecOptions};

pub(crate) fn partial_encode<'a>(
    alloc: Global,
    array: &mut CaseArray<'_>,
    call: &CallLine<'a>,
) -> Result<Answer, Why<'a>> {
    let data = data_of(alloc, array.data_type(), call.word)?;
    answered(alloc, &encoded_part(alloc, array, call, &data))
}

fn encoded_part(
    alloc: Global,
    array: &mut CaseArray<'_>,
    call: &CallLine<'_>,
    data: &ArrayBytes<'_>,
) -> Result<(), ArrayError> {
    let options = call.options.of_codecs();
    let mut encoder = array.partial_encoder(alloc, &call.list, &options)?;
    encoder.partial_encode(alloc, &call.region, data, &options)
}

pub(crate) fn partial_erase<'a>(
    alloc: Global,
    array: &mut CaseArray<'_>,
    call: &CallLine<'a>,
) -> Result<Answer, Why<'a>> {
    let outcome = match array.partial_encoder(alloc, &call.list, &CodecOptions::default()) {
        Ok(mut encoder) => encoder.erase(alloc),
        Err(error) => Err(error),
    };
    answered(alloc, &outcome)
}

pub(crate) fn supports_partial_encode<'a>(
    alloc: Global,
    array: &mut CaseArray<'_>,
    call: &CallLine<'a>,
) -> Result<Answer, Why<'a>> {
    let outcome = match array.partial_encoder(alloc, &call.list, &CodecOptions::default()) {
        Ok(encoder) => Ok(encoder.supports_partial_encode()),
        Err(error) => Err(error),
    };
    answered(alloc, &outcome)
}
