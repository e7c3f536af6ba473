//! Calls that go by values of the language.
use crate::CaseArray;
use crate::writes::store_cells;
use cases_answers::{
    Answer, CellForm, Flag, Maybe, Number, Plain, Text, answered, values_answered, values_in,
};
use cases_lines::call::{CallLine, Name};
use cases_lines::{Form, Why};
use std::alloc::Global;
use zarrs::{
    ArrayError, CodecOptions, DataType, Element, ElementOwned, MetadataV3, PluginCreateError,
};

/// Makes the call by values for the array's data type, or for the one that the options name. This word of theirs says so.
pub(crate) fn by_values<'a>(
    alloc: Global,
    array: &mut CaseArray<'_>,
    call: &CallLine<'a>,
    word: &'a str,
) -> Result<Answer, Why<'a>> {
    let data_type = match call.options.form {
        Form::As(word) => type_of(alloc, word)?,
        Form::Bytes | Form::Typed => array.data_type().try_clone(alloc)?,
    };
    let values = Values {
        data_type: &data_type,
        word,
    };
    match &data_type {
        DataType::Optional(inner) => match &**inner {
            DataType::Optional(inner) => by_type(alloc, array, call, values, inner, 2),
            _ => by_type(alloc, array, call, values, inner, 1),
        },
        _ => by_type(alloc, array, call, values, &data_type, 0),
    }
}

/// The data type of this name.
fn type_of<'a>(alloc: Global, word: &'a str) -> Result<DataType, Why<'a>> {
    let metadata = MetadataV3::new(String::from_str(alloc, word)?);
    match DataType::from_metadata(alloc, &metadata) {
        Ok(data_type) => Ok(data_type),
        Err(PluginCreateError::OutOfMemory) => Err(Why::OutOfMemory),
        Err(_) => Err(Why::Type(word)),
    }
}

/// The data type of values, and the word that says that a call goes by them.
#[derive(Clone, Copy)]
struct Values<'v, 'a> {
    data_type: &'v DataType,
    word: &'a str,
}

/// Makes the call by values of the inner type, which are optional so many times.
fn by_type<'a>(
    alloc: Global,
    array: &mut CaseArray<'_>,
    call: &CallLine<'a>,
    values: Values<'_, 'a>,
    inner: &DataType,
    depth: u8,
) -> Result<Answer, Why<'a>> {
    match inner {
        DataType::Bool => at_depth::<bool, _>(alloc, array, call, values, Flag, depth),
        DataType::Int8 => at_depth::<i8, _>(alloc, array, call, values, Number::BITS_8, depth),
        DataType::Int16 => at_depth::<i16, _>(alloc, array, call, values, Number::BITS_16, depth),
        DataType::Int32 => at_depth::<i32, _>(alloc, array, call, values, Number::BITS_32, depth),
        DataType::Int64 => at_depth::<i64, _>(alloc, array, call, values, Number::BITS_64, depth),
        DataType::UInt8 => at_depth::<u8, _>(alloc, array, call, values, Number::BITS_8, depth),
        DataType::UInt16 => at_depth::<u16, _>(alloc, array, call, values, Number::BITS_16, depth),
        DataType::UInt32 => at_depth::<u32, _>(alloc, array, call, values, Number::BITS_32, depth),
        DataType::UInt64 => at_depth::<u64, _>(alloc, array, call, values, Number::BITS_64, depth),
        DataType::String => at_depth::<String, _>(alloc, array, call, values, Text, depth),
        DataType::Bytes => at_depth::<Vec<u8>, _>(alloc, array, call, values, Plain, depth),
        DataType::Raw(_) | DataType::Optional(_) => Err(Why::NoValues(values.word)),
    }
}

/// Makes the call by these values, which are optional so many times.
fn at_depth<'a, T: ElementOwned, F: CellForm<T> + Copy>(
    alloc: Global,
    array: &mut CaseArray<'_>,
    call: &CallLine<'a>,
    values: Values<'_, 'a>,
    form: F,
    depth: u8,
) -> Result<Answer, Why<'a>> {
    match depth {
        0 => by::<T, F>(alloc, array, call, values, &form),
        1 => by::<Option<T>, _>(alloc, array, call, values, &Maybe(form)),
        _ => by::<Option<Option<T>>, _>(alloc, array, call, values, &Maybe(Maybe(form))),
    }
}

/// Makes the call by a list of these values, by the call itself or by its `_elements` form.
fn by<'a, T: ElementOwned, F: CellForm<T>>(
    alloc: Global,
    array: &mut CaseArray<'_>,
    call: &CallLine<'a>,
    values: Values<'_, 'a>,
    form: &F,
) -> Result<Answer, Why<'a>> {
    match call.name {
        Name::StoreArraySubset | Name::StoreChunk | Name::StoreChunkSubset | Name::StoreChunks =>
            store::<T, F>(alloc, array, call, values.data_type, form),
        _ if call.options.elements => read_elements::<T, F>(alloc, array, call, values, form),
        _ => read::<T, F>(alloc, array, call, values, form),
    }
}

fn store<'a, T: Element, F: CellForm<T>>(
    alloc: Global,
    array: &mut CaseArray<'_>,
    call: &CallLine<'a>,
    data_type: &DataType,
    form: &F,
) -> Result<Answer, Why<'a>> {
    let values: Vec<T> = values_in(alloc, data_type, form, call.word)?;
    if call.options.elements {
        return store_elements(alloc, array, call, &values);
    }
    store_cells(alloc, array, call, values)
}

fn store_elements<'a, T: Element>(
    alloc: Global,
    array: &mut CaseArray<'_>,
    call: &CallLine<'a>,
    values: &[T],
) -> Result<Answer, Why<'a>> {
    let CallLine { list, region, .. } = call;
    let options = call.options.of_codecs();
    let outcome = match call.name {
        Name::StoreArraySubset => {
            array.store_array_subset_elements_opt(alloc, region, values, &options)
        }
        Name::StoreChunk => array.store_chunk_elements_opt(alloc, list, values, &options),
        Name::StoreChunkSubset => {
            array.store_chunk_subset_elements_opt(alloc, list, region, values, &options)
        }
        Name::StoreChunks => array.store_chunks_elements_opt(alloc, region, values, &options),
        _ => return Err(Why::Call(call.written)),
    };
    answered(alloc, &outcome)
}

fn read<'a, T: ElementOwned, F: CellForm<T>>(
    alloc: Global,
    array: &CaseArray<'_>,
    call: &CallLine<'a>,
    values: Values<'_, 'a>,
    form: &F,
) -> Result<Answer, Why<'a>> {
    let CallLine { list, region, .. } = call;
    let options = CodecOptions::default();
    let outcome: Result<Option<Vec<T>>, ArrayError> = match call.name {
        Name::RetrieveArraySubset => array
            .retrieve_array_subset_opt(alloc, region, &options)
            .map(Some),
        Name::RetrieveChunk => array.retrieve_chunk_opt(alloc, list, &options).map(Some),
        Name::RetrieveChunkIfExists => array.retrieve_chunk_if_exists_opt(alloc, list, &options),
        Name::RetrieveChunkSubset => array
            .retrieve_chunk_subset_opt(alloc, list, region, &options)
            .map(Some),
        Name::RetrieveChunks => array.retrieve_chunks_opt(alloc, region, &options).map(Some),
        _ => return Err(Why::Option(values.word)),
    };
    values_answered(alloc, values.data_type, form, &outcome)
}

fn read_elements<'a, T: ElementOwned, F: CellForm<T>>(
    alloc: Global,
    array: &CaseArray<'_>,
    call: &CallLine<'a>,
    values: Values<'_, 'a>,
    form: &F,
) -> Result<Answer, Why<'a>> {
    let CallLine { list, region, .. } = call;
    let options = CodecOptions::default();
    let outcome: Result<Option<Vec<T>>, ArrayError> = match call.name {
        Name::RetrieveArraySubset => array
            .retrieve_array_subset_elements_opt(alloc, region, &options)
            .map(Some),
        Name::RetrieveChunk => array
            .retrieve_chunk_elements_opt(alloc, list, &options)
            .map(Some),
        Name::RetrieveChunkIfExists => {
            array.retrieve_chunk_elements_if_exists_opt(alloc, list, &options)
        }
        Name::RetrieveChunkSubset => array
            .retrieve_chunk_subset_elements_opt(alloc, list, region, &options)
            .map(Some),
        Name::RetrieveChunks => array
            .retrieve_chunks_elements_opt(alloc, region, &options)
            .map(Some),
        _ => return Err(Why::Option(values.word)),
    };
    values_answered(alloc, values.data_type, form, &outcome)
}
