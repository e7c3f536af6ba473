//! Builders that are mended and used again, and a data type that metadata cannot say.
use crate::checks::must_eq;
use crate::made::{BYTES, bytes, list_of, must_say};
use std::alloc::Global;
use std::num::NonZeroUsize;
use std::process::Abort;
use zarrs::{Array, ArrayCreateError, DataType, FillValue, MemoryStore, PluginCreateError};
use zarrs_builder::ArrayBuilder;

/// The array has the path and the shape that it was built with.
fn must_be_built(rt: &impl Abort, array: Result<Array<MemoryStore>, ArrayCreateError>) {
    let array = array.expect(rt, "no refusal");
    must_eq(rt, array.path().as_str(), "/array");
    must_eq(rt, array.shape(), &[8, 8]);
    drop(array);
}

#[test]
fn a_builder_is_used_again(rt: HostRuntime) {
    let alloc = rt.alloc();
    let builder = bytes(alloc);
    must_be_built(&rt, builder.build(alloc, MemoryStore::new(alloc), "/array"));
    must_be_built(
        &rt,
        builder.build_arc(alloc, MemoryStore::new(alloc), "/array"),
    );
    must_say(&rt, alloc, builder, BYTES);
}

/// The number of the refusal of the array, 0 if its parts are not those that the tests want.
fn number(rt: &impl Abort, alloc: Global, builder: &ArrayBuilder) -> u8 {
    let refused = builder.build(alloc, MemoryStore::new(alloc), "/").err();
    let error = refused.expect(rt, "a refusal");
    let number = match &error {
        ArrayCreateError::DataTypeCreateError(PluginCreateError::Other(_)) => 13,
        ArrayCreateError::InvalidFillValue { .. } => 14,
        ArrayCreateError::InvalidFillValueMetadata { .. } => 15,
        ArrayCreateError::ChunkGridCreateError(PluginCreateError::Other(_)) => 18,
        ArrayCreateError::InvalidDimensionNames(3, 2) => 21,
        ArrayCreateError::InvalidSubchunkShape(shape) if shape.as_slice() == [2, 0].as_slice() =>
            22,
        _ => 0,
    };
    drop(error);
    number
}

/// A builder with each fault: no data type, empty subchunks, no grid, no fill value, and three names.
fn faulty(alloc: Global) -> ArrayBuilder {
    let mut builder = ArrayBuilder::new(alloc, [8u64, 8], "regular", "float64", "none");
    let names = ["z", "y", "x"];
    builder
        .dimension_names(alloc, Some(names.iter().copied()))
        .subchunk_shape(alloc, Some([2u64, 0]));
    builder
}

/// The builder is refused for its first fault that is not mended.
fn must_refuse_in_order(rt: &impl Abort, alloc: Global, builder: &mut ArrayBuilder) {
    must_eq(rt, number(rt, alloc, builder), 13);
    builder.data_type(alloc, "int16");
    must_eq(rt, number(rt, alloc, builder), 22);
    builder.subchunk_shape(alloc, None::<[u64; 0]>);
    must_eq(rt, number(rt, alloc, builder), 18);
    builder.chunk_grid_metadata(alloc, [4u64, 4]);
    must_eq(rt, number(rt, alloc, builder), 15);
    builder.fill_value(alloc, FillValue::new(list_of(rt, alloc, &[7])));
    must_eq(rt, number(rt, alloc, builder), 21);
    builder.dimension_names(alloc, None::<[&str; 0]>);
    must_eq(rt, number(rt, alloc, builder), 14);
}

/// Zeros of a raw type of 65,537 bytes.
fn huge(rt: &impl Abort, alloc: Global) -> ArrayBuilder {
    let data_type = DataType::Raw(NonZeroUsize::new(65_537).expect(rt, "not zero"));
    let zeros = FillValue::new(vec![in alloc; 0; 65_537].expect(rt, "no refusal"));
    ArrayBuilder::new(alloc, [8u64, 8], [2u64, 2], data_type, zeros)
}

/// The builder is refused for its data type.
fn must_refuse_type(rt: &impl Abort, alloc: Global, builder: ArrayBuilder) {
    must_eq(rt, number(rt, alloc, &builder), 13);
    drop(builder);
}

#[test]
fn a_field_is_refused_until_it_is_set_again(rt: HostRuntime) {
    let mut builder = faulty(rt.alloc());
    must_refuse_in_order(&rt, rt.alloc(), &mut builder);
    drop(builder);
    must_refuse_type(&rt, rt.alloc(), huge(&rt, rt.alloc()));
}
