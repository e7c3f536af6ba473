//! Types, boxes and cells that the tests name in tables.
ghost use Rattle.std.specs.Prelude.{◌≡◌};
ghost use Rattle.zarrs_subset.specs.Regions.{box_from, box_of};

use crate::checks::{must_eq, must_for};
use std::alloc::Global;
use std::borrow::CowSlice;
use std::process::Abort;
use zarrs_data_type::{ArrayBytes, ArrayBytesOffsets, ArrayBytesOptional, DataType, FillValue};
use zarrs_metadata_parts::MetadataV3;
use zarrs_subset::ArraySubset;

/// Data in memory.
pub(crate) enum Cells {
    /// Cells of one size.
    Numbers(&'static [u8]),
    /// Byte strings: their bytes, and where each starts and the last ends.
    Strings(&'static [u8], &'static [usize]),
    /// Cells of one size under a mask.
    Masked(&'static [u8], &'static [u8]),
}

/// The type of this name. A `?` behind it makes it optional.
pub(crate) fn type_of(rt: &impl Abort, alloc: Global, name: &str) -> DataType {
    let plain = name.trim_end_matches('?');
    let metadata = MetadataV3::new(String::from_str(alloc, plain).expect(rt, "no refusal"));
    let mut data_type = DataType::from_metadata(alloc, &metadata).expect(rt, "no refusal");
    for _ in plain.len()..name.len() {
        data_type = DataType::Optional(Box::new(alloc, data_type).expect(rt, "no refusal"));
    }
    data_type
}

/// The box of this start and this shape.
pub(crate) fn box_at(rt: &impl Abort, alloc: Global, start: &[u64], shape: &[u64]) -> ArraySubset
    ensures { box_of result ≡ box_from start.now shape.now }
{
    let start = Vec::from_slice(alloc, start).expect(rt, "no refusal");
    let shape = Vec::from_slice(alloc, shape).expect(rt, "no refusal");
    ArraySubset::new_with_start_shape(start, shape).expect(rt, "no refusal")
}

/// The fill value of zeros: none, an empty text, or a number.
pub(crate) fn zero_of(rt: &impl Abort, alloc: Global, data_type: &DataType) -> FillValue {
    let none = usize::from(data_type.optional_inner().is_some());
    let len = data_type.element_size().unwrap_or(none);
    FillValue::new(vec![in alloc; 0u8; len].expect(rt, "no refusal"))
}

pub(crate) fn data_of(rt: &impl Abort, alloc: Global, cells: &Cells) -> ArrayBytes<'static> {
    match cells {
        Cells::Numbers(bytes) => ArrayBytes::from_flen(bytes),
        Cells::Strings(bytes, offsets) => {
            let offsets = ArrayBytesOffsets::new(CowSlice::Borrowed(offsets)).expect(rt, "offsets");
            ArrayBytes::new_vlen(CowSlice::Borrowed(bytes), offsets).expect(rt, "byte strings")
        }
        Cells::Masked(mask, bytes) => {
            let inner = Box::new(alloc, ArrayBytes::from_flen(bytes)).expect(rt, "no refusal");
            let held = ArrayBytesOptional::new(inner, CowSlice::Borrowed(mask)).expect(
                rt, "a mask",
            );
            ArrayBytes::Optional(held)
        }
    }
}

/// The data has these cells; of cells under a mask the mask is compared.
pub(crate) fn must_be(rt: &impl Abort, data: &ArrayBytes<'_>, cells: &Cells) {
    match (data, cells) {
        (ArrayBytes::Fixed(held), Cells::Numbers(bytes)) => must_eq(rt, held.as_slice(), *bytes),
        (ArrayBytes::Variable(held), Cells::Strings(bytes, offsets)) => {
            must_eq(rt, held.bytes(), *bytes);
            must_eq(rt, held.offsets().as_slice(), *offsets);
        }
        (ArrayBytes::Optional(held), Cells::Masked(mask, _)) => must_eq(rt, held.mask(), *mask),
        _ => must_for(rt, "data of another kind", false),
    }
}
