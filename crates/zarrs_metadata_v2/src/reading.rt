//! Reading a V2 document from a JSON value, member by member.
ghost use Rattle.std.specs.Prelude.{option_map, option_and_then};
ghost use Rattle.serde_json.specs.Data.{Members};
ghost use Rattle.serde_json.specs.Find.{as_str};
ghost use Rattle.serde_json.specs.View.{view, members_view};
ghost use Rattle.zarrs_metadata_parts.specs.Lists.{list_of, size_said, sizes_of};
ghost use Rattle.zarrs_metadata_v3.specs.Refusals.{Reads};
ghost use Rattle.zarrs_metadata_v2.specs.Document.{chunk_order_of, dimension_separator_in};
ghost use Rattle.zarrs_metadata_v2.specs.Document.{document_v2_in, document_v2_from};
ghost use Rattle.zarrs_metadata_v2.specs.View.{document_v2_view, AreParts};

use crate::document::ArrayMetadataV2;
use crate::order::ArrayMetadataV2Order;
use serde_json::{Map, Value};
use std::alloc::Global;
use std::num::NonZeroU64;
use zarrs_metadata_parts::{ChunkKeySeparator, DataTypeMetadataV2, sizes};
use zarrs_metadata_v3::Unread;
use zarrs_metadata_v3::members::{
    attributes_in, fault, fill_value_in, numbers_in, present, reads_as_number, take_member,
};

/// The members of a document.
#[derive(Drop)]
pub(crate) struct Parts {
    zarr_format: Option<Value>,
    shape: Option<Value>,
    chunks: Option<Value>,
    dtype: Option<Value>,
    compressor: Option<Value>,
    fill_value: Option<Value>,
    order: Option<Value>,
    filters: Option<Value>,
    dimension_separator: Option<Value>,
    attributes: Option<Value>,
}

/// Reads the document that these members are.
///
/// # Errors
/// `Missing` or `Wrong` for the first member that does not read. `OutOfMemory` may come at any time.
pub(crate) fn read_document(
    alloc: Global,
    members: Map<String, Value>,
) -> Result<ArrayMetadataV2, Unread>
    ensures { Reads document_v2_view (document_v2_from (members_view members.entries)) result }
{
    let mut parts = Parts::take(members);
    parts.read_array(alloc)
}

impl Parts {
    fn take(mut members: Map<String, Value>) -> Parts
        ensures { AreParts (members_view members.entries) result }
    {
        Parts {
            zarr_format: take_member(&mut members, "zarr_format"),
            shape: take_member(&mut members, "shape"),
            chunks: take_member(&mut members, "chunks"),
            dtype: take_member(&mut members, "dtype"),
            compressor: take_member(&mut members, "compressor"),
            fill_value: take_member(&mut members, "fill_value"),
            order: take_member(&mut members, "order"),
            filters: take_member(&mut members, "filters"),
            dimension_separator: take_member(&mut members, "dimension_separator"),
            attributes: take_member(&mut members, "attributes"),
        }
    }

    /// Reads the members, if they are those of a V2 array.
    fn read_array(&mut self, alloc: Global) -> Result<ArrayMetadataV2, Unread>
        ensures { (ms : Members) → AreParts ms self.old
            → Reads document_v2_view (document_v2_from ms) result }
    {
        if !reads_as_number(&self.zarr_format, 2) {
            return Err(fault(&self.zarr_format, "zarr_format", "is not 2"));
        }
        self.read(alloc)
    }

    fn read(&mut self, alloc: Global) -> Result<ArrayMetadataV2, Unread>
        ensures { (ms : Members) → AreParts ms self.old
            → Reads document_v2_view (document_v2_in ms) result }
    {
        Ok(ArrayMetadataV2 {
            shape: numbers_in(alloc, self.shape.take(), "shape")?,
            chunks: sizes_in(alloc, self.chunks.take())?,
            dtype: data_type_in(self.dtype.take())?,
            compressor: present(self.compressor.take(), "compressor")?,
            fill_value: fill_value_in(self.fill_value.take())?,
            order: order_in(self.order.take())?,
            filters: present(self.filters.take(), "filters")?,
            dimension_separator: dimension_separator_in(self.dimension_separator.take())?,
            attributes: attributes_in(alloc, self.attributes.take())?,
        })
    }
}

fn sizes_in(alloc: Global, member: Option<Value>) -> Result<Vec<NonZeroU64>, Unread>
    ensures { Reads (λ v. sizes_of v.items)
        (option_and_then (list_of size_said) (option_map view member)) result }
{
    let value = present(member, "chunks")?;
    let wrong = Unread::Wrong("chunks", "is no list of whole numbers from 1 to 2^64 - 1");
    sizes(alloc, &value)?.ok_or(wrong)
}

fn data_type_in(member: Option<Value>) -> Result<DataTypeMetadataV2, Unread>
    ensures { Reads (λ m. m) (option_and_then as_str (option_map view member)) result }
{
    let value = present(member, "dtype")?;
    DataTypeMetadataV2::from_value(value).ok_or(Unread::Wrong("dtype", "is no text"))
}

fn order_in(member: Option<Value>) -> Result<ArrayMetadataV2Order, Unread>
    ensures { Reads (λ order. order) (option_and_then chunk_order_of (option_map view member))
        result }
{
    let value = present(member, "order")?;
    ArrayMetadataV2Order::from_value(&value).ok_or(Unread::Wrong("order", "is neither `C` nor `F`"))
}

fn dimension_separator_in(member: Option<Value>) -> Result<ChunkKeySeparator, Unread>
    ensures { Reads (λ separator. separator) (dimension_separator_in (option_map view member))
        result }
{
    let wrong = Unread::Wrong("dimension_separator", "is neither `.` nor `/`");
    match member {
        Some(value) => ChunkKeySeparator::from_value(&value).ok_or(wrong),
        None => Ok(ChunkKeySeparator::Dot),
    }
}
