//! The codecs that make an array of an array, one after another.
ghost use Rattle.std.specs.Prelude.{◌≡◌, ◌-◌, ◌<◌, ◌≤◌, true, IfOk, IfSome, option_map, Some, length, take};
ghost use Rattle.std.specs.List.{HoldsAt};
ghost use Rattle.zarrs_subset.specs.Boxes.{position_count};
ghost use Rattle.zarrs_data_type.specs.ArrayData.{ArrayData, data_of};
ghost use Rattle.zarrs_data_type.specs.Cells.{cells, HasCells};
ghost use Rattle.zarrs_data_type.specs.Kind.{kind};
ghost use Rattle.zarrs_codec_array.specs.ArrayCodecs.{array_meaning, arrays_meaning, AreMadeShapes, array_codec_data};
ghost use Rattle.zarrs_codec_array.specs.Gathered.{IsEncodedArray, IsDecodedArray, data_or, encoded_shape};

use crate::reshape::ReshapeCodec;
use crate::squeeze::SqueezeCodec;
use crate::transpose::TransposeCodec;
use std::alloc::{AllocError, Global};
use zarrs_data_type::{ArrayBytes, DataType};

/// A codec that makes an array of an array (Zarr V3 core specification, "Codecs").
#[derive(Debug, Drop)]
pub enum ArrayToArrayCodec {
    /// The dimensions in another order.
    Transpose(TransposeCodec),
    /// Another shape with the same number of cells.
    Reshape(ReshapeCodec),
    /// No dimension of extent 1.
    Squeeze(SqueezeCodec),
}

impl ArrayToArrayCodec {
    /// The same codec.
    ///
    /// # Errors
    /// `AllocError`: out of memory.
    pub fn try_clone(&self, alloc: Global) -> Result<ArrayToArrayCodec, AllocError>
        ensures { IfOk result (λ copy. array_codec_data copy ≡ array_codec_data self.now) }
    {
        match self {
            ArrayToArrayCodec::Transpose(codec) => {
                Ok(ArrayToArrayCodec::Transpose(codec.try_clone(alloc)?))
            }
            ArrayToArrayCodec::Reshape(codec) => {
                Ok(ArrayToArrayCodec::Reshape(codec.try_clone(alloc)?))
            }
            ArrayToArrayCodec::Squeeze(codec) => Ok(ArrayToArrayCodec::Squeeze(*codec)),
        }
    }

    /// The shape of the encoded array, or `None` if the codec does not take arrays of this shape.
    ///
    /// # Errors
    /// `AllocError`: out of memory.
    pub fn encoded_shape(
        &self,
        alloc: Global,
        shape: &[u64],
    ) -> Result<Option<Vec<u64>>, AllocError>
        ensures { IfOk result (λ made. option_map (λ made. made.items) made
            ≡ encoded_shape (array_meaning self.now) shape.now) }
    {
        match self {
            ArrayToArrayCodec::Transpose(codec) => codec.encoded_shape(alloc, shape),
            ArrayToArrayCodec::Reshape(codec) => codec.encoded_shape(alloc, shape),
            ArrayToArrayCodec::Squeeze(codec) => codec.encoded_shape(alloc, shape),
        }
    }

    /// The encoded array, or `None` if the cells keep their order.
    ///
    /// # Errors
    /// `AllocError`: out of memory.
    pub fn encode(
        &self,
        alloc: Global,
        bytes: &ArrayBytes<'_>,
        data_type: &DataType,
        shape: &[u64],
    ) -> Result<Option<ArrayBytes<'static>>, AllocError>
        requires fits { (array_meaning self.now).fits shape.now ≡ true }
        requires cells { HasCells (kind data_type.now) (data_of bytes.now)
            (position_count shape.now) }
        ensures { IfOk result (IsEncodedArray (array_meaning self.now) (kind data_type.now)
            shape.now (data_of bytes.now)) }
    {
        match self {
            ArrayToArrayCodec::Transpose(codec) => codec.encode(alloc, bytes, data_type, shape),
            ArrayToArrayCodec::Reshape(_) | ArrayToArrayCodec::Squeeze(_) => Ok(None),
        }
    }

    /// The decoded array, whose shape this is, or `None` if the cells keep their order.
    ///
    /// # Errors
    /// `AllocError`: out of memory.
    pub fn decode(
        &self,
        alloc: Global,
        bytes: &ArrayBytes<'_>,
        data_type: &DataType,
        shape: &[u64],
    ) -> Result<Option<ArrayBytes<'static>>, AllocError>
        requires fits { (array_meaning self.now).fits shape.now ≡ true }
        requires cells { HasCells (kind data_type.now) (data_of bytes.now)
            (position_count shape.now) }
        ensures { IfOk result (IsDecodedArray (array_meaning self.now) (kind data_type.now)
            shape.now (data_of bytes.now)) }
    {
        match self {
            ArrayToArrayCodec::Transpose(codec) => codec.decode(alloc, bytes, data_type, shape),
            ArrayToArrayCodec::Reshape(_) | ArrayToArrayCodec::Squeeze(_) => Ok(None),
        }
    }
}

/// The shape of the array that the codecs make, or `None` if one of them does not take the shape that comes to it.
///
/// # Errors
/// `AllocError`: out of memory.
pub fn encoded_shape(
    alloc: Global,
    codecs: &[ArrayToArrayCodec],
    shape: &[u64],
) -> Result<Option<Vec<u64>>, AllocError>
    ensures { IfOk result (λ made. option_map (λ made. made.items) made
        ≡ encoded_shape (arrays_meaning codecs.now) shape.now) }
{
    let mut current = Vec::from_slice(alloc, shape)?;
    for codec in codecs {
        let Some(next) = codec.encoded_shape(alloc, &current)? else {
            return Ok(None);
        };
        current = next;
    }
    Ok(Some(current))
}

/// The shape of the array that the codec makes.
fn made_shape(
    alloc: Global,
    codec: &ArrayToArrayCodec,
    shape: &[u64],
) -> Result<Vec<u64>, AllocError>
    requires fits { (array_meaning codec.now).fits shape.now ≡ true }
    ensures { IfOk result (λ made. made.items ≡ (array_meaning codec.now).shape shape.now) }
{
    match codec.encoded_shape(alloc, shape)? {
        Some(made) => Ok(made),
        None => unreachable!(),
    }
}

/// The shape of the array that comes to the codec of number `k`. That of the array before it, if there is one, is
/// `last`.
fn next_shape(
    alloc: Global,
    codecs: &[ArrayToArrayCodec],
    k: usize,
    last: &[u64],
    shape: &[u64],
) -> Result<Vec<u64>, AllocError>
    requires below { k < length codecs.now }
    requires fits { (arrays_meaning codecs.now).fits shape.now ≡ true }
    requires last { 0 < k
        → last.now ≡ (arrays_meaning (take (k - 1) codecs.now)).shape shape.now }
    ensures { IfOk result (λ next. next.items ≡ (arrays_meaning (take k codecs.now)).shape
        shape.now) }
{
    if k == 0 {
        Vec::from_slice(alloc, shape)
    } else {
        made_shape(alloc, &codecs[k - 1], last)
    }
}

/// The shapes of the arrays that the codecs make, except the last one: each codec takes one step, so that a chain of
/// any length costs what its codecs cost.
fn made_shapes(
    alloc: Global,
    codecs: &[ArrayToArrayCodec],
    shape: &[u64],
) -> Result<Vec<Vec<u64>>, AllocError>
    requires fits { (arrays_meaning codecs.now).fits shape.now ≡ true }
    ensures count { IfOk result (λ made. length made.items ≡ length codecs.now - 1) }
    ensures shapes { IfOk result (λ made. AreMadeShapes codecs.now shape.now made.items) }
{
    let mut made = Vec::new(alloc);
    for k in 1..codecs.len() {
        let next = made_shape(alloc, &codecs[k - 1], shape_before(&made, shape, k - 1))?;
        made.push(next)?;
    }
    Ok(made)
}

/// The shape of the array that comes to the codec of number `k`, of those that the codecs before it made.
fn shape_before<'s>(made: &'s [Vec<u64>], shape: &'s [u64], k: usize) -> &'s [u64]
    requires within { k ≤ length made.now }
    ensures first { k ≡ 0 → result.now ≡ shape.now }
    ensures later { 0 < k → HoldsAt (λ before. result.now ≡ before.items) made.now (k - 1) }
{
    if k == 0 { shape } else { &made[k - 1] }
}

/// What the codec makes of the current array, which is `bytes` if none was made yet.
fn encode_next(
    alloc: Global,
    codec: &ArrayToArrayCodec,
    current: &Option<ArrayBytes<'static>>,
    bytes: &ArrayBytes<'_>,
    data_type: &DataType,
    shape: &[u64],
) -> Result<Option<ArrayBytes<'static>>, AllocError>
    requires fits { (array_meaning codec.now).fits shape.now ≡ true }
    requires cells { HasCells (kind data_type.now) (data_or current.now (data_of bytes.now))
        (position_count shape.now) }
    ensures { IfOk result (IsEncodedArray (array_meaning codec.now) (kind data_type.now)
        shape.now (data_or current.now (data_of bytes.now))) }
{
    match current {
        Some(made) => codec.encode(alloc, made, data_type, shape),
        None => codec.encode(alloc, bytes, data_type, shape),
    }
}

/// The later array, if there is one.
fn later(
    current: Option<ArrayBytes<'static>>,
    next: Option<ArrayBytes<'static>>,
) -> Option<ArrayBytes<'static>>
    ensures { (d : ArrayData) → data_or result d ≡ data_or next.entry (data_or current.entry d) }
{
    match next {
        Some(made) => Some(made),
        None => current,
    }
}

/// The array that the codec made the current one of. What is made is owned, and is not copied again.
fn decode_next<'a>(
    alloc: Global,
    codec: &ArrayToArrayCodec,
    current: ArrayBytes<'a>,
    data_type: &DataType,
    shape: &[u64],
) -> Result<ArrayBytes<'a>, AllocError>
    requires fits { (array_meaning codec.now).fits shape.now ≡ true }
    requires cells { HasCells (kind data_type.now) (data_of current) (position_count shape.now) }
    ensures { IfOk result (λ made. IfSome (cells (kind data_type.now) (data_of current.entry))
        (λ cs. cells (kind data_type.now) (data_of made)
        ≡ Some ((array_meaning codec.now).back shape.now cs))) }
{
    match codec.decode(alloc, &current, data_type, shape)? {
        Some(made) => made.into_owned(alloc),
        None => Ok(current),
    }
}

/// The array that the codecs make, the first one first, or `None` if the cells keep their order.
///
/// # Errors
/// `AllocError`: out of memory.
pub fn encode_array(
    alloc: Global,
    codecs: &[ArrayToArrayCodec],
    bytes: &ArrayBytes<'_>,
    data_type: &DataType,
    shape: &[u64],
) -> Result<Option<ArrayBytes<'static>>, AllocError>
    requires fits { (arrays_meaning codecs.now).fits shape.now ≡ true }
    requires cells { HasCells (kind data_type.now) (data_of bytes.now) (position_count shape.now) }
    ensures { IfOk result (IsEncodedArray (arrays_meaning codecs.now) (kind data_type.now)
        shape.now (data_of bytes.now)) }
{
    let mut current = None;
    let mut before = Vec::new(alloc);
    for k in 0..codecs.len() {
        before = next_shape(alloc, codecs, k, &before, shape)?;
        let next = encode_next(alloc, &codecs[k], &current, bytes, data_type, &before)?;
        current = later(current, next);
    }
    Ok(current)
}

/// The array that the codecs made this one of, whose shape was this one.
///
/// # Errors
/// `AllocError`: out of memory.
pub fn decode_array<'a>(
    alloc: Global,
    codecs: &[ArrayToArrayCodec],
    bytes: ArrayBytes<'a>,
    data_type: &DataType,
    shape: &[u64],
) -> Result<ArrayBytes<'a>, AllocError>
    requires fits { (arrays_meaning codecs.now).fits shape.now ≡ true }
    requires cells { HasCells (kind data_type.now) (data_of bytes) (position_count shape.now) }
    ensures { IfOk result (λ made. IfSome (cells (kind data_type.now) (data_of bytes.entry))
        (λ cs. cells (kind data_type.now) (data_of made)
        ≡ Some ((arrays_meaning codecs.now).back shape.now cs))) }
{
    let made = made_shapes(alloc, codecs, shape)?;
    let mut current = bytes;
    let mut k = codecs.len();
    while k > 0 {
        k -= 1;
        let before = shape_before(&made, shape, k);
        current = decode_next(alloc, &codecs[k], current, data_type, before)?;
    }
    Ok(current)
}
