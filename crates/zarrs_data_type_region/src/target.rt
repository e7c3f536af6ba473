//! A box of an array of cells that a caller lends to be written.
ghost use Rattle.std.specs.Prelude.{◌≡◌, ◌↔◌, ◌*◌, ◌==◌, true, IfErr, IfOk, IsOk, IsTrue, OnErr, OnOk, length};
ghost use Rattle.std.specs.Prelude.{◌≤◌, ◌<◌, ◌+◌, ◌^◌, [], drop, slice_index, take};
ghost use Rattle.std.specs.List.{copy_within, prefix_len, repeat};
ghost use Rattle.zarrs_data_type_bytes.specs.ArrayData.{data_of};
ghost use Rattle.zarrs_data_type_bytes.specs.Cells.{fits};
ghost use Rattle.zarrs_data_type_bytes.specs.Parts.{TakesAt, TakesEach};
ghost use Rattle.zarrs_subset.specs.Boxes.{BoxFits, InShape, place, position_count};
ghost use Rattle.zarrs_subset.specs.Pieces.{piece_at};
ghost use Rattle.zarrs_subset.specs.Regions.{LiesInShape, box_of, box_at_origin, LiesInBox};
ghost use Rattle.zarrs_data_type_kinds.specs.Kind.{Kind, kind};
ghost use Rattle.zarrs_data_type_region.specs.Targets.{HasLevels, IsTargetOver, TakesLevels};
ghost use Rattle.zarrs_data_type_region.specs.Targets.{IsFilledBox, depth_of, masked, repeated, takes_type};

use crate::error::ArrayBytesFixedDisjointViewCreateError;
use std::alloc::{AllocError, Global};
use std::mem;
use zarrs_data_type_bytes::ArrayBytes;
use zarrs_data_type_kinds::DataType;
use zarrs_subset::{
    ArraySubset, ArraySubsetTraits, Corner, copy_box, element_count, ravel_indices,
};

/// A fill doubles what it copies at a time until that is at least this long, so that it stays in the nearest cache.
const BLOCK_LEN: usize = 16384;

/// What a caller lent for a target that was refused: each byte and each mask is what it was.
#[derive(Debug, Drop)]
pub struct RefusedTarget<'a, 'm> {
    /// The cells of the parent.
    pub bytes: &'a mut [u8],
    /// The masks of the parent.
    pub masks: &'m mut [u8],
}

impl From<RefusedTarget<'_, '_>> for ArrayBytesFixedDisjointViewCreateError {
    fn from(_refused: RefusedTarget<'_, '_>) -> ArrayBytesFixedDisjointViewCreateError {
        ArrayBytesFixedDisjointViewCreateError
    }
}

/// The box `region` of an array of `parent_shape`, which a caller lends to be written.
///
/// `bytes` has a cell of `cell_size` bytes for each position of the parent, in row-major order. `masks` has `depth`
/// parts, the outermost first, each with a byte for each position of the parent: one a level of an optional type.
///
/// Each slice has a lifetime of its own, so that its lender knows what it ends as.
#[derive(Debug, Drop)]
pub struct ArrayBytesDecodeIntoTarget<'a, 'm, 'r> {
    /// The cells of the parent.
    pub bytes: &'a mut [u8],
    /// The masks of the parent.
    pub masks: &'m mut [u8],
    /// The size of a cell in bytes.
    pub cell_size: usize,
    /// The number of masks.
    pub depth: usize,
    /// The shape of the parent.
    pub parent_shape: &'r [u64],
    /// The box.
    pub region: &'r ArraySubset,
    /// The parts go together.
    pub ghost whole: { IsTargetOver (length bytes.now) cell_size (length masks.now) depth
        parent_shape.now (box_of region.now) },
}

impl<'a, 'm, 'r> ArrayBytesDecodeIntoTarget<'a, 'm, 'r> {
    ghost use Rattle.zarrs_data_type_region.specs.States.{IsOverBytes, IsOverMasks};

    /// Checks that these are the parts of a target.
    ///
    /// # Errors
    /// Bytes or masks of another length than the parent asks, a parent of more positions than a `u64` counts, or a box
    /// that does not lie in the parent.
    pub fn check(
        bytes: &[u8],
        cell_size: usize,
        masks: &[u8],
        depth: usize,
        parent_shape: &[u64],
        region: &ArraySubset,
    ) -> Result<(), ArrayBytesFixedDisjointViewCreateError>
        ensures { IsOk result ↔ IsTargetOver (length bytes.now) cell_size (length masks.now) depth
            parent_shape.now (box_of region.now) }
    {
        let Some(count) = element_count(parent_shape) else {
            return Err(ArrayBytesFixedDisjointViewCreateError);
        };
        if !has_parts(bytes.len(), count, cell_size)
            || !has_parts(masks.len(), count, depth)
            || !region.inbounds_shape(parent_shape)
        {
            return Err(ArrayBytesFixedDisjointViewCreateError);
        }
        Ok(())
    }

    /// The target of these parts, which `check` accepts.
    pub fn over(
        bytes: &'a mut [u8],
        cell_size: usize,
        masks: &'m mut [u8],
        depth: usize,
        parent_shape: &'r [u64],
        region: &'r ArraySubset,
    ) -> ArrayBytesDecodeIntoTarget<'a, 'm, 'r>
        requires { IsTargetOver (length bytes.old) cell_size (length masks.old) depth
            parent_shape.now (box_of region.now) }
        ensures bytes { IsOverBytes bytes.entry cell_size depth parent_shape.now (box_of region.now)
            result }
        ensures masks { IsOverMasks masks.entry result }
    {
        ArrayBytesDecodeIntoTarget {
            bytes,
            masks,
            cell_size,
            depth,
            parent_shape,
            region,
        }
    }

    /// The target of a type that is not optional: `bytes` has a cell for each position of the parent.
    ///
    /// # Errors
    /// As `check`. What was lent comes back as it was.
    pub fn new_fixed(
        bytes: &'a mut [u8],
        cell_size: usize,
        parent_shape: &'r [u64],
        region: &'r ArraySubset,
    ) -> Result<ArrayBytesDecodeIntoTarget<'a, 'm, 'r>, RefusedTarget<'a, 'm>>
        ensures accepted { IsOk result ↔ IsTargetOver (length bytes.old) cell_size 0 0
            parent_shape.now (box_of region.now) }
        ensures bytes { IfOk result (IsOverBytes bytes.entry cell_size 0 parent_shape.now
            (box_of region.now)) }
        ensures same_bytes_back { IfErr result (λ r. r.bytes.ghost_name ≡ bytes.entry.ghost_name) }
        ensures bytes_back { IfErr result (λ r. r.bytes.now ≡ bytes.old) }
    {
        ArrayBytesDecodeIntoTarget::new_optional(bytes, cell_size, &mut [], 0, parent_shape, region)
    }

    /// The target of a type that is optional at `depth` levels: `masks` has a mask of the parent for each, the
    /// outermost first.
    ///
    /// # Errors
    /// As `check`. What was lent comes back as it was.
    pub fn new_optional(
        bytes: &'a mut [u8],
        cell_size: usize,
        masks: &'m mut [u8],
        depth: usize,
        parent_shape: &'r [u64],
        region: &'r ArraySubset,
    ) -> Result<ArrayBytesDecodeIntoTarget<'a, 'm, 'r>, RefusedTarget<'a, 'm>>
        ensures accepted { IsOk result ↔ IsTargetOver (length bytes.old) cell_size
            (length masks.old) depth parent_shape.now (box_of region.now) }
        ensures bytes { IfOk result (IsOverBytes bytes.entry cell_size depth parent_shape.now
            (box_of region.now)) }
        ensures masks { IfOk result (IsOverMasks masks.entry) }
        ensures same_bytes_back { IfErr result (λ r. r.bytes.ghost_name ≡ bytes.entry.ghost_name) }
        ensures same_masks_back { IfErr result (λ r. r.masks.ghost_name ≡ masks.entry.ghost_name) }
        ensures bytes_back { IfErr result (λ r. r.bytes.now ≡ bytes.old) }
        ensures masks_back { IfErr result (λ r. r.masks.now ≡ masks.old) }
    {
        if ArrayBytesDecodeIntoTarget::check(
            bytes,
            cell_size,
            masks,
            depth,
            parent_shape,
            region,
        ).is_err()
        {
            return Err(RefusedTarget { bytes, masks });
        }
        Ok(ArrayBytesDecodeIntoTarget::over(bytes, cell_size, masks, depth, parent_shape, region))
    }
}

/// A smaller box of a target, with the target's slices. `rejoin` takes it back: it cannot be dropped.
#[derive(Debug)]
pub struct SubdividedTarget<'a, 'm, 'r> {
    /// The target whose box is the smaller one.
    pub target: ArrayBytesDecodeIntoTarget<'a, 'm, 'r>,
}

impl<'a, 'm, 'r> ArrayBytesDecodeIntoTarget<'a, 'm, 'r> {
    ghost use Rattle.zarrs_data_type_region.specs.States.{IsLent, IsOverBytes, IsOverMasks, KeepsTarget, TakesBack};
    ghost use Rattle.zarrs_data_type_region.specs.States.{data_of_target, parent_box, target_box};

    /// Lends the box `region` of the same parent, whose start and end lie in this target's box. Until `rejoin` takes it
    /// back, the cells of this target have no bytes.
    pub fn subdivide<'s>(&mut self, region: &'s ArraySubset) -> SubdividedTarget<'a, 'm, 's>
    where
        'r: 's,
        requires inside { LiesInBox (box_of region.now) (target_box self.old) }
        ensures bytes { IsOverBytes self.old.bytes self.old.cell_size self.old.depth
            self.old.parent_shape.now (box_of region.now) result.target }
        ensures masks { IsOverMasks self.old.masks result.target }
        ensures lent { IsLent self.old self.new }
    {
        let part = ArrayBytesDecodeIntoTarget {
            cell_size: mem::replace(&mut self.cell_size, 0),
            depth: mem::replace(&mut self.depth, 0),
            bytes: mem::replace(&mut self.bytes, &mut []),
            masks: mem::replace(&mut self.masks, &mut []),
            parent_shape: self.parent_shape,
            region,
        };
        SubdividedTarget { target: part }
    }

    /// Takes back a smaller box that this target lent: this target has what was written into it.
    pub fn rejoin(&mut self, part: SubdividedTarget<'a, 'm, '_>)
        requires parent { part.target.parent_shape.now ≡ self.old.parent_shape.now }
        ensures { TakesBack self.old part.entry.target self.new }
    {
        let SubdividedTarget { target } = part;
        let ArrayBytesDecodeIntoTarget {
            bytes,
            masks,
            cell_size,
            depth,
            parent_shape: _,
            region: _,
        } = target;
        self.bytes = bytes;
        self.masks = masks;
        self.cell_size = cell_size;
        self.depth = depth;
    }

    /// Whether the cells of the type have the target's size and as many masks.
    pub fn takes_type(&self, data_type: &DataType) -> bool
        ensures { result ≡ takes_type self.now.cell_size self.now.depth (kind data_type.now) }
    {
        match data_type.fixed_size() {
            Some(size) => size == self.cell_size && is_depth(data_type, self.depth),
            None => false,
        }
    }

    /// Whether the data is one cell of the target's size for each position of the box, under as many masks. This is the
    /// test for what `write_cells` requires.
    pub fn takes_data(&self, region_data: &ArrayBytes<'_>) -> bool
        ensures { IsTrue result ↔ HasLevels self.now.depth self.now.cell_size
            (position_count (target_box self.now).shape) (data_of region_data.now) }
    {
        match self.region.num_elements() {
            Ok(count) => has_levels(region_data, self.depth, self.cell_size, count),
            Err(_) => unreachable!(),
        }
    }

    /// Writes the cells of the box, in row-major order, to their places. What lies under a none moves with its mask.
    /// Every byte outside the box stays.
    ///
    /// # Errors
    /// If out of memory; then every byte stays.
    pub fn write_cells(
        &mut self,
        alloc: Global,
        region_data: &ArrayBytes<'_>,
    ) -> Result<(), AllocError>
        requires { HasLevels self.old.depth self.old.cell_size
            (position_count (target_box self.old).shape) (data_of region_data.now) }
        ensures kept { KeepsTarget self.old self.new }
        ensures written { OnOk result (TakesLevels self.old.cell_size (parent_box self.old)
            (target_box self.old) (data_of region_data.now)
            (data_of_target self.old) (data_of_target self.new)) }
        ensures cells { OnOk result ((k : Kind)
            → takes_type self.old.cell_size self.old.depth k ≡ true
            → fits k (data_of region_data.now) (position_count (target_box self.old).shape) ≡ true
            → TakesEach k (parent_box self.old) (target_box self.old) (data_of region_data.now)
            (data_of_target self.old) (data_of_target self.new)) }
        ensures kept_bytes { OnErr result (self.new.bytes.now ≡ self.old.bytes.now) }
        ensures kept_masks { OnErr result (self.new.masks.now ≡ self.old.masks.now) }
    {
        let origin = vec![in alloc; 0u64; self.parent_shape.len()]?;
        let place = Place {
            shape: self.parent_shape,
            origin: origin.as_slice(),
            region: self.region,
            count: positions(self.parent_shape),
            cell_size: self.cell_size,
        };
        write_levels(region_data, self.depth, &place, self.masks, self.bytes);
        Ok(())
    }
}

/// Whether so many positions, of so many bytes each, take `len` bytes.
fn has_parts(len: usize, count: u64, size: usize) -> bool
    ensures { IsTrue result ↔ (len ≡ count * size) }
{
    count.checked_mul(size as u64) == Some(len as u64)
}

/// Whether the type is optional at so many levels.
fn is_depth(data_type: &DataType, depth: usize) -> bool
    ensures { result ≡ (depth_of (kind data_type.now) == depth) }
{
    match data_type {
        DataType::Optional(inner) => depth > 0 && is_depth(inner, depth - 1),
        _ => depth == 0,
    }
}

/// Whether the data is so many cells of this size, under so many masks.
fn has_levels(region_data: &ArrayBytes<'_>, depth: usize, size: usize, count: u64) -> bool
    ensures { IsTrue result ↔ HasLevels depth size count (data_of region_data.now) }
{
    match region_data {
        ArrayBytes::Fixed(cells) => depth == 0 && has_parts(cells.as_slice().len(), count, size),
        ArrayBytes::Optional(optional) => {
            depth > 0
                && optional.mask().len() as u64 == count
                && has_levels(optional.data(), depth - 1, size, count)
        }
        ArrayBytes::Variable(_) => false,
    }
}

/// Where a target's box lies.
#[derive(Clone, Copy)]
pub(crate) struct Place<'r> {
    /// The shape of the parent.
    pub(crate) shape: &'r [u64],
    /// The first position of the parent, or nothing for a fill, which does not read it.
    pub(crate) origin: &'r [u64],
    /// The box.
    pub(crate) region: &'r ArraySubset,
    /// The number of positions of the parent.
    pub(crate) count: usize,
    /// The size of a cell in bytes.
    pub(crate) cell_size: usize,
}

/// Writes the data level by level: a mask, and what lies under it.
fn write_levels(
    region_data: &ArrayBytes<'_>,
    depth: usize,
    place: &Place<'_>,
    masks: &mut [u8],
    bytes: &mut [u8],
)
    requires origin { place.now.origin.now ≡ (box_at_origin place.now.shape.now).start }
    requires inside { LiesInShape (box_of place.now.region.now) place.now.shape.now }
    requires count { place.now.count ≡ position_count place.now.shape.now }
    requires data { HasLevels depth place.now.cell_size
        (position_count (box_of place.now.region.now).shape) (data_of region_data.now) }
    requires bytes_len { length bytes.old ≡ place.now.count * place.now.cell_size }
    requires masks_len { length masks.old ≡ place.now.count * depth }
    ensures { TakesLevels place.now.cell_size (box_at_origin place.now.shape.now)
        (box_of place.now.region.now) (data_of region_data.now)
        (masked depth place.now.count masks.old bytes.old)
        (masked depth place.now.count masks.new bytes.new) }
{
    match region_data {
        ArrayBytes::Fixed(cells) => {
            write_part(place, bytes, cells.as_slice(), place.cell_size);
        }
        ArrayBytes::Optional(optional) => {
            write_mask(place, masks, optional.mask());
            let rest = &mut masks[place.count..];
            write_levels(optional.data(), depth - 1, place, rest, bytes);
        }
        ArrayBytes::Variable(_) => unreachable!(),
    }
}

/// Writes the outermost mask. The others stay.
fn write_mask(place: &Place<'_>, masks: &mut [u8], mask: &[u8])
    requires origin { place.now.origin.now ≡ (box_at_origin place.now.shape.now).start }
    requires inside { LiesInShape (box_of place.now.region.now) place.now.shape.now }
    requires count { place.now.count ≡ position_count place.now.shape.now }
    requires masks_len { place.now.count ≤ length masks.old }
    requires mask_len { length mask.now ≡ position_count (box_of place.now.region.now).shape }
    ensures written { TakesAt (box_at_origin place.now.shape.now) (box_of place.now.region.now)
        (slice_index mask.now) (slice_index (take place.now.count masks.old))
        (slice_index (take place.now.count masks.new)) }
    ensures room { place.now.count ≤ length masks.new }
    ensures others { drop place.now.count masks.new ≡ drop place.now.count masks.old }
{
    write_part(place, &mut masks[..place.count], mask, 1);
}

/// Writes the bytes of one level, so many for each position of the box.
fn write_part(place: &Place<'_>, target: &mut [u8], part: &[u8], size: usize)
    requires origin { place.now.origin.now ≡ (box_at_origin place.now.shape.now).start }
    requires inside { LiesInShape (box_of place.now.region.now) place.now.shape.now }
    requires target_len { length target.old ≡ position_count place.now.shape.now * size }
    requires part_len { length part.now
        ≡ position_count (box_of place.now.region.now).shape * size }
    ensures { TakesAt (box_at_origin place.now.shape.now) (box_of place.now.region.now)
        (piece_at size part.now) (piece_at size target.old) (piece_at size target.new) }
{
    let extents = place.region.shape();
    let from = Corner {
        shape: extents,
        start: place.origin,
    };
    let to = Corner {
        shape: place.shape,
        start: place.region.start(),
    };
    copy_box(part, from, target, to, extents, size);
}

/// Fills the box level by level with the one cell of `cell`.
pub(crate) fn fill_levels(
    cell: &ArrayBytes<'_>,
    depth: usize,
    place: &Place<'_>,
    masks: &mut [u8],
    bytes: &mut [u8],
)
    requires inside { LiesInShape (box_of place.now.region.now) place.now.shape.now }
    requires count { place.now.count ≡ position_count place.now.shape.now }
    requires counted { position_count place.now.shape.now < 2 ^ 64 }
    requires data { HasLevels depth place.now.cell_size 1 (data_of cell.now) }
    requires bytes_len { length bytes.old ≡ place.now.count * place.now.cell_size }
    requires masks_len { length masks.old ≡ place.now.count * depth }
    ensures { TakesLevels place.now.cell_size (box_at_origin place.now.shape.now)
        (box_of place.now.region.now)
        (repeated (position_count (box_of place.now.region.now).shape) (data_of cell.now))
        (masked depth place.now.count masks.old bytes.old)
        (masked depth place.now.count masks.new bytes.new) }
{
    match cell {
        ArrayBytes::Fixed(piece) => fill_part(place, bytes, piece.as_slice()),
        ArrayBytes::Optional(optional) => {
            fill_mask(place, masks, optional.mask());
            let rest = &mut masks[place.count..];
            fill_levels(optional.data(), depth - 1, place, rest, bytes);
        }
        ArrayBytes::Variable(_) => unreachable!(),
    }
}

/// Fills the box of the outermost mask with the one flag of `flag`. The others stay.
fn fill_mask(place: &Place<'_>, masks: &mut [u8], flag: &[u8])
    requires inside { LiesInShape (box_of place.now.region.now) place.now.shape.now }
    requires count { place.now.count ≡ position_count place.now.shape.now }
    requires counted { position_count place.now.shape.now < 2 ^ 64 }
    requires masks_len { place.now.count ≤ length masks.old }
    requires flag_len { length flag.now ≡ 1 }
    ensures filled { TakesAt (box_at_origin place.now.shape.now) (box_of place.now.region.now)
        (slice_index (repeat (position_count (box_of place.now.region.now).shape) flag.now))
        (slice_index (take place.now.count masks.old))
        (slice_index (take place.now.count masks.new)) }
    ensures room { place.now.count ≤ length masks.new }
    ensures others { drop place.now.count masks.new ≡ drop place.now.count masks.old }
{
    fill_part(place, &mut masks[..place.count], flag);
}

/// Writes the piece to each position of the box, in rows that lie together in the parent.
fn fill_part(place: &Place<'_>, target: &mut [u8], piece: &[u8])
    requires inside { LiesInShape (box_of place.now.region.now) place.now.shape.now }
    requires count { place.now.count ≡ position_count place.now.shape.now }
    requires counted { position_count place.now.shape.now < 2 ^ 64 }
    requires target_len { length target.old ≡ place.now.count * length piece.now }
    ensures { TakesAt (box_at_origin place.now.shape.now) (box_of place.now.region.now)
        (piece_at (length piece.now)
        (repeat (position_count (box_of place.now.region.now).shape) piece.now))
        (piece_at (length piece.now) target.old) (piece_at (length piece.now) target.new) }
{
    if place.region.is_empty() {
        return;
    }
    let extents = place.region.shape();
    fill_blocks(
        row_axis(place.shape, extents),
        place.shape,
        place.region.start(),
        extents,
        target,
        piece,
    );
}

/// The same, for a box that has positions and whose rows lie together from dimension `axis` on: one block of the first
/// dimension after the other. Dimensions of extent 1 behind it are passed over, so that the calls nest only as deep as
/// there are longer ones.
fn fill_blocks(
    axis: usize,
    shape: &[u64],
    start: &[u64],
    extents: &[u64],
    target: &mut [u8],
    piece: &[u8],
)
    requires fits { BoxFits start.now extents.now shape.now }
    requires counted { position_count shape.now < 2 ^ 64 }
    requires some { 0 < position_count extents.now }
    requires axis { axis ≤ length shape.now }
    requires whole { drop (axis + 1) shape.now ≡ drop (axis + 1) extents.now }
    requires target_len { length target.old ≡ position_count shape.now * length piece.now }
    ensures { IsFilledBox (length piece.now) shape.now start.now extents.now piece.now
        target.old target.new }
{
    if axis == 0 {
        fill_row(shape, start, extents, target, piece);
        return;
    }
    if axis == 1 {
        fill_plane(shape, start, extents, target, piece);
        return;
    }
    let block = positions(&shape[1..]) * piece.len();
    let next = leading_ones(&shape[1..axis]) + 1;
    for index in start[0]..start[0] + extents[0] {
        let from = index as usize * block;
        fill_blocks(
            axis - next,
            &shape[next..],
            &start[next..],
            &extents[next..],
            &mut target[from..from + block],
            piece,
        );
    }
}

/// How many of the first extents are 1.
fn leading_ones(shape: &[u64]) -> usize
    ensures within { result ≤ length shape.now }
    ensures counted { result ≡ prefix_len (λ extent. extent == 1) shape.now }
{
    let mut count = 0;
    while count < shape.len() && shape[count] == 1 {
        count += 1;
    }
    count
}

/// Writes the piece to each position of a box that is one row.
fn fill_row(shape: &[u64], start: &[u64], extents: &[u64], target: &mut [u8], piece: &[u8])
    requires fits { BoxFits start.now extents.now shape.now }
    requires counted { position_count shape.now < 2 ^ 64 }
    requires some { 0 < position_count extents.now }
    requires whole { drop 1 shape.now ≡ drop 1 extents.now }
    requires target_len { length target.old ≡ position_count shape.now * length piece.now }
    ensures { IsFilledBox (length piece.now) shape.now start.now extents.now piece.now
        target.old target.new }
{
    let count = positions(extents);
    let from = number_of(start, shape) * piece.len();
    fill_run(&mut target[from..from + count * piece.len()], piece, count);
}

/// Writes the piece to each position of a box with a row for each index of its first dimension. The first row is filled,
/// and the others are copies of it.
fn fill_plane(shape: &[u64], start: &[u64], extents: &[u64], target: &mut [u8], piece: &[u8])
    requires fits { BoxFits start.now extents.now shape.now }
    requires counted { position_count shape.now < 2 ^ 64 }
    requires some { 0 < position_count extents.now }
    requires dimensions { 0 < length shape.now }
    requires whole { drop 2 shape.now ≡ drop 2 extents.now }
    requires target_len { length target.old ≡ position_count shape.now * length piece.now }
    ensures { IsFilledBox (length piece.now) shape.now start.now extents.now piece.now
        target.old target.new }
{
    let count = positions(&extents[1..]);
    let len = count * piece.len();
    let stride = positions(&shape[1..]) * piece.len();
    let from = number_of(start, shape) * piece.len();
    fill_run(&mut target[from..from + len], piece, count);
    for row in 1..extents[0] as usize {
        copy_run(target, from, len, from + row * stride);
    }
}

/// Copies the `len` bytes at `from` to `to`, behind them.
fn copy_run(target: &mut [u8], from: usize, len: usize, to: usize)
    requires behind { from + len ≤ to }
    requires room { to + len ≤ length target.old }
    ensures { target.new ≡ copy_within target.old from (from + len) to }
{
    let (front, rest) = target.split_at_mut(to);
    rest[..len].copy_from_slice(&front[from..from + len]);
}

/// The dimension from which on a row of the box lies together: the last one that is not whole, or the first.
fn row_axis(shape: &[u64], extents: &[u64]) -> usize
    requires long { length shape.now ≡ length extents.now }
    ensures within { result ≤ length shape.now }
    ensures whole { drop (result + 1) shape.now ≡ drop (result + 1) extents.now }
{
    let mut axis = shape.len();
    while axis > 0 {
        axis -= 1;
        if shape[axis] != extents[axis] {
            return axis;
        }
    }
    axis
}

/// Writes the piece `count` times, one behind the other. Each copy is as long as what stands there already, up to a
/// length that stays in the nearest cache.
fn fill_run(target: &mut [u8], piece: &[u8], count: usize)
    requires { length target.old ≡ count * length piece.now }
    ensures { target.new ≡ repeat count piece.now }
{
    if target.is_empty() {
        return;
    }
    target[..piece.len()].copy_from_slice(piece);
    let mut done = piece.len();
    let mut block = done;
    while done < target.len() {
        let (front, rest) = target.split_at_mut(done);
        let some = block.min(rest.len());
        rest[..some].copy_from_slice(&front[..some]);
        done += some;
        if block < BLOCK_LEN {
            block = done;
        }
    }
}

/// The number of positions of an array of this shape.
pub(crate) fn positions(shape: &[u64]) -> usize
    requires { position_count shape.now < 2 ^ 64 }
    ensures { result ≡ position_count shape.now }
{
    match element_count(shape) {
        Some(count) => count as usize,
        None => unreachable!(),
    }
}

/// The row-major number of a position of an array of this shape.
fn number_of(position: &[u64], shape: &[u64]) -> usize
    requires inside { InShape shape.now position.now }
    requires counted { position_count shape.now < 2 ^ 64 }
    ensures { result ≡ place shape.now position.now }
{
    match ravel_indices(position, shape) {
        Some(number) => number as usize,
        None => unreachable!(),
    }
}
