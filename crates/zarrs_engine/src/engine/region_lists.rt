//! Reads of regions of a fixed type: their chunks are decoded into one list of cells.
use super::Engine;
use std::alloc::{AllocError, Global};
use std::borrow::CowSlice;
use zarrs_chunk_grid::ChunkGridTraits;
use zarrs_codec_chain::ChainTraits;
use zarrs_data_type::{ArrayBytes, ArrayBytesDecodeIntoTarget, CellType, DataType};
use zarrs_engine_calls::ArrayError;
use zarrs_keys::ChunkKeyEncodingTraits;
use zarrs_storage::ReadableStorageTraits;
use zarrs_subset::ArraySubset;

impl<
    S: ReadableStorageTraits,
    G: ChunkGridTraits,
    K: ChunkKeyEncodingTraits,
    C: ChainTraits,
> Engine<S, G, K, C> {
    ghost use Rattle.std.specs.Prelude.{◌≡◌, ◌*◌, ◌<◌, ◌^◌, true, Some, IfErr, IfOk, OnOk, length};
    ghost use Rattle.std.specs.Prelude.{replicate};
    ghost use Rattle.zarrs_engine_calls.specs.Refusals.{refusal_of};
    ghost use Rattle.zarrs_engine_calls.specs.StateRefusals.{RefusesSomeChunk};
    ghost use Rattle.zarrs_data_type.specs.ArrayData.{fixed};
    ghost use Rattle.zarrs_data_type.specs.Cells.{cells};
    ghost use Rattle.zarrs_subset.specs.Boxes.{position_count};
    ghost use Rattle.zarrs_subset.specs.Regions.{box_at_origin, box_of, positions};
    ghost use Rattle.zarrs_data_type.specs.Targets.{masked, takes_type};
    ghost use Rattle.zarrs_engine.specs.Engine.{layout_of, store_of};
    ghost use Rattle.zarrs_engine.specs.RegionReads.{MayReadOver, ReadsOver};
    ghost use Rattle.zarrs_engine.specs.TargetReads.{HasReadInto};

    /// Returns the cells of a region that these chunks cover, of a type of this form. They are one list, into which
    /// each chunk is decoded.
    pub(super) fn read_in_list(
        &self,
        alloc: Global,
        region: &ArraySubset,
        chunks: &ArraySubset,
        form: CellForm,
    ) -> Result<ArrayBytes<'static>, ArrayError>
        requires over { MayReadOver (layout_of self.now) (box_of region.now)
            (positions (box_of chunks.now)) (store_of S.state self.now) }
        requires takes { takes_type form.size form.depth (layout_of self.now).kind ≡ true }
        ensures { ReadsOver (layout_of self.now) (box_of region.now)
            (positions (box_of chunks.now)) (store_of S.state self.now) result }
    {
        let count = self.layout.cell_count(region)? as usize;
        let mut bytes = self.first_bytes(alloc, count, form)?;
        let mut masks = zero_masks(alloc, count, form.depth)?;
        self.read_into_list(alloc, region, chunks, form, &mut bytes, &mut masks)?;
        let made = under_masks(alloc, form.depth, count, into_flags(masks), bytes)?;
        Ok(made)
    }

    /// Returns what the bytes of so many cells begin as: fill values, or zeros that lie under masks.
    fn first_bytes(
        &self,
        alloc: Global,
        count: usize,
        form: CellForm,
    ) -> Result<Vec<u8>, AllocError>
        requires takes { takes_type form.size form.depth (layout_of self.now).kind ≡ true }
        requires size { count * form.size < 2 ^ 64 }
        ensures len { IfOk result (λ made. length made.items ≡ count * form.size) }
        ensures filled { IfOk result (λ made. form.depth ≡ 0
            → cells (layout_of self.now).kind (fixed made.items)
            ≡ Some (replicate count (layout_of self.now).fill)) }
    {
        if form.depth > 0 {
            return vec![in alloc; 0u8; count * form.size];
        }
        let CellType {
            data_type,
            fill_value,
        } = &self.layout.cell_type;
        let made = ArrayBytes::new_fill_value(alloc, data_type, count as u64, fill_value)?;
        let ArrayBytes::Fixed(bytes) = made else {
            unreachable!()
        };
        let first = bytes.into_owned(alloc)?;
        Ok(first)
    }

    /// Reads the region into a list of its cells, and of their masks. Where there is no mask, the bytes are fill values.
    fn read_into_list(
        &self,
        alloc: Global,
        region: &ArraySubset,
        chunks: &ArraySubset,
        form: CellForm,
        bytes: &mut [u8],
        masks: &mut [u8],
    ) -> Result<(), ArrayError>
        requires over { MayReadOver (layout_of self.now) (box_of region.now)
            (positions (box_of chunks.now)) (store_of S.state self.now) }
        requires takes { takes_type form.size form.depth (layout_of self.now).kind ≡ true }
        requires counted { position_count (box_of region.now).shape < 2 ^ 64 }
        requires small { length bytes.old < 2 ^ 64 }
        requires bytes_len { length bytes.old
            ≡ position_count (box_of region.now).shape * form.size }
        requires masks_len { length masks.old
            ≡ position_count (box_of region.now).shape * form.depth }
        requires filled { form.depth ≡ 0 → cells (layout_of self.now).kind (fixed bytes.old)
            ≡ Some (replicate (position_count (box_of region.now).shape)
            (layout_of self.now).fill) }
        ensures read { OnOk result (HasReadInto (layout_of self.now) (box_of region.now)
            (positions (box_of chunks.now)) (store_of S.state self.now)
            (box_at_origin (box_of region.now).shape) (box_at_origin (box_of region.now).shape)
            (masked form.depth (position_count (box_of region.now).shape) masks.new bytes.new)) }
        ensures refused { IfErr result (λ e. RefusesSomeChunk (layout_of self.now)
            (box_of region.now) (positions (box_of chunks.now)) (store_of S.state self.now)
            (refusal_of e)) }
    {
        let own = ArraySubset::new_with_shape(alloc, region.shape().to_vec(alloc)?)?;
        let mut target = ArrayBytesDecodeIntoTarget::over(
            bytes,
            form.size,
            masks,
            form.depth,
            region.shape(),
            &own,
        );
        self.read_into(alloc, region, chunks, &mut target, form.depth == 0)
    }
}

ghost use Rattle.std.specs.Prelude.{◌≡◌, ◌*◌, ◌<◌, true, All, EachIndex, IfOk, IfSome, length, min};
ghost use Rattle.std.specs.Prelude.{slice_index};
ghost use Rattle.zarrs_data_type.specs.ArrayData.{data_of};
ghost use Rattle.zarrs_data_type.specs.Kind.{kind};
ghost use Rattle.zarrs_data_type.specs.Targets.{depth_of, masked, takes_type};

/// What a cell of a fixed type is in lists: so many bytes, and a byte in each of so many masks.
#[derive(Clone, Copy, Debug, Drop)]
pub(super) struct CellForm {
    size: usize,
    depth: usize,
}

/// Returns the form of the cells of a fixed type. Another type has none.
pub(super) fn form_of(data_type: &DataType) -> Option<CellForm>
    ensures { IfSome result (λ form. takes_type form.size form.depth (kind data_type.now) ≡ true) }
{
    let size = data_type.fixed_size()?;
    let depth = depth_of(data_type)?;
    Some(CellForm { size, depth })
}

/// Returns at how many levels the type is optional, or `None` for more of them than a `usize` counts.
fn depth_of(data_type: &DataType) -> Option<usize>
    ensures { IfSome result (λ depth. depth ≡ depth_of (kind data_type.now)) }
{
    match data_type {
        DataType::Optional(inner) => depth_of(inner)?.checked_add(1),
        _ => Some(0),
    }
}

/// Returns so many masks of `count` zeros each. Bytes that no `usize` counts are in no memory.
fn zero_masks(alloc: Global, count: usize, depth: usize) -> Result<Vec<u8>, AllocError>
    ensures { IfOk result (λ made. length made.items ≡ count * depth) }
{
    let Some(len) = count.checked_mul(depth) else {
        return Err(AllocError);
    };
    vec![in alloc; 0u8; len]
}

/// Returns these masks with 1 for each byte above 1, which means the same.
fn into_flags(masks: Vec<u8>) -> Vec<u8>
    ensures len { length result.items ≡ length masks.items }
    ensures same { EachIndex masks.items (λ i. slice_index result.items i
        ≡ min (slice_index masks.items i) 1) }
    ensures flags { All (λ flag. flag < 2) result.items }
{
    let mut flags = masks;
    for flag in flags.iter_mut() {
        *flag = (*flag).min(1);
    }
    flags
}

/// Returns cells of one size under so many masks of `count` flags each, the outermost first.
fn under_masks(
    alloc: Global,
    depth: usize,
    count: usize,
    masks: Vec<u8>,
    bytes: Vec<u8>,
) -> Result<ArrayBytes<'static>, AllocError>
    requires masks_len { length masks.items ≡ count * depth }
    requires flags { All (λ flag. flag < 2) masks.items }
    ensures { IfOk result (λ made. data_of made ≡ masked depth count masks.items bytes.items) }
{
    if depth == 0 {
        return Ok(ArrayBytes::new_flen(bytes));
    }
    let mut mask = masks;
    let rest = mask.split_off(count)?;
    let inner = under_masks(alloc, depth - 1, count, rest, bytes)?;
    inner.with_optional_mask(alloc, CowSlice::Owned(mask))
}
