//! The chunks that a change of the array's shape cuts, one after another.
ghost use Rattle.std.specs.Prelude.{◌≡◌, ℕ, ◌+◌, ◌<◌, ◌≤◌, false, true, length, slice_index};
ghost use Rattle.std.specs.Prelude.{IfSome, IfNone};
ghost use Rattle.std.specs.Bool.{OnTrue, OnFalse};
ghost use Rattle.zarrs_subset.specs.Boxes.{position_count};
ghost use Rattle.zarrs_subset.specs.Regions.{box_at_origin, place_in};
ghost use Rattle.zarrs_engine_calls.specs.Cuts.{is_below};
ghost use Rattle.zarrs_engine_layout.specs.WholeChunks.{PassesBelow};

use crate::array_layout::ArrayLayout;
use std::alloc::{AllocError, Global};
use zarrs_chunk_grid::ChunkGridTraits;
use zarrs_codec_chain::ChainTraits;
use zarrs_keys::ChunkKeyEncodingTraits;
use zarrs_subset::{ArrayIndices, ArrayShape, has_zero};

/// A walk in row-major order through those positions of an array that are not below another shape. It lends the
/// position that it is at. It takes no memory on the way, and goes past a whole range of positions below the shape in one
/// step.
#[derive(Debug, Drop)]
pub struct CutWalk {
    shape: ArrayShape,
    /// The positions below this shape are left out.
    whole: ArrayShape,
    /// The last dimension along which the array reaches past it.
    axis: usize,
    current: ArrayIndices,
    ghost inside: { is_below shape.items current.items ≡ true },
    ghost outside: { is_below whole.items current.items ≡ false },
    ghost same_length: { length whole.items ≡ length shape.items },
    ghost reaches: { slice_index whole.items axis < slice_index shape.items axis },
    ghost later: { (k : ℕ) → axis < k → slice_index shape.items k ≤ slice_index whole.items k },
}

impl CutWalk {
    ghost use Rattle.std.specs.Prelude.{Some, slice_get, IfOk, MatchOption};
    ghost use Rattle.zarrs_subset.specs.Regions.{positions};
    ghost use Rattle.zarrs_engine_layout.specs.CutWalks.{IsFirst, walk_box, walk_number, walk_whole};

    /// Makes a walk at the first position of an array of `shape` that is not below `whole`, if there is one.
    fn new(
        alloc: Global,
        shape: ArrayShape,
        whole: ArrayShape,
    ) -> Result<Option<CutWalk>, AllocError>
        requires { length whole.items ≡ length shape.items }
        ensures { IfOk result (λ o. MatchOption o
            (PassesBelow shape.items whole.items 0 (position_count shape.items))
            (IsFirst shape.items whole.items)) }
    {
        let Some(axis) = last_axis(&shape, &whole) else {
            return Ok(None);
        };
        if has_zero(&shape) {
            return Ok(None);
        }
        let mut current = vec![in alloc; 0; shape.len()]?;
        skip(&mut current, &shape, &whole, axis);
        Ok(Some(CutWalk {
            shape,
            whole,
            axis,
            current,
        }))
    }

    /// Returns the position that the walk is at.
    pub fn current(&self) -> &[u64]
        ensures at { slice_get (positions (walk_box self.now)) (walk_number self.now)
            ≡ Some result.now }
        ensures outside { is_below (walk_whole self.now) result.now ≡ false }
    {
        self.current.as_slice()
    }

    /// Goes to the next position that is not below the shape. From the last one it goes back to the first, and returns
    /// `false`.
    pub fn advance(&mut self) -> bool
        ensures same_box { walk_box self.new ≡ walk_box self.old }
        ensures same_whole { walk_whole self.new ≡ walk_whole self.old }
        ensures next { OnTrue result (walk_number self.old < walk_number self.new) }
        ensures passes { OnTrue result (PassesBelow (walk_box self.old).shape
            (walk_whole self.old) (walk_number self.old + 1) (walk_number self.new)) }
        ensures last { OnFalse result (walk_number self.old + 1
            ≡ length (positions (walk_box self.old))) }
        ensures first { OnFalse result (PassesBelow (walk_box self.old).shape
            (walk_whole self.old) 0 (walk_number self.new)) }
    {
        advance(&mut self.current, &self.shape, &self.whole, self.axis)
    }
}

/// Returns the last dimension along which the array of `shape` reaches past `whole`.
fn last_axis(shape: &[u64], whole: &[u64]) -> Option<usize>
    requires { length whole.now ≡ length shape.now }
    ensures some { IfSome result
        (λ axis. slice_index whole.now axis < slice_index shape.now axis) }
    ensures later { IfSome result
        (λ axis. (k : ℕ) → axis < k → slice_index shape.now k ≤ slice_index whole.now k) }
    ensures none { IfNone result ((k : ℕ) → slice_index shape.now k ≤ slice_index whole.now k) }
{
    let mut axis = shape.len();
    while axis > 0 {
        axis -= 1;
        if whole[axis] < shape[axis] {
            return Some(axis);
        }
    }
    None
}

/// Returns whether the position is below the shape.
fn lies_below(position: &[u64], shape: &[u64]) -> bool
    requires { length shape.now ≡ length position.now }
    ensures { result ≡ is_below shape.now position.now }
{
    for (axis, index) in position.iter().enumerate() {
        if *index >= shape[axis] {
            return false;
        }
    }
    true
}

/// Goes to the next position of an array of this shape. From the last one it goes back to the first, and returns `false`.
fn step(position: &mut [u64], shape: &[u64]) -> bool
    requires { is_below shape.now position.old ≡ true }
    ensures inside { is_below shape.now position.new ≡ true }
    ensures next { OnTrue result (place_in (box_at_origin shape.now) position.new
        ≡ place_in (box_at_origin shape.now) position.old + 1) }
    ensures last { OnFalse result (place_in (box_at_origin shape.now) position.old + 1
        ≡ position_count shape.now) }
    ensures first { OnFalse result (place_in (box_at_origin shape.now) position.new ≡ 0) }
{
    let mut axis = shape.len();
    while axis > 0 {
        axis -= 1;
        if position[axis] < shape[axis] - 1 {
            position[axis] += 1;
            return true;
        }
        position[axis] = 0;
    }
    false
}

/// From a position below `whole` goes to the next one that is not: the first one with index `whole[axis]` along `axis`.
fn skip(position: &mut [u64], shape: &[u64], whole: &[u64], axis: usize)
    requires inside { is_below shape.now position.old ≡ true }
    requires same_length { length whole.now ≡ length shape.now }
    requires reaches { slice_index whole.now axis < slice_index shape.now axis }
    requires later { (k : ℕ) → axis < k → slice_index shape.now k ≤ slice_index whole.now k }
    ensures inside { is_below shape.now position.new ≡ true }
    ensures outside { is_below whole.now position.new ≡ false }
    ensures next { place_in (box_at_origin shape.now) position.old
        ≤ place_in (box_at_origin shape.now) position.new }
    ensures passes { PassesBelow shape.now whole.now
        (place_in (box_at_origin shape.now) position.old)
        (place_in (box_at_origin shape.now) position.new) }
{
    if !lies_below(position, whole) {
        return;
    }
    position[axis..].fill(0);
    position[axis] = whole[axis];
}

/// Goes to the next position of an array of `shape` that is not below `whole`. From the last one it goes back to the
/// first, and returns `false`.
fn advance(position: &mut [u64], shape: &[u64], whole: &[u64], axis: usize) -> bool
    requires inside { is_below shape.now position.old ≡ true }
    requires same_length { length whole.now ≡ length shape.now }
    requires reaches { slice_index whole.now axis < slice_index shape.now axis }
    requires later { (k : ℕ) → axis < k → slice_index shape.now k ≤ slice_index whole.now k }
    ensures inside { is_below shape.now position.new ≡ true }
    ensures outside { is_below whole.now position.new ≡ false }
    ensures next { OnTrue result (place_in (box_at_origin shape.now) position.old
        < place_in (box_at_origin shape.now) position.new) }
    ensures passes { OnTrue result (PassesBelow shape.now whole.now
        (place_in (box_at_origin shape.now) position.old + 1)
        (place_in (box_at_origin shape.now) position.new)) }
    ensures last { OnFalse result (place_in (box_at_origin shape.now) position.old + 1
        ≡ position_count shape.now) }
    ensures first { OnFalse result (PassesBelow shape.now whole.now 0
        (place_in (box_at_origin shape.now) position.new)) }
{
    let found = step(position, shape);
    skip(position, shape, whole, axis);
    found
}

impl<G: ChunkGridTraits, K: ChunkKeyEncodingTraits, C: ChainTraits> ArrayLayout<G, K, C> {
    ghost use Rattle.std.specs.Prelude.{IfOk};
    ghost use Rattle.zarrs_engine_layout.specs.CutWalks.{HasNoCut, IsCutWalk};
    ghost use Rattle.zarrs_engine_layout.specs.WholeChunks.{AreWhole};

    /// Returns how many chunks lie below the shape along each dimension, from the first one on. Where no chunk ends
    /// past the shape, all chunks of the array do.
    fn whole_chunks(&self, alloc: Global, shape: &[u64]) -> Result<ArrayShape, AllocError>
        requires { length shape.now ≡ (G.grid self.now.grid).dimensions }
        ensures { IfOk result (λ whole. AreWhole (G.grid self.now.grid)
            (G.grid_extents self.now.grid) shape.now whole.items) }
    {
        let grid_shape = self.grid.grid_shape();
        let mut whole = Vec::with_capacity(alloc, shape.len())?;
        for (dimension, extent) in shape.iter().enumerate() {
            let first_cut = self.grid.chunk_number(dimension, *extent);
            whole.push(first_cut.unwrap_or(grid_shape[dimension]))?;
        }
        Ok(whole)
    }

    /// Returns a walk through the chunks of the array that a change of its shape to this one cuts, in row-major order.
    /// It is at the first of them, and comes to no other chunk. `None` if no chunk is cut.
    ///
    /// # Errors
    /// `AllocError`: out of memory.
    pub fn cut_walk(&self, alloc: Global, shape: &[u64]) -> Result<Option<CutWalk>, AllocError>
        requires { length shape.now ≡ (G.grid self.now.grid).dimensions }
        ensures none { IfOk result (λ o. IfNone o (HasNoCut (G.grid self.now.grid)
            (G.array_extents self.now.grid) shape.now)) }
        ensures some { IfOk result (λ o. IfSome o (IsCutWalk (G.grid self.now.grid)
            (G.array_extents self.now.grid) shape.now)) }
    {
        let whole = self.whole_chunks(alloc, shape)?;
        let grid_shape = Vec::from_slice(alloc, self.grid.grid_shape())?;
        CutWalk::new(alloc, grid_shape, whole)
    }
}
