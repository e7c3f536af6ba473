//! The positions of a box, one after another.

ghost use Rattle.std.specs.Prelude.{◌≡◌, ◌+◌, [], length, true, IfOk, MatchOption};
ghost use Rattle.std.specs.Bool.{OnTrue, OnFalse};
ghost use Rattle.std.specs.Iterator.{item_count};
ghost use Rattle.zarrs_subset.specs.Boxes.{position_count, EndsFit};
ghost use Rattle.zarrs_subset.specs.Regions.{Holds, IsLong, box_from, box_of, in_box, place_in, positions};

use crate::ArrayIndicesTinyVec;
use crate::subset::ArraySubset;
use smallvec::SmallVec;
use std::alloc::{AllocError, Global};

/// A walk through the positions of a box in row-major order, which lends the position that it is at. No position is
/// allocated on the way.
#[derive(Debug, Drop)]
pub struct PositionWalk<'a> {
    subset: &'a ArraySubset,
    current: ArrayIndicesTinyVec,
    ghost inside: { in_box (box_of subset.now) current.items ≡ true },
}

impl<'a> PositionWalk<'a> {
    ghost use Rattle.std.specs.Prelude.{Some, slice_get};
    ghost use Rattle.zarrs_subset.specs.Walks.{walk_box, walk_number};

    /// The position that the walk is at.
    #[inline]
    pub fn current(&self) -> &[u64]
        ensures { slice_get (positions (walk_box self.now)) (walk_number self.now)
            ≡ Some result.now }
    {
        self.current.as_slice()
    }

    /// Goes to the next position. From the last one it goes back to the first, and returns `false`.
    #[inline]
    pub fn advance(&mut self) -> bool
        ensures same_box { walk_box self.new ≡ walk_box self.old }
        ensures next { OnTrue result (walk_number self.new ≡ walk_number self.old + 1) }
        ensures last { OnFalse result (walk_number self.old + 1
            ≡ length (positions (walk_box self.old))) }
        ensures first { OnFalse result (walk_number self.new ≡ 0) }
    {
        let (start, shape) = (self.subset.start(), self.subset.shape());
        advance(self.current.as_mut_slice(), start, shape)
    }
}

/// The positions of a box in row-major order, as [`ArraySubset::indices`] returns them.
///
/// An item that is refused, because out of memory, is the last one.
#[derive(Debug, Drop)]
pub struct Indices<'a> {
    subset: &'a ArraySubset,
    alloc: Global,
    // The position that came last, if one came.
    current: ArrayIndicesTinyVec,
    is_started: bool,
    is_done: bool,
    ghost inside: { is_started ≡ true → in_box (box_of subset.now) current.items ≡ true },
}

impl ArraySubset {
    ghost use Rattle.zarrs_subset.specs.Walks.{positions_left, walk_box, walk_number};

    /// The positions of the box in row-major order.
    pub fn indices(&self, alloc: Global) -> Indices<'_>
        ensures { positions_left result ≡ positions (box_of self.now) }
    {
        Indices {
            subset: self,
            alloc,
            current: SmallVec::new(alloc),
            is_started: false,
            is_done: false,
        }
    }

    /// A walk at the first position of the box, if the box has positions.
    ///
    /// # Errors
    /// `AllocError`: out of memory.
    pub fn walk(&self, alloc: Global) -> Result<Option<PositionWalk<'_>>, AllocError>
        ensures none { IfOk result (λ o. MatchOption o (positions (box_of self.now) ≡ [])
            (λ walk. walk_box walk ≡ box_of self.now)) }
        ensures first { IfOk result (λ o. MatchOption o (positions (box_of self.now) ≡ [])
            (λ walk. walk_number walk ≡ 0)) }
    {
        if self.is_empty() {
            return Ok(None);
        }
        let current = SmallVec::from_slice(alloc, self.start())?;
        Ok(Some(PositionWalk {
            subset: self,
            current,
        }))
    }
}

impl<'a> Indices<'a> {
    ghost use Rattle.std.specs.Prelude.{◌∷◌, ◌<◌, OnErr, false};
    ghost use Rattle.zarrs_subset.specs.Walks.{positions_left};

    // Goes to the first position, or to the one after the last that came. Whether there was one.
    #[inline]
    fn step(&mut self) -> Result<bool, AllocError>
        requires { self.old.is_done ≡ false }
        ensures stays { self.new.is_done ≡ false }
        ensures some { IfOk result (λ found. OnTrue found
            (positions_left self.old ≡ self.new.current.items ∷ positions_left self.new)) }
        ensures none { IfOk result (λ found. OnFalse found (positions_left self.old ≡ [])) }
        ensures refused { OnErr result (0 < length (positions_left self.old)) }
    {
        if self.is_started {
            let (start, shape) = (self.subset.start(), self.subset.shape());
            return Ok(advance(self.current.as_mut_slice(), start, shape));
        }
        if self.subset.is_empty() {
            return Ok(false);
        }
        self.current = SmallVec::from_slice(self.alloc, self.subset.start())?;
        self.is_started = true;
        Ok(true)
    }
}

impl<'a> Iterator for Indices<'a> {
    type Item = Result<ArrayIndicesTinyVec, AllocError>;

    ghost use Rattle.zarrs_subset.specs.Walks.{positions_left, YieldsPosition};

    ghost next_gives = { YieldsPosition };

    ghost remaining = { item_count positions_left };

    #[inline]
    fn next(&mut self) -> Option<Result<ArrayIndicesTinyVec, AllocError>> {
        if self.is_done {
            return None;
        }
        let position = match self.step() {
            Ok(true) => copy_of(self.alloc, self.current.as_slice()),
            Ok(false) => {
                self.is_done = true;
                return None;
            }
            Err(error) => Err(error),
        };
        self.is_done = position.is_err();
        Some(position)
    }
}

// A copy of the position. A copy of an array of known length is several times as fast as one of a slice.
#[inline]
fn copy_of(alloc: Global, position: &[u64]) -> Result<ArrayIndicesTinyVec, AllocError>
    ensures { IfOk result (λ copy. copy.items ≡ position.now) }
{
    match *position {
        [i] => SmallVec::from_array(alloc, [i]),
        [i, j] => SmallVec::from_array(alloc, [i, j]),
        [i, j, k] => SmallVec::from_array(alloc, [i, j, k]),
        [i, j, k, l] => SmallVec::from_array(alloc, [i, j, k, l]),
        _ => SmallVec::from_slice(alloc, position),
    }
}

// Goes to the next position of the box of `start` and `shape`. From the last one it goes back to the first, and returns
// `false`.
#[inline]
fn advance(position: &mut [u64], start: &[u64], shape: &[u64]) -> bool
    requires long { IsLong (box_from start.now shape.now) }
    requires ends { EndsFit start.now shape.now }
    requires holds { Holds (box_from start.now shape.now) position.old }
    ensures holds { Holds (box_from start.now shape.now) position.new }
    ensures next { OnTrue result (place_in (box_from start.now shape.now) position.new
        ≡ place_in (box_from start.now shape.now) position.old + 1) }
    ensures last { OnFalse result (place_in (box_from start.now shape.now) position.old + 1
        ≡ position_count shape.now) }
    ensures first { OnFalse result (position.new ≡ start.now) }
{
    let mut axis = start.len();
    while axis > 0 {
        axis -= 1;
        if position[axis] + 1 < start[axis] + shape[axis] {
            position[axis] += 1;
            return true;
        }
        position[axis] = start[axis];
    }
    false
}
