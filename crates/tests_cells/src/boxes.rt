//! Boxes: how they are made and what they say, in tables; cells that are copied between them.
use crate::checks::{must, must_eq};
use crate::data::box_at;
use std::alloc::Global;
use std::ops::Range;
use std::process::Abort;
use zarrs_subset::{
    ArraySubset, ArraySubsetError, ArraySubsetTraits, Corner, IncompatibleDimensionalityError,
    SizeOverflow, copy_box, element_count, place_part, ravel_indices, unravel_index,
};

/// How a box is made: of lists, or of the box of a start and a shape.
enum Made {
    StartShape(&'static [u64], &'static [u64]),
    StartEnd(&'static [u64], &'static [u64]),
    Shape(&'static [u64]),
    Empty(usize),
    Of(&'static [u64], &'static [u64], Change),
}

/// What becomes of a box.
enum Change {
    /// What it has in common with the box of a start and a shape.
    Overlap(&'static [u64], &'static [u64]),
    Bound(&'static [u64]),
    RelativeTo(&'static [u64]),
    ShiftedBy(&'static [u64]),
}

fn numbers(rt: &impl Abort, alloc: Global, numbers: &[u64]) -> Vec<u64> {
    Vec::from_slice(alloc, numbers).expect(rt, "no refusal")
}

fn changed(
    rt: &impl Abort,
    alloc: Global,
    own: &ArraySubset,
    change: &Change,
) -> Result<ArraySubset, ArraySubsetError> {
    match change {
        Change::Overlap(start, shape) => own.overlap(alloc, &box_at(rt, alloc, start, shape)),
        Change::Bound(end) => own.bound(alloc, end),
        Change::RelativeTo(offset) => own.relative_to(alloc, offset),
        Change::ShiftedBy(offset) => own.shifted_by(alloc, offset),
    }
}

fn make(rt: &impl Abort, alloc: Global, made: &Made) -> Result<ArraySubset, ArraySubsetError> {
    match made {
        Made::StartShape(start, shape) => {
            let start = numbers(rt, alloc, start);
            ArraySubset::new_with_start_shape(start, numbers(rt, alloc, shape))
        }
        Made::StartEnd(start, end) => {
            let start = numbers(rt, alloc, start);
            ArraySubset::new_with_start_end_exc(start, numbers(rt, alloc, end))
        }
        Made::Shape(shape) => Ok(ArraySubset::new_with_shape(alloc, numbers(rt, alloc, shape))?),
        Made::Empty(dimensionality) => Ok(ArraySubset::new_empty(alloc, *dimensionality)?),
        Made::Of(start, shape, change) => {
            changed(rt, alloc, &box_at(rt, alloc, start, shape), change)
        }
    }
}

/// The box, or why there is none.
fn text_of(rt: &impl Abort, alloc: Global, made: &Made) -> String {
    match make(rt, alloc, made) {
        Ok(made) => format!(in alloc; "{made}").expect(rt, "no refusal"),
        Err(error) => format!(in alloc; "{error}").expect(rt, "no refusal"),
    }
}

#[test]
fn boxes_that_are_made(rt: HostRuntime) {
    const PAST: &str = "the end of the array subset exceeds the number types";
    const BELOW_START: &str = "the end of the array subset lies below its start";
    const BELOW_OFFSET: &str = "the start of the array subset lies below the offset";
    const LENGTHS: &str = "incompatible dimensionality 1, expected 2";
    const MADE: &[(Made, &str)] = &[
        (
            Made::StartShape(&[u64::MAX - 1], &[1]),
            "[18446744073709551614..18446744073709551615]",
        ),
        (Made::StartShape(&[u64::MAX], &[1]), PAST),
        (
            Made::StartShape(&[], &[1]),
            "incompatible dimensionality 0, expected 1",
        ),
        (Made::StartEnd(&[1, 2], &[4, 2]), "[1..4, 2..2]"),
        (Made::StartEnd(&[3], &[2]), BELOW_START),
        (Made::Shape(&[2, 3]), "[0..2, 0..3]"),
        (Made::Empty(2), "[0..0, 0..0]"),
        (Made::Of(&[0], &[4], Change::Overlap(&[4], &[4])), "[4..4]"),
        (
            Made::Of(&[1, 2], &[3, 4], Change::Overlap(&[0, 4], &[2, 9])),
            "[1..2, 4..6]",
        ),
        (
            Made::Of(&[0, 0], &[1, 1], Change::Overlap(&[0], &[1])),
            LENGTHS,
        ),
        (
            Made::Of(&[3, 5], &[4, 2], Change::Bound(&[5, 4])),
            "[3..5, 4..4]",
        ),
        (Made::Of(&[3, 5], &[4, 2], Change::Bound(&[5])), LENGTHS),
        (
            Made::Of(&[3, 5], &[2, 2], Change::RelativeTo(&[1, 5])),
            "[2..4, 0..2]",
        ),
        (
            Made::Of(&[3, 5], &[2, 2], Change::RelativeTo(&[4, 0])),
            BELOW_OFFSET,
        ),
        (
            Made::Of(&[3, 5], &[2, 2], Change::RelativeTo(&[5])),
            LENGTHS,
        ),
        (
            Made::Of(&[3, 5], &[2, 2], Change::ShiftedBy(&[1, 5])),
            "[4..6, 10..12]",
        ),
        (
            Made::Of(&[3, 5], &[2, 2], Change::ShiftedBy(&[u64::MAX - 5, 0])),
            "[18446744073709551613..18446744073709551615, 5..7]",
        ),
        (
            Made::Of(&[3, 5], &[2, 2], Change::ShiftedBy(&[u64::MAX - 4, 0])),
            PAST,
        ),
        (Made::Of(&[3, 5], &[2, 2], Change::ShiftedBy(&[1])), LENGTHS),
    ];
    for (made, text) in MADE {
        must_eq(&rt, text_of(&rt, rt.alloc(), made).as_str(), *text);
    }
}

/// The shape of an array, a position in it, and the position's row-major number.
type Numbered = (&'static [u64], &'static [u64], Option<u64>);

fn must_be_numbered(rt: &impl Abort, alloc: Global, row: &Numbered) {
    must_eq(rt, ravel_indices(row.1, row.0), row.2);
    if let Some(number) = row.2 {
        let found = unravel_index(alloc, number, row.0).expect(rt, "no refusal");
        must_eq(rt, found.expect(rt, "a position").as_slice(), row.1);
    }
}

fn must_have_no_position(rt: &impl Abort, alloc: Global, number: u64, shape: &[u64]) {
    let found = unravel_index(alloc, number, shape).expect(rt, "no refusal");
    must(rt, found.is_none());
}

#[test]
fn row_major_numbers_of_positions(rt: HostRuntime) {
    const HUGE: u64 = 4294967296;
    const ROWS: &[Numbered] = &[
        (&[2, 4], &[1, 3], Some(7)),
        (&[], &[], Some(0)),
        (&[2, 4], &[2, 0], None),
        (&[2, 4], &[1], None),
        (&[HUGE + 1, HUGE], &[HUGE, 0], None),
    ];
    for row in ROWS {
        must_be_numbered(&rt, rt.alloc(), row);
    }
    must_have_no_position(&rt, rt.alloc(), 8, &[2, 4]);
    must_have_no_position(&rt, rt.alloc(), 1, &[]);
    must_have_no_position(&rt, rt.alloc(), 0, &[0]);
    let mismatch = IncompatibleDimensionalityError::new(1, 2);
    must_eq(&rt, (mismatch.got(), mismatch.expected()), (1, 2));
    let refusal = ArraySubsetError::IncompatibleDimensionality(mismatch);
    must_eq(&rt, ArraySubsetError::from(mismatch), refusal);
    must_eq(&rt, element_count(&[3, 0, u64::MAX]), Some(0));
    must_eq(&rt, element_count(&[HUGE, HUGE]), None);
}

/// A box has these positions, in this order, and no other.
fn must_walk(rt: &impl Abort, alloc: Global, region: &ArraySubset, positions: &[&[u64]]) {
    let mut indices = region.indices(alloc);
    for (number, position) in positions.iter().enumerate() {
        let found = indices
            .next()
            .expect(rt, "a position")
            .expect(rt, "no refusal");
        must_eq(rt, found.as_slice(), *position);
        let found = region
            .position(alloc, number as u64)
            .expect(rt, "no refusal");
        must(rt, found.is_some_and(|found| found.as_slice() == *position));
    }
    must(rt, indices.next().is_none());
    must(rt, indices.next().is_none());
    must(
        rt,
        region
            .position(alloc, positions.len() as u64)
            .expect(rt, "no refusal")
            .is_none(),
    );
}

/// A walk lends the same positions. After the last one it stands at the first again.
fn must_lend(rt: &impl Abort, alloc: Global, region: &ArraySubset, positions: &[&[u64]]) {
    let Some(mut walk) = region.walk(alloc).expect(rt, "no refusal") else {
        return must(rt, positions.is_empty());
    };
    for (number, position) in positions.iter().enumerate() {
        must_eq(rt, walk.current(), *position);
        must_eq(rt, walk.advance(), number + 1 < positions.len());
    }
    must_eq(rt, Some(walk.current()), positions.first().copied());
}

#[test]
fn positions_come_in_row_major_order(rt: HostRuntime) {
    const ROWS: &[(&[u64], &[u64], &[&[u64]])] = &[
        (&[1, 5], &[2, 2], &[&[1, 5], &[1, 6], &[2, 5], &[2, 6]]),
        (&[1, 5], &[2, 0], &[]),
        (&[], &[], &[&[]]),
        (
            &[1, 2, 3, 4, 5],
            &[1, 1, 1, 2, 1],
            &[&[1, 2, 3, 4, 5], &[1, 2, 3, 5, 5]],
        ),
    ];
    for (start, shape, positions) in ROWS {
        let region = box_at(&rt, rt.alloc(), start, shape);
        must_walk(&rt, rt.alloc(), &region, positions);
        must_lend(&rt, rt.alloc(), &region, positions);
    }
    must_begin(
        &rt,
        rt.alloc(),
        &box_at(&rt, rt.alloc(), &[0, 7], &[4294967296, 4294967297]),
    );
}

/// The first positions of a box that has more of them than a number counts.
fn must_begin(rt: &impl Abort, alloc: Global, huge: &ArraySubset) {
    let mut indices = huge.indices(alloc);
    for position in [[0, 7], [0, 8]] {
        let found = indices
            .next()
            .expect(rt, "a position")
            .expect(rt, "no refusal");
        must_eq(rt, found.as_slice(), position.as_slice());
    }
    must_eq(rt, huge.num_elements(), Err(SizeOverflow));
}

/// The box from 1, 7 on of the shape 3, 0.
fn must_be_described<B: ArraySubsetTraits>(rt: &impl Abort, alloc: Global, region: &B) {
    must_eq(
        rt,
        region.start(alloc).expect(rt, "no refusal").as_slice(),
        [1, 7].as_slice(),
    );
    must_eq(
        rt,
        region.shape(alloc).expect(rt, "no refusal").as_slice(),
        [3, 0].as_slice(),
    );
    must_eq(
        rt,
        region.end_exc(alloc).expect(rt, "no refusal").as_slice(),
        [4, 7].as_slice(),
    );
    let own = region.to_array_subset(alloc).expect(rt, "no refusal");
    must_eq(
        rt,
        (own.start(), own.shape()),
        ([1, 7].as_slice(), [3, 0].as_slice()),
    );
    must_eq(
        rt,
        (region.num_elements(), region.is_empty()),
        (Ok(0), true),
    );
    must(
        rt,
        region.dimensionality() == 2 && region.range(1) == (7..7),
    );
}

#[test]
fn subsets_and_ranges_stand_for_boxes(rt: HostRuntime) {
    let alloc = rt.alloc();
    let region = box_at(&rt, alloc, &[1, 7], &[3, 0]);
    must_be_described(&rt, alloc, &region);
    let array: [Range<u64>; 2] = [1..4, 7..2];
    must_be_described(&rt, alloc, &array);
    let lent: &[Range<u64>] = &array;
    must_be_described(&rt, alloc, &lent);
    let ranges: Vec<Range<u64>> = vec![in alloc; 1..4, 7..2].expect(&rt, "no refusal");
    must_be_described(&rt, alloc, &ranges);
    must_meet_ranges(&rt, alloc, &region);
    must_come_apart(&rt, alloc, region);
}

fn must_meet_ranges(rt: &impl Abort, alloc: Global, region: &ArraySubset) {
    let met = region
        .overlap(alloc, &[0..2, 4..13])
        .expect(rt, "no refusal");
    must_eq(
        rt,
        (met.start(), met.shape()),
        ([1, 7].as_slice(), [1, 0].as_slice()),
    );
}

fn must_come_apart(rt: &impl Abort, alloc: Global, region: ArraySubset) {
    let other = box_at(rt, alloc, &[1, 7], &[3, 1]);
    must(
        rt,
        region != other && region.clone().expect(rt, "no refusal") == region,
    );
    let inside = (
        region.inbounds_shape(&[4, 7]),
        region.inbounds_shape(&[4, 6]),
    );
    let outside = (
        region.inbounds_shape(&[3, 9]),
        region.inbounds_shape(&[9, 9, 9]),
    );
    must_eq(rt, (inside, outside), ((true, false), (false, false)));
    must_eq(
        rt,
        region.end_exc(alloc).expect(rt, "no refusal").as_slice(),
        [4, 7].as_slice(),
    );
    must_eq(rt, region.into_shape().as_slice(), [3, 0].as_slice());
    must_eq(rt, other.into_start().as_slice(), [1, 7].as_slice());
}

#[test]
fn boxes_of_lists_that_are_known_to_fit(rt: HostRuntime) {
    let start = vec![in rt.alloc(); 0u64; 2].expect(&rt, "no refusal");
    let shape = vec![in rt.alloc(); 3u64; 2].expect(&rt, "no refusal");
    must_eq(&rt, ArraySubset::new(start, shape).num_elements(), Ok(9));
    let plane = box_at(&rt, rt.alloc(), &[3, 5], &[2, 2]);
    let second = plane.nth_position(rt.alloc(), 1).expect(&rt, "no refusal");
    must_eq(&rt, second.as_slice(), [3, 6].as_slice());
}

const TWELVE: [u8; 12] = [1, 2, 3, 4, 5, 6, 7, 8, 9, 10, 11, 12];

fn must_copy_a_row(rt: &impl Abort) {
    let row = Corner {
        shape: &[1, 2],
        start: &[0, 0],
    };
    let middle = Corner {
        shape: &[3, 3],
        start: &[1, 1],
    };
    let mut target = [9u8; 9];
    copy_box(&[5, 6], row, &mut target, middle, &[1, 2], 1);
    must_eq(rt, target, [9, 9, 9, 9, 5, 6, 9, 9, 9]);
}

/// The last two dimensions are whole in both arrays.
fn must_copy_planes(rt: &impl Abort) {
    let from = Corner {
        shape: &[3, 2, 2],
        start: &[1, 0, 0],
    };
    let to = Corner {
        shape: &[3, 2, 2],
        start: &[0, 0, 0],
    };
    let mut target = [0u8; 12];
    copy_box(&TWELVE, from, &mut target, to, &[2, 2, 2], 1);
    must_eq(rt, target, [5, 6, 7, 8, 9, 10, 11, 12, 0, 0, 0, 0]);
}

/// The last dimension alone is whole in both arrays.
fn must_copy_rows(rt: &impl Abort) {
    let from = Corner {
        shape: &[2, 3, 1],
        start: &[0, 1, 0],
    };
    let to = Corner {
        shape: &[3, 2, 1],
        start: &[1, 0, 0],
    };
    let mut target = [0u8; 12];
    copy_box(&TWELVE, from, &mut target, to, &[2, 2, 1], 2);
    must_eq(rt, target, [0, 0, 0, 0, 3, 4, 5, 6, 9, 10, 11, 12]);
}

#[test]
fn boxes_of_cells_are_copied(rt: HostRuntime) {
    must_copy_a_row(&rt);
    must_copy_planes(&rt);
    must_copy_rows(&rt);
}

#[test]
fn parts_go_to_their_places(rt: HostRuntime) {
    let whole = box_at(&rt, rt.alloc(), &[1, 1], &[3, 3]);
    let part = box_at(&rt, rt.alloc(), &[0, 2], &[3, 3]);
    let mut target = [9u8; 9];
    place_part(&whole, &mut target, &part, &[1, 2, 3, 4, 5, 6, 7, 8, 10], 1);
    must_eq(&rt, target, [9, 4, 5, 9, 7, 8, 9, 9, 9]);
    // A copy of nothing ends at once: the second dimension has no index, or a cell no bytes.
    let huge = 1u64 << 40;
    let mut none: [u8; 0] = [];
    let empty = [huge, 0];
    let corner = Corner {
        shape: &empty,
        start: &[0, 0],
    };
    copy_box(&[], corner, &mut none, corner, &empty, 1);
    let full = [huge, 4];
    let corner = Corner {
        shape: &full,
        start: &[0, 0],
    };
    copy_box(&[], corner, &mut none, corner, &full, 0);
    let empty_box = box_at(&rt, rt.alloc(), &[0, 0], &empty);
    place_part(&empty_box, &mut none, &empty_box, &[], 1);
    let full_box = box_at(&rt, rt.alloc(), &[0, 0], &full);
    place_part(&full_box, &mut none, &full_box, &[], 0);
}

/// A million ranges of one index.
fn million_ranges(rt: &impl Abort, alloc: Global) -> Vec<Range<u64>> {
    let mut ranges: Vec<Range<u64>> = Vec::new(alloc);
    for _ in 0..1_000_000 {
        ranges.push(3..4).expect(rt, "no refusal");
    }
    ranges
}

fn place_one_cell(rt: &impl Abort, alloc: Global, ranges: &[Range<u64>]) {
    let region = ArraySubset::new_with_ranges(alloc, ranges).expect(rt, "no refusal");
    let mut target = [0u8];
    if region.num_elements().expect(rt, "no refusal") == 1 {
        place_part(&region, &mut target, &region, &[7], 1);
    }
    must_eq(rt, target, [7]);
}

#[test]
fn a_million_dimensions(rt: HostRuntime) {
    let mut ranges = million_ranges(&rt, rt.alloc());
    must_eq(&rt, ranges.num_elements(), Ok(1));
    place_one_cell(&rt, rt.alloc(), &ranges);
    ranges.push(0..u64::MAX).expect(&rt, "no refusal");
    ranges.push(0..2).expect(&rt, "no refusal");
    must_eq(&rt, ranges.num_elements(), Err(SizeOverflow));
    ranges.push(1..0).expect(&rt, "no refusal");
    must_eq(&rt, ranges.num_elements(), Ok(0));
    let shape = vec![in rt.alloc(); 1u64; 1_000_000].expect(&rt, "no refusal");
    must_eq(&rt, element_count(&shape), Some(1));
}
