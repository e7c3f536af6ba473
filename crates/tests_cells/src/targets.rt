//! Targets that are made of places and written by parts.

ghost use Rattle.zarrs_data_type.specs.States.{IsSameTarget};

use crate::checks::{must, must_eq};
use crate::data::{Cells, box_at, data_of};
use std::alloc::Global;
use std::process::Abort;
use zarrs_data_type::{ArrayBytes, ArrayBytesDecodeIntoTarget};
use zarrs_subset::{ArraySubset, lies_in_box};

/// Writes the cells of the target's box.
fn write(
    rt: &impl Abort,
    alloc: Global,
    target: &mut ArrayBytesDecodeIntoTarget<'_, '_, '_>,
    data: &ArrayBytes<'_>,
)
    ensures { IsSameTarget target.old target.new }
{
    if !target.takes_data(data) {
        return rt.panic("cells of another number");
    }
    target.write_cells(alloc, data).expect(rt, "no refusal");
}

/// Writes the cells of a smaller box.
fn write_part(
    rt: &impl Abort,
    alloc: Global,
    target: &mut ArrayBytesDecodeIntoTarget<'_, '_, '_>,
    region: &ArraySubset,
    cells: &Cells,
)
    ensures { IsSameTarget target.old target.new }
{
    if !lies_in_box(region, target.region) {
        return rt.panic("a box outside the target's");
    }
    let data = data_of(rt, alloc, cells);
    let mut part = target.subdivide(region);
    write(rt, alloc, &mut part.target, &data);
    target.rejoin(part);
}

#[test]
fn a_box_is_written_by_two_halves(rt: HostRuntime) {
    let alloc = rt.alloc();
    let region = box_at(&rt, alloc, &[0, 1], &[2, 2]);
    let left = box_at(&rt, alloc, &[0, 1], &[2, 1]);
    let right = box_at(&rt, alloc, &[0, 2], &[2, 1]);
    let (mut bytes, mut masks) = ([9u8; 6], [7u8; 6]);
    let Ok(mut target) = ArrayBytesDecodeIntoTarget::new_optional(
        &mut bytes,
        1,
        &mut masks,
        1,
        &[2, 3],
        &region,
    ) else {
        rt.panic("no place")
    };
    write_part(
        &rt,
        alloc,
        &mut target,
        &left,
        &Cells::Masked(&[1, 0], &[1, 2]),
    );
    write_part(
        &rt,
        alloc,
        &mut target,
        &right,
        &Cells::Masked(&[0, 1], &[3, 4]),
    );
    drop(target);
    must_eq(&rt, masks.as_slice(), [7, 1, 0, 7, 0, 1].as_slice());
    must_eq(&rt, bytes.as_slice(), [9, 1, 3, 9, 2, 4].as_slice());
}

/// So many bytes are no place of cells of this size.
fn must_be_no_place(
    rt: &impl Abort,
    alloc: Global,
    (len, cell_size): (usize, usize),
    parent_shape: &[u64],
    (start, shape): (&[u64], &[u64]),
) {
    let region = box_at(rt, alloc, start, shape);
    let mut bytes = vec![in alloc; 9u8; len].expect(rt, "no refusal");
    let made = ArrayBytesDecodeIntoTarget::new_fixed(&mut bytes, cell_size, parent_shape, &region);
    must(rt, made.is_err());
}

/// Six bytes are not so many masks of three cells.
fn must_be_no_masks(rt: &impl Abort, alloc: Global, depth: usize) {
    let region = box_at(rt, alloc, &[1], &[2]);
    let (mut bytes, mut masks) = ([9u8; 3], [7u8; 6]);
    let made = ArrayBytesDecodeIntoTarget::new_optional(
        &mut bytes,
        1,
        &mut masks,
        depth,
        &[3],
        &region,
    );
    must(rt, made.is_err());
}

#[test]
fn other_lengths_and_boxes_are_refused(rt: HostRuntime) {
    const ROW: (&[u64], &[u64]) = (&[1, 1], &[1, 2]);
    const ROWS: &[((usize, usize), &[u64], (&[u64], &[u64]))] = &[
        ((9, 2), &[3, 3], ROW),
        ((9, 1), &[3, 4], ROW),
        ((9, 1), &[9], ROW),
        ((9, 1), &[3, 3], (&[1, 2], &[1, 2])),
        ((9, 1), &[3, 3], (&[4, 0], &[0, 0])),
        ((0, 0), &[1 << 32, 1 << 32], ROW),
    ];
    for (bytes, parent_shape, place) in ROWS {
        must_be_no_place(&rt, rt.alloc(), *bytes, parent_shape, *place);
    }
    must_be_no_masks(&rt, rt.alloc(), 1);
    must_be_no_masks(&rt, rt.alloc(), 3);
}
