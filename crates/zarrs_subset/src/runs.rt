//! Copies of runs of bytes that lie at equal distances, one row after another.

ghost use Rattle.std.specs.Prelude.{◌≡◌, ℕ, ◌+◌, ◌-◌, ◌*◌, ◌<◌, ◌≤◌, ◌^◌, List, [], ◌∷◌, drop};
ghost use Rattle.std.specs.Prelude.{length};
ghost use Rattle.zarrs_subset.specs.Strides.{AreApart, AreApart-prop, RunsCopied, source_span, target_span};

/// A repetition of a copy: `count` times, each time one step further in the source and in the target, in bytes.
#[derive(Clone, Copy)]
pub(crate) struct Stride {
    pub count: usize,
    pub source_step: usize,
    pub target_step: usize,
}

/// One dimension of a box that is copied: the extents of both arrays, where the box begins in each, and its extent.
#[derive(Clone, Copy)]
pub(crate) struct Dimension {
    pub source_extent: u64,
    pub source_start: u64,
    pub target_extent: u64,
    pub target_start: u64,
    pub extent: u64,
}

// No copy has more strides of a count above 1: the bytes that it copies have an address each.
const MOST_STRIDES: usize = 64;

/// The copy of a box as runs of `len` bytes: each stride repeats what those after it copy.
///
/// The dimensions come one after another, the last one first. Dimensions that are whole in both arrays make the runs
/// longer, and one of extent 1 takes no stride.
#[derive(Drop)]
pub(crate) struct Runs {
    strides: [Stride; 64],
    // Where the strides begin in their list.
    first: usize,
    len: usize,
    // Where the first run begins.
    source_offset: usize,
    target_offset: usize,
    // The number of bytes of one index of the next dimension.
    source_block: usize,
    target_block: usize,
    ghost within: { first ≤ 64 },
    ghost some: { 0 < len },
    ghost apart: { AreApart (drop first strides) len } by { AreApart-prop (drop first strides) len },
    ghost source_room: { source_offset + source_span (drop first strides) len ≤ source_block },
    ghost target_room: { target_offset + target_span (drop first strides) len ≤ target_block },
    ghost few: { 2 ^ (64 - first) * len ≤ target_block },
}

impl Runs {
    ghost use Rattle.zarrs_subset.specs.Plans.{IsPlan, strides_of};

    /// The copy of one cell of that size.
    pub(crate) fn new(cell_size: usize) -> Self
        requires { 0 < cell_size }
        ensures { IsPlan cell_size [] [] [] [] [] result }
    {
        let none = Stride {
            count: 0,
            source_step: 0,
            target_step: 0,
        };
        Runs {
            strides: [none; 64],
            first: MOST_STRIDES,
            len: cell_size,
            source_offset: 0,
            target_offset: 0,
            source_block: cell_size,
            target_block: cell_size,
        }
    }

    /// The copy with one more dimension, before those so far.
    pub(crate) fn add(&mut self, dimension: Dimension)
        requires some { 0 < dimension.extent }
        requires source_fits { dimension.source_start + dimension.extent ≤ dimension.source_extent }
        requires target_fits { dimension.target_start + dimension.extent ≤ dimension.target_extent }
        requires source_room { dimension.source_extent * self.old.source_block < 2 ^ 64 }
        requires target_room { dimension.target_extent * self.old.target_block < 2 ^ 64 }
        ensures { (size : ℕ) (S F T U es : List ℕ) → IsPlan size S F T U es self.old
            → IsPlan size (dimension.source_extent ∷ S) (dimension.source_start ∷ F)
            (dimension.target_extent ∷ T) (dimension.target_start ∷ U) (dimension.extent ∷ es)
            self.new }
    {
        let extent = dimension.extent as usize;
        self.source_offset += dimension.source_start as usize * self.source_block;
        self.target_offset += dimension.target_start as usize * self.target_block;
        if self.first == MOST_STRIDES
            && self.source_block == self.len
            && self.target_block == self.len
        {
            self.len *= extent;
        } else if extent > 1 {
            self.first -= 1;
            self.strides[self.first] = Stride {
                count: extent,
                source_step: self.source_block,
                target_step: self.target_block,
            };
        }
        self.source_block *= dimension.source_extent as usize;
        self.target_block *= dimension.target_extent as usize;
    }

    /// Copies the runs. Every other byte of `target` stays.
    pub(crate) fn copy(&self, source: &[u8], target: &mut [u8])
        requires source_len { self.now.source_block ≤ length source.now }
        requires target_len { self.now.target_block ≤ length target.old }
        ensures { RunsCopied (strides_of self.now) self.now.len self.now.source_offset
            self.now.target_offset source.now target.old target.new }
    {
        let strides = &self.strides[self.first..];
        let (from, to) = (self.source_offset, self.target_offset);
        match self.len {
            1 => copy_runs::<1>(strides, 1, source, from, target, to),
            2 => copy_runs::<2>(strides, 2, source, from, target, to),
            4 => copy_runs::<4>(strides, 4, source, from, target, to),
            8 => copy_runs::<8>(strides, 8, source, from, target, to),
            16 => copy_runs::<16>(strides, 16, source, from, target, to),
            32 => copy_runs::<32>(strides, 32, source, from, target, to),
            64 => copy_runs::<64>(strides, 64, source, from, target, to),
            len => copy_runs::<0>(strides, len, source, from, target, to),
        }
    }
}

// Copies one run of `len` bytes. `N` is the length if it is known before the program runs, else 0.
#[inline(always)]
fn copy_run<const N: usize>(len: usize, source: &[u8], from: usize, target: &mut [u8], to: usize)
    requires known { 0 < N → len ≡ N }
    requires source_room { from + len ≤ length source.now }
    requires target_room { to + len ≤ length target.old }
    ensures { RunsCopied [] len from to source.now target.old target.new }
{
    if N > 0 {
        target[to..to + N].copy_from_slice(&source[from..from + N]);
    } else {
        target[to..to + len].copy_from_slice(&source[from..from + len]);
    }
}

// Copies the runs of one stride.
#[inline(always)]
fn copy_rows<const N: usize>(
    rows: Stride,
    len: usize,
    source: &[u8],
    from: usize,
    target: &mut [u8],
    to: usize,
)
    requires known { 0 < N → len ≡ N }
    requires apart { AreApart (rows ∷ []) len }
    requires source_room { from + source_span (rows ∷ []) len ≤ length source.now }
    requires target_room { to + target_span (rows ∷ []) len ≤ length target.old }
    ensures { RunsCopied (rows ∷ []) len from to source.now target.old target.new }
{
    for row in 0..rows.count {
        let read = from + row * rows.source_step;
        let write = to + row * rows.target_step;
        copy_run::<N>(len, source, read, target, write);
    }
}

// Copies the runs of all strides. There are at most 64, so that it calls itself no deeper.
fn copy_runs<const N: usize>(
    strides: &[Stride],
    len: usize,
    source: &[u8],
    from: usize,
    target: &mut [u8],
    to: usize,
)
    requires known { 0 < N → len ≡ N }
    requires apart { AreApart strides.now len }
    requires source_room { from + source_span strides.now len ≤ length source.now }
    requires target_room { to + target_span strides.now len ≤ length target.old }
    ensures { RunsCopied strides.now len from to source.now target.old target.new }
{
    let Some((outer, inner)) = strides.split_first() else {
        copy_run::<N>(len, source, from, target, to);
        return;
    };
    if inner.is_empty() {
        copy_rows::<N>(*outer, len, source, from, target, to);
        return;
    }
    for index in 0..outer.count {
        let read = from + index * outer.source_step;
        let write = to + index * outer.target_step;
        copy_runs::<N>(inner, len, source, read, target, write);
    }
}
