// What stands on a post: lines, in an array with a count.
ghost use Rattle.std.specs.Prelude.{◌≡◌, ℕ, ◌+◌, ◌<◌, ◌≤◌, false, length, slice_index_or};

/// A line of a post: a place, the next place on the way to it, and whether it stands there as near; else it is a landmark.
#[derive(Clone, Copy, PartialEq, Eq, Debug)]
pub struct Line {
    pub place: u16,
    pub next: u16,
    // A mark and no enum: the document of a plan is to have it in one bit.
    pub near: bool,
}

/// The lines at a place, at most 255, in rising order of the places that they name.
// An array with a count, since a post wants no memory beyond its own.
#[derive(Clone, Copy)]
pub struct Post {
    pub(crate) lines: [Line; 255],
    pub(crate) count: usize,
    ghost whole: { length lines ≡ 255 },
    ghost within: { count ≤ 255 },
    ghost rising: { (k : ℕ) → k + 1 < count → (slice_index_or lines k (record { place = 0; next = 0; near = false })).place < (slice_index_or lines (k + 1) (record { place = 0; next = 0; near = false })).place },
}

/// Why a post does not take a line.
#[derive(Clone, Copy, PartialEq, Eq, Debug)]
pub enum Refused {
    /// The post has 255 lines.
    Full,
    /// The line names a place that isn't above that of the last line.
    Order,
}
