// What one turn of choosing goes by.
ghost use Rattle.std.specs.Prelude.{◌≡◌, ℕ, ◌<◌, ◌≤◌, All, length};
ghost use Rattle.choosing.specs.Tables.{Nears};
ghost use Rattle.choosing.specs.Turns.{Balls, Ranked};

use distances::lent::Rows;

/// The rows of a map that hangs together: how far all places are from each, and all places in the order of their distances from it.
#[derive(Clone, Copy)]
pub(crate) struct Ordered<'a> {
    pub(crate) rows: Rows<'a>,
    ghost sorted: { Ranked rows.n rows.dist.now rows.order.now },
}

/// What the lines of all posts are counted from.
#[derive(Clone, Copy)]
pub(crate) struct Lines<'a> {
    /// How many places are near each place, itself among them unless it is a landmark.
    pub(crate) near: &'a [u32],
    /// How many landmarks there are.
    pub(crate) count: u32,
    ghost few: { length near.now ≤ 512 },
    ghost small: { All (λ x. x ≤ 512) near.now },
    ghost counts: { count ≤ 512 },
}

/// The rows of a map, and what the landmarks chosen so far make of them, place by place.
// A number for each place in lists side by side, since of these a turn writes one anew while it goes by the others.
#[derive(Clone, Copy)]
pub(crate) struct Turn<'a> {
    pub(crate) map: Ordered<'a>,
    /// Which places are landmarks.
    pub(crate) marks: &'a [bool],
    /// How far each place is from its landmark.
    pub(crate) away: &'a [u32],
    /// How many places are closer to each place than its landmark is: the first so many of its order.
    pub(crate) ball: &'a [u32],
    /// What is near each place, and how many landmarks there are.
    pub(crate) lines: Lines<'a>,
    /// For how many lines a post has room.
    pub(crate) room: u8,
    ghost marked: { length marks.now ≡ map.rows.n },
    ghost aways: { length away.now ≡ map.rows.n },
    ghost balls: { length ball.now ≡ map.rows.n },
    ghost nears: { length lines.near.now ≡ map.rows.n },
    ghost counts: { lines.count < 512 },
    ghost ball_is: { Balls map.rows.n map.rows.dist.now map.rows.order.now away.now ball.now },
    ghost near_is: { Nears map.rows.n map.rows.dist.now away.now lines.near.now },
}

/// A place, and how many lines would be above room in all if it were a landmark.
#[derive(Clone, Copy)]
pub(crate) struct Best {
    pub(crate) place: usize,
    pub(crate) lines: u32,
}
