// All distances of a map, and the orders that they give, in lent memory.
ghost use Rattle.std.specs.Prelude.{◌≡◌, ◌*◌, ◌<◌, ◌≤◌, length};

/// How far all places are from each, in entries `d * n` to `d * n + n - 1` of `dist`; and in the same entries of `order` all places in the order
/// of their distances from `d`, if the map hangs together.
// Slices of plain numbers side by side, as rows are worked out: distances of 32 bits, places of 16.
#[derive(Clone, Copy)]
pub struct Rows<'a> {
    pub n: usize,
    pub dist: &'a [u32],
    pub order: &'a [u16],
    ghost some: { 0 < n },
    ghost few: { n ≤ 512 },
    ghost dists: { length dist.now ≡ n * n },
    ghost orders: { length order.now ≡ n * n },
}
