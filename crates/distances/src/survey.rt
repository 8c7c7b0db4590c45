// A map with all its distances and next places, in memory of its own.
ghost use Rattle.std.specs.Prelude.{◌≡◌, ℕ, ◌+◌, ◌*◌, ◌<◌, ◌≤◌, vec_len, slice_index};
ghost use Rattle.distances.specs.Orders.{Whole, in_order, rank_in};
ghost use Rattle.distances.specs.Rows.{far_number, hop_number};
ghost use Rattle.maps.specs.Charts.{ground_of};
ghost use Rattle.ways.specs.Map.{far, hop};

use maps::buf::RoadMapBuf;

/// A map and its rows: the distances from every place to every place, the next places, and all places in the order of their distances from
/// each, if the map hangs together; that of place 0 first.
// Lists of plain numbers side by side, as rows are worked out and lent: distances of 32 bits, places of 16.
#[derive(Drop)]
pub struct Survey {
    pub(crate) map: RoadMapBuf,
    pub(crate) dist: Vec<u32>,
    pub(crate) next: Vec<u16>,
    pub(crate) order: Vec<u16>,
    ghost dists: { vec_len dist ≡ map.n * map.n },
    ghost nexts: { vec_len next ≡ map.n * map.n },
    ghost orders: { vec_len order ≡ map.n * map.n },
    ghost fars: { (d a : ℕ) → (d < map.n) × (a < map.n) → slice_index dist.items (d * map.n + a) ≡ far_number (far (ground_of map) d a) },
    ghost hops: { (d a : ℕ) → (d < map.n) × (a < map.n) → slice_index next.items (d * map.n + a) ≡ hop_number (hop (ground_of map) d a) },
    // the order of each row, if it is whole: each place stands in it once, and distances rise
    ghost inside: { (d j : ℕ) → Whole map.n dist.items d × (j < map.n) → in_order map.n order.items d j < map.n },
    ghost there: { (d u : ℕ) → Whole map.n dist.items d × (u < map.n) → rank_in map.n order.items d u < map.n },
    ghost back: { (d u : ℕ) → Whole map.n dist.items d × (u < map.n) → in_order map.n order.items d (rank_in map.n order.items d u) ≡ u },
    ghost forth: { (d j : ℕ) → Whole map.n dist.items d × (j < map.n) → rank_in map.n order.items d (in_order map.n order.items d j) ≡ j },
    ghost rises: { (d i j : ℕ) → Whole map.n dist.items d × (i ≤ j) × (j < map.n) → slice_index dist.items (d * map.n + in_order map.n order.items d i) ≤ slice_index dist.items (d * map.n + in_order map.n order.items d j) },
}
