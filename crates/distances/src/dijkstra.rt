// Dijkstra's algorithm: places are settled one after the other, the closest first, and their arcs followed.
ghost use Rattle.std.specs.Prelude.{◌≡◌, ℕ, ◌+◌, ◌^◌, ◌<◌, ◌≤◌, length, slice_index};
ghost use Rattle.maps.specs.Charts.{chart};
ghost use Rattle.distances.specs.Keys.{Idle};
ghost use Rattle.distances.specs.Orders.{Goes, OrderRow, Room};
ghost use Rattle.distances.specs.Rows.{FarRow};
ghost use Rattle.distances.specs.Steps.{Followed};

use crate::order::Order;
use crate::queue::Queue;
use crate::target::Target;
use maps::arcs::ArcsFrom;

/// Follows the arcs of a place at the distance `away`: each place to which one leads and that gets closer by it waits at its new distance.
fn follow(arcs: &ArcsFrom<'_>, away: u32, dist: &mut [u32], queue: &mut Queue)
    requires dists { length dist.old ≡ queue.old.n }
    requires inside { (k : ℕ) → k < length arcs.now.places.now → slice_index arcs.now.places.now k < queue.old.n }
    requires fits { away + 65535 < 2 ^ 32 }
    ensures size { queue.new.n ≡ queue.old.n }
    ensures followed { Followed queue.old.n arcs.now.places.now arcs.now.costs.now away (length arcs.now.places.now) dist.old dist.new queue.old.keys queue.new.keys }
{
    // Costs are read by index: by a zip of both lists all rows of 512 places and 4,096 roads take 1.07 times as many instructions.
    for (k, place) in arcs.places.iter().enumerate() {
        let e = *place as usize;
        let w = away + arcs.costs[k] as u32;
        if w < dist[e] {
            dist[e] = w;
            queue.put(e, w);
        }
    }
}

impl Target<'_> {
    /// Writes how far each place is from the target, the highest number where there is no way; and notes, in entries `from` to `from + n - 1`, the places in the
    /// order in which they are settled, which is that of their distances, if every place has a way. Each place is settled once and each arc followed once:
    /// (n + roads) times as often as n can be halved, at most.
    /// The queue is lent, with no place that waits, and is left so: it is made once for all rows, since on a small map that takes as long as a search.
    pub(crate) fn distances<O: Order>(
        &self,
        queue: &mut Queue,
        dist: &mut [u32],
        from: usize,
        order: &mut [u16],
    )
        requires size { queue.old.n ≡ self.now.map.n }
        requires idle { Idle self.now.map.n queue.old.keys }
        requires dists { length dist.old ≡ self.now.map.n }
        requires room { Room O.holds order.old (from + self.now.map.n) }
        requires fits { from + self.now.map.n < 2 ^ 64 }
        ensures far { FarRow (chart self.now.map) self.now.place dist.new }
        ensures order { Goes O.holds order.old order.new (from + self.now.map.n) (OrderRow self.now.map.n from dist.new) }
        ensures size { queue.new.n ≡ self.now.map.n }
        ensures idle { Idle self.now.map.n queue.new.keys }
    {
        dist.fill(u32::MAX);
        dist[self.place] = 0;
        queue.put(self.place, 0);
        let mut count = 0;
        while let Some(u) = queue.pop() {
            O::note(order, from + count, u as u16);
            count += 1;
            follow(&self.map.arcs(u), dist[u], dist, queue);
        }
    }
}
