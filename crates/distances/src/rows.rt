// One row of distances and next places, and all rows of a map.
ghost use Rattle.std.specs.Prelude.{◌≡◌, ℕ, ◌+◌, ◌*◌, ◌^◌, ◌<◌, ◌≤◌, length};
ghost use Rattle.maps.specs.Charts.{chart};
ghost use Rattle.distances.specs.Keys.{Idle};
ghost use Rattle.distances.specs.Orders.{Goes, OrderRow, OrderRows, Room};
ghost use Rattle.distances.specs.Rows.{FarRow, FarRows, HopRow, HopRows, Worked, WorkedAll, WorkedAllInOrder};

use crate::order::{Noted, Order, Unnoted};
use crate::queue::Queue;
use crate::target::Target;
use maps::kinds::Fault;
use maps::map::RoadMap;

impl Target<'_> {
    /// Works out one row in memory of the right size, and notes the order of the places in entries `from` to `from + n - 1`.
    fn work_out<O: Order>(
        &self,
        queue: &mut Queue,
        dist: &mut [u32],
        next: &mut [u16],
        from: usize,
        order: &mut [u16],
    )
        requires size { queue.old.n ≡ self.now.map.n }
        requires idle { Idle self.now.map.n queue.old.keys }
        requires dists { length dist.old ≡ self.now.map.n }
        requires nexts { length next.old ≡ self.now.map.n }
        requires room { Room O.holds order.old (from + self.now.map.n) }
        requires fits { from + self.now.map.n < 2 ^ 64 }
        ensures far { FarRow (chart self.now.map) self.now.place dist.new }
        ensures hop { HopRow (chart self.now.map) self.now.place next.new }
        ensures order { Goes O.holds order.old order.new (from + self.now.map.n) (OrderRow self.now.map.n from dist.new) }
        ensures size { queue.new.n ≡ self.now.map.n }
        ensures idle { Idle self.now.map.n queue.new.keys }
    {
        self.distances::<O>(queue, dist, from, order);
        self.nexts(dist, next);
    }
}

/// Works out all rows in memory of the right size, and notes the orders of the places in the same entries.
fn work_out_all<O: Order>(map: &RoadMap<'_>, dist: &mut [u32], next: &mut [u16], order: &mut [u16])
    requires dists { length dist.old ≡ map.now.n * map.now.n }
    requires nexts { length next.old ≡ map.now.n * map.now.n }
    requires room { Room O.holds order.old (map.now.n * map.now.n) }
    ensures fars { FarRows (chart map.now) dist.new }
    ensures hops { HopRows (chart map.now) next.new }
    ensures orders { Goes O.holds order.old order.new (map.now.n * map.now.n) (λ _ orders. OrderRows map.now.n dist.new orders) }
{
    let n = map.n;
    let mut queue = Queue::new(n);
    // By ranges: chunks of both lists, zipped and counted, are no plainer, and no lemma says what was written through them.
    for place in 0..n {
        let target = Target { map: *map, place };
        let from = place * n;
        let to = from + n;
        target.work_out::<O>(
            &mut queue,
            &mut dist[from..to],
            &mut next[from..to],
            from,
            order,
        );
    }
}

// The lists come one by one below, as slices of 32 and 16 bits, so that whoever calls may have them where he likes. They hold plain numbers, so the
// highest stands for none: with a case for none an entry would take more than its bits.
/// Works out one row: how far each place is from `d`, and the next place from it towards `d`; the highest number where there is no way, and no next place.
/// Takes at most (n + roads) times log n steps. Refuses, and leaves all as it was, a place that isn't there and memory of another size than n.
pub fn row(map: &RoadMap<'_>, d: usize, dist: &mut [u32], next: &mut [u16]) -> Result<(), Fault>
    ensures { Worked (chart map.now) d dist.old next.old dist.new next.new result }
{
    if d >= map.n || dist.len() != map.n || next.len() != map.n {
        return Err(Fault::Range);
    }
    let target = Target {
        map: *map,
        place: d,
    };
    target.work_out::<Unnoted>(&mut Queue::new(map.n), dist, next, 0, &mut []);
    Ok(())
}

// Both functions for all rows are calls of `work_out_all`; the first lends no memory for orders.
/// Works out all rows one after the other, that of place 0 first: entry `d * n + a` is that of the way from `a` to `d`.
/// Takes n times as long as one row. Refuses, and leaves all as it was, memory of another size than n times n.
pub fn all_rows(map: &RoadMap<'_>, dist: &mut [u32], next: &mut [u16]) -> Result<(), Fault>
    ensures { WorkedAll (chart map.now) dist.old next.old dist.new next.new result }
{
    let n = map.n;
    if dist.len() != n * n || next.len() != n * n {
        return Err(Fault::Range);
    }
    work_out_all::<Unnoted>(map, dist, next, &mut []);
    Ok(())
}

/// The same, and for each `d` all places in the order of their distances from it, in entries `d * n` to `d * n + n - 1` of `order`, if the map
/// hangs together. Takes n times as long as one row. Refuses, and leaves all as it was, memory of another size than n times n.
pub fn all_rows_in_order(
    map: &RoadMap<'_>,
    dist: &mut [u32],
    next: &mut [u16],
    order: &mut [u16],
) -> Result<(), Fault>
    ensures { WorkedAllInOrder (chart map.now) dist.old next.old order.old dist.new next.new order.new result }
{
    let n = map.n;
    if dist.len() != n * n || next.len() != n * n || order.len() != n * n {
        return Err(Fault::Range);
    }
    work_out_all::<Noted>(map, dist, next, order);
    Ok(())
}
