// The next places towards one place, from the distances to it.
ghost use Rattle.std.specs.Prelude.{◌≡◌, ℕ, ◌<◌, length, slice_index};
ghost use Rattle.maps.specs.Charts.{chart};
ghost use Rattle.distances.specs.Rows.{FarRow, HopRow};
ghost use Rattle.distances.specs.Steps.{FirstOn};

use crate::target::Target;
use maps::arcs::ArcsFrom;

/// Where the first of a place's arcs leads that begins a cheapest way, if the place is at the distance `away`.
/// Arcs rise by the place to which they lead, so that the first is the lowest.
fn first_on(arcs: &ArcsFrom<'_>, away: u32, dist: &[u32]) -> Option<u16>
    requires inside { (k : ℕ) → k < length arcs.now.places.now → slice_index arcs.now.places.now k < length dist.now }
    ensures { FirstOn arcs.now.places.now arcs.now.costs.now away dist.now result }
{
    // Costs are read by index, as in the search, so that arcs are gone through in one way.
    for (k, place) in arcs.places.iter().enumerate() {
        let x = dist[*place as usize];
        if x < away && away - x == arcs.costs[k] as u32 {
            return Some(*place);
        }
    }
    None
}

impl Target<'_> {
    /// Writes the next place from each place towards the target, the highest number where there is none. Looks at each arc once.
    pub(crate) fn nexts(&self, dist: &[u32], next: &mut [u16])
        requires dists { length dist.now ≡ self.now.map.n }
        requires nexts { length next.old ≡ self.now.map.n }
        requires far { FarRow (chart self.now.map) self.now.place dist.now }
        ensures { HopRow (chart self.now.map) self.now.place next.new }
    {
        for (a, slot) in next.iter_mut().enumerate() {
            *slot = first_on(&self.map.arcs(a), dist[a], dist).unwrap_or(u16::MAX);
        }
    }
}
