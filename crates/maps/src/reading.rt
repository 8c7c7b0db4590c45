// The cost of a road, read in the arrays of a map.
ghost use Rattle.std.specs.Prelude.{◌≡◌};
ghost use Rattle.maps.specs.Charts.{chart};

use super::arcs::ArcsFrom;
use super::map::RoadMap;
use super::placed::search;

impl RoadMap<'_> {
    // 0 and no Option where there is no road, as the map of the definitions has it.
    /// The cost of the road between places `a` and `e`, 0 where there is none. It halves the arcs of `a` until it meets the one to `e`.
    pub fn cost(&self, a: usize, e: usize) -> u16
        ensures { result ≡ (chart self.now).cost a e }
    {
        let ArcsFrom { places, costs } = self.arcs(a);
        match search(places, e) {
            Some(k) => costs[k],
            None => 0,
        }
    }
}
