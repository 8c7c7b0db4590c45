// The arcs that leave a place of a map.
ghost use Rattle.std.specs.Prelude.{◌≡◌, length};
ghost use Rattle.maps.specs.Arcs.{arc_part};

use super::map::RoadMap;

/// The arcs that leave a place, rising by the place to which they lead: `places[k]` at the cost `costs[k]`.
// Two slices, as the map lends them: parts of its lists of plain numbers.
#[derive(Clone, Copy)]
pub struct ArcsFrom<'a> {
    pub places: &'a [u16],
    pub costs: &'a [u16],
    ghost level: { length costs.now ≡ length places.now },
}

impl<'a> RoadMap<'a> {
    /// The arcs that leave place `a`; none if there is no such place. Takes no time that depends on the map.
    pub fn arcs(&self, a: usize) -> ArcsFrom<'a>
        ensures places { result.places.now ≡ arc_part self.now.n self.now.starts.now self.now.places.now a }
        ensures costs { result.costs.now ≡ arc_part self.now.n self.now.starts.now self.now.costs.now a }
    {
        if a >= self.n {
            return ArcsFrom {
                places: &[],
                costs: &[],
            };
        }
        let from = self.starts[a] as usize;
        let to = self.starts[a + 1] as usize;
        ArcsFrom {
            places: &self.places[from..to],
            costs: &self.costs[from..to],
        }
    }
}
