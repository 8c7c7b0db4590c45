// Making a map of roads, and the map that it lends.
ghost use Rattle.std.specs.Prelude.{◌≡◌, ℕ};
ghost use Rattle.maps.specs.Arcs.{Meaning};
ghost use Rattle.maps.specs.Charts.{chart};
ghost use Rattle.maps.specs.Laid.{Laid};
ghost use Rattle.maps.specs.Roads.{cost_in};

use super::buf::RoadMapBuf;
use super::kinds::{Fault, Road};
use super::laying::{begin_arcs, place_arcs};
use super::map::RoadMap;
use super::roads::check_roads;
use std::alloc::Global;

impl RoadMapBuf {
    /// The map of `n` places with these roads, or the first fault that they have. It takes time for the places and the roads.
    pub fn new(heap: Global, n: u16, roads: Vec<Road>) -> Result<RoadMapBuf, Fault>
        ensures { Laid n roads.items result }
    {
        check_roads(n, &roads)?;
        let mut starts = vec![in heap; 0u32; n as usize + 1]?;
        let arcs = begin_arcs(&roads, &mut starts) as usize;
        let mut places = vec![in heap; 0u16; arcs]?;
        let mut costs = vec![in heap; 0u16; arcs]?;
        place_arcs(&roads, &mut starts, &mut places, &mut costs);
        Ok(RoadMapBuf {
            n,
            roads,
            starts,
            places,
            costs,
        })
    }

    /// How many places there are.
    pub fn len(&self) -> u16
        ensures { result ≡ self.now.n }
    {
        self.n
    }

    /// The roads, in their order.
    pub fn roads(&self) -> &[Road]
        ensures { result.now ≡ self.now.roads.items }
    {
        &self.roads
    }

    /// The arcs in their arrays.
    pub fn map(&self) -> RoadMap<'_>
        ensures n { result.n ≡ self.now.n }
        ensures starts { result.starts.now ≡ self.now.starts.items }
        ensures places { result.places.now ≡ self.now.places.items }
        ensures costs { result.costs.now ≡ self.now.costs.items }
        ensures same { (a e : ℕ) → (chart result).cost a e ≡ cost_in self.now.roads.items a e }
        ensures means { Meaning (chart result) }
    {
        RoadMap {
            n: self.n as usize,
            starts: &self.starts,
            places: &self.places,
            costs: &self.costs,
        }
    }
}
