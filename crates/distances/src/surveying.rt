// Surveying a map, and looking into what was surveyed.
ghost use Rattle.std.specs.Prelude.{◌≡◌, ◌+◌, ◌*◌, ◌<◌, cond, false, nat_lt, ◌&&◌, MatchOption};
ghost use Rattle.distances.specs.Rows.{far_number, hop_number};
ghost use Rattle.distances.specs.Surveys.{Surveyed, far_in, hop_in};
ghost use Rattle.maps.specs.Charts.{ground_of};
ghost use Rattle.ways.specs.Map.{far, hop};

use super::lent::Rows;
use super::rows::all_rows_in_order;
use super::survey::Survey;
use maps::buf::RoadMapBuf;
use maps::kinds::Fault;
use std::alloc::Global;

impl Survey {
    /// Works out all distances and next places of a map. Takes n times as long as one row; fails only for want of memory.
    pub fn new(heap: Global, map: RoadMapBuf) -> Result<Survey, Fault>
        ensures { Surveyed map result }
    {
        let n = map.len() as usize;
        let mut dist = vec![in heap; 0u32; n * n]?;
        let mut next = vec![in heap; 0u16; n * n]?;
        let mut order = vec![in heap; 0u16; next.len()]?;
        all_rows_in_order(&map.map(), &mut dist, &mut next, &mut order)?;
        Ok(Survey {
            map,
            dist,
            next,
            order,
        })
    }

    /// The map.
    pub fn map(&self) -> &RoadMapBuf
        ensures { result.now ≡ self.now.map }
    {
        &self.map
    }

    /// Where the numbers of the way from place `a` to place `d` stand in the rows, if there are such places.
    fn entry(&self, d: usize, a: usize) -> Option<usize>
        ensures { MatchOption result ((nat_lt d self.now.map.n && nat_lt a self.now.map.n) ≡ false) (λ at. (d < self.now.map.n) × (a < self.now.map.n) × (at ≡ d * self.now.map.n + a)) }
    {
        let n = self.map.len() as usize;
        if d < n && a < n {
            Some(d * n + a)
        } else {
            None
        }
    }

    // The highest number stands for none in both answers, as it does in the rows that are lent. One function for both would take the rows and that number.
    /// How far place `a` is from place `d`; the highest number if there is no way, or no such place.
    pub fn far(&self, d: usize, a: usize) -> u32
        ensures { result ≡ far_in (ground_of self.now.map) d a }
    {
        match self.entry(d, a) {
            Some(at) => self.dist[at],
            None => u32::MAX,
        }
    }

    /// The next place from place `a` towards place `d`; the highest number if there is none, or no such place.
    pub fn hop(&self, d: usize, a: usize) -> u16
        ensures { result ≡ hop_in (ground_of self.now.map) d a }
    {
        match self.entry(d, a) {
            Some(at) => self.next[at],
            None => u16::MAX,
        }
    }

    /// All distances and orders, lent to be gone through.
    pub fn rows(&self) -> Rows<'_>
        ensures n { result.n ≡ self.now.map.n }
        ensures dist { result.dist.now ≡ self.now.dist.items }
        ensures order { result.order.now ≡ self.now.order.items }
    {
        Rows {
            n: self.map.len() as usize,
            dist: &self.dist,
            order: &self.order,
        }
    }
}
