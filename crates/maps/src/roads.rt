// What is wrong with a road, and with a list of roads.
ghost use Rattle.std.specs.Prelude.{◌≡◌, length};
ghost use Rattle.std.specs.Result.{result_err};
ghost use Rattle.maps.specs.Roads.{rises, road_fault, size_fault, map_fault};

use super::kinds::{Fault, Road};

impl Road {
    /// Whether the road may stand after `last`: roads rise by their first place, then by their second.
    pub fn rises(self, last: Option<Road>) -> bool
        ensures { result ≡ rises last self }
    {
        last.is_none_or(|before| (before.from, before.to) < (self.from, self.to))
    }

    /// Checks the road in a map of `n` places after the road `last`; of several faults it is refused for the lowest.
    pub fn check(self, n: u16, last: Option<Road>) -> Result<(), Fault>
        ensures { result_err result ≡ road_fault n last self }
    {
        if n <= self.from || n <= self.to || self.to <= self.from {
            return Err(Fault::Range);
        }
        if !self.rises(last) {
            return Err(Fault::Order);
        }
        if self.cost == 0 {
            return Err(Fault::Cost);
        }
        Ok(())
    }
}

/// Checks the size of a map: `n` places and so many roads.
pub fn check_size(n: u16, roads: usize) -> Result<(), Fault>
    ensures { result_err result ≡ size_fault n roads }
{
    if n == 0 || n > 512 || roads > 4096 {
        return Err(Fault::Range);
    }
    Ok(())
}

/// Checks a map of `n` places and these roads; it is refused for its first fault.
#[tactic(auto, using(crate::proofs::RoadLists::step_good, crate::proofs::RoadLists::step_end, crate::proofs::RoadLists::size_passes))]
pub fn check_roads(n: u16, roads: &[Road]) -> Result<(), Fault>
    ensures { result_err result ≡ map_fault n roads.now }
{
    check_size(n, roads.len())?;
    let mut last = None;
    for road in roads {
        road.check(n, last)?;
        last = Some(*road);
    }
    Ok(())
}
