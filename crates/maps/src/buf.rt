// A map that owns its memory.
ghost use Rattle.std.specs.Prelude.{◌≡◌, ℕ, true};
ghost use Rattle.maps.specs.Arcs.{sound_arcs, map_in};
ghost use Rattle.maps.specs.Roads.{faultless, cost_in};

use super::kinds::Road;

/// A map that owns its memory: its roads, and their arcs in arrays, as `RoadMap` has them.
// The lists are side by side, since they are lent so.
#[derive(Drop)]
pub struct RoadMapBuf {
    pub(crate) n: u16,
    pub(crate) roads: Vec<Road>,
    pub(crate) starts: Vec<u32>,
    pub(crate) places: Vec<u16>,
    pub(crate) costs: Vec<u16>,
    ghost sound: { sound_arcs n starts.items places.items costs.items ≡ true },
    ghost good: { faultless n roads.items ≡ true },
    ghost same: { (a e : ℕ) → (map_in n starts.items places.items (costs.items)).cost a e ≡ cost_in roads.items a e },
}
