// The lowest place that can't be reached from place 0.
ghost use Rattle.std.specs.Prelude.{◌≡◌, ◌==◌, position};
ghost use Rattle.maps.specs.Charts.{chart};
ghost use Rattle.distances.specs.Unreached.{lowest_apart, Lowest};

use crate::order::Unnoted;
use crate::queue::Queue;
use crate::target::Target;
use maps::map::RoadMap;

// The highest number is that of no way, as in every row.
/// Where the first distance stands that is that of no way.
fn first_apart(dist: &[u32]) -> Option<usize>
    ensures { result ≡ position (λ away. away == 4294967295) dist.now }
{
    dist.iter().position(|away| *away == u32::MAX)
}

/// The lowest place from which there is no way to place 0; `None` just where the map hangs together. Takes as long as one row.
pub fn unreached(map: &RoadMap<'_>) -> Option<u16>
    ensures value { result ≡ lowest_apart (chart map.now) }
    ensures lowest { Lowest (chart map.now) result }
{
    // Memory of a fixed size, since this can't fail.
    let mut memory = [u32::MAX; 512];
    let dist = &mut memory[0..map.n];
    let target = Target {
        map: *map,
        place: 0,
    };
    target.distances::<Unnoted>(&mut Queue::new(map.n), dist, 0, &mut []);
    first_apart(dist).map(|place| place as u16)
}
