// Whether a map hangs together.
ghost use Rattle.std.specs.Prelude.{◌≡◌};
ghost use Rattle.ways.specs.Ways.{hangs_together};
ghost use Rattle.maps.specs.Charts.{chart};

use crate::unreached::unreached;
use maps::map::RoadMap;

/// Whether there is a way from each place to each. Takes as long as one row.
pub fn hangs_together(map: &RoadMap<'_>) -> bool
    ensures { result ≡ hangs_together (chart map.now) }
{
    unreached(map).is_none()
}
