// The place to which a row leads.
ghost use Rattle.std.specs.Prelude.{◌<◌};

use maps::map::RoadMap;

/// A place of a map, to which the distances and the next places of a row lead.
// The lists that a row is written into are lent beside it, since the search wants the distances alone and finished distances are only read.
#[derive(Clone, Copy)]
pub(crate) struct Target<'a> {
    pub(crate) map: RoadMap<'a>,
    pub(crate) place: usize,
    ghost there: { place < map.n },
}
