// A map in lent memory: a compressed adjacency.
ghost use Rattle.std.specs.Prelude.{◌≡◌, true};
ghost use Rattle.maps.specs.Arcs.{sound_arcs};

/// A map: the arcs of each place stand together, in rising order of the place to which they lead.
/// The arcs of place `a` are those from `starts[a]` to before `starts[a + 1]`; each leads to `places[k]` and costs `costs[k]`.
// Lists of plain numbers side by side, so that places and costs can be lent as slices of 16 bits and take no more memory than that.
#[derive(Clone, Copy)]
pub struct RoadMap<'a> {
    /// How many places there are.
    pub n: usize,
    pub starts: &'a [u32],
    pub places: &'a [u16],
    pub costs: &'a [u16],
    ghost sound: { sound_arcs n starts.now places.now costs.now ≡ true },
}
