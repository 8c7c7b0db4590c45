// What a map is made of, roads and arcs, and the faults that an input can have.

/// What is wrong with an input, or that memory ran out; each by the number by which it is told.
#[derive(Clone, Copy, PartialEq, Eq, Debug)]
pub enum Fault {
    /// Want of memory: no fault of the input.
    Memory = 0,
    /// An unknown kind of document, a record that is cut, or bytes left over at the end.
    Form = 1,
    /// A number out of its range: too many places or roads, or none; a place that isn't there; a road that doesn't go from a lower place to a higher one.
    Range = 2,
    /// Roads that don't rise, by their first place and then by their second.
    Order = 3,
    /// A road of cost 0.
    Cost = 4,
    /// The map doesn't hang together.
    Apart = 5,
    /// There is no room on the posts.
    Room = 6,
    /// A plan that can't be read or doesn't fit its map, or a walk that can't go on.
    Plan = 7,
    /// A change of a road that is so already.
    Same = 8,
}

/// A road between two places, the lower one first; it costs the same both ways.
#[derive(Clone, Copy, PartialEq, Eq, Debug)]
pub struct Road {
    pub from: u16,
    pub to: u16,
    pub cost: u16,
}

/// One direction of a road: from the place at which it stands to another.
#[derive(Clone, Copy)]
pub struct Arc {
    pub at: u16,
    pub to: u16,
    pub cost: u16,
}
