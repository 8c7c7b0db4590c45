// What stands on a card.

/// Where to go on from the landmark: to the next place, or that there is no hint, since the place is a landmark itself.
// An enum of its own and no Option, so that a card says in words why there is none.
#[derive(Clone, Copy, PartialEq, Eq, Debug)]
pub enum Hint {
    Next(u16),
    Unneeded,
}

/// The card of a place: the place, its landmark, and where to go on from there.
#[derive(Clone, Copy, PartialEq, Eq, Debug)]
pub struct Card {
    pub place: u16,
    pub landmark: u16,
    pub hint: Hint,
}
