// A walker, a step, and how a walk ends.
use cards::kinds::Card;

/// Somebody on the way: where he stands, and the card of the place to which he goes.
#[derive(Clone, Copy, PartialEq, Eq, Debug)]
pub struct Walker {
    pub at: u16,
    pub card: Card,
}

/// What a walker does at a post.
#[derive(Clone, Copy, PartialEq, Eq, Debug)]
pub enum Step {
    /// Stays: this is the place of the card.
    Here,
    /// Goes on to this place.
    On(u16),
    /// Finds nothing to go by.
    Lost,
}

/// The end of a walk.
#[derive(Clone, Copy, PartialEq, Eq, Debug)]
pub enum End {
    /// At the place of the card, after roads of this cost in all.
    Arrived(u32),
    /// At a post on which a line that is needed doesn't stand, or from which there is no road as the line says.
    Stuck(u16),
    /// After 2 n roads.
    Worn,
}

/// A road that was gone: the place to which it leads, and its cost.
#[derive(Clone, Copy, PartialEq, Eq, Debug)]
pub struct Leg {
    pub place: u16,
    pub toll: u16,
}
