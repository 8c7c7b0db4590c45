// The landmark of a place, in numbers.

/// A landmark, and how far it is.
#[derive(Clone, Copy, PartialEq, Eq, Debug)]
pub struct Nearest {
    pub place: u16,
    pub away: u32,
}
