// The kinds of documents, and the first record of a map.

/// The kinds of documents, each with the byte that it begins with.
#[derive(Clone, Copy, PartialEq, Eq, Debug)]
pub enum Kind {
    /// A map: places and roads.
    Map = 1,
    /// The lines of the posts and the cards of the places.
    Plan = 2,
    /// Changes of roads.
    Change = 3,
    /// A walk along the posts.
    Walk = 4,
}

/// A byte that begins no kind of document.
#[derive(Clone, Copy, PartialEq, Eq, Debug)]
pub struct UnknownKind(pub u8);

/// The first record of a map.
#[derive(Clone, Copy)]
pub struct MapHead {
    // The byte as it was read: whether it is that of a map is judged with the rest.
    pub kind: u8,
    pub places: u16,
    pub roads: u16,
}
