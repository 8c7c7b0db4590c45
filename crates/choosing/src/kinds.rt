// What choosing answers where it gives no landmarks.

/// The post with most lines of all, the lowest among equals: which it is, how many lines it has, and with how many landmarks.
#[derive(Clone, Copy, PartialEq, Eq, Debug)]
pub struct Crowd {
    pub post: u16,
    pub lines: u16,
    pub landmarks: u16,
}

/// Why there are no landmarks.
#[derive(Clone, Copy, PartialEq, Eq, Debug)]
pub enum Unchosen {
    /// The map doesn't hang together: this place has no way to place 0, and is the lowest such.
    Apart(u16),
    /// The rule found no landmarks that leave every post with room, and gave up with this post.
    Crowded(Crowd),
    /// Memory ran out.
    Memory,
}
