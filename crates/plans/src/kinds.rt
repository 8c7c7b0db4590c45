// A plan in memory, and why there is none.
ghost use Rattle.std.specs.Prelude.{◌≡◌, ◌<◌, ◌≤◌, vec_len};

use cards::kinds::Card;
use choosing::kinds::Crowd;
use posts::kinds::Post;

/// A plan: which places are landmarks, in rising order, and the post and the card of every place, that of place 0 first; a post has room for
/// `room` lines. Whether it is the plan of some map is for contracts to say: one that was read may be wrong.
// Posts and cards are lists by place, side by side, as each is lent by itself.
#[derive(Drop)]
pub struct Plan {
    pub(crate) room: u8,
    pub(crate) landmarks: Vec<u16>,
    pub(crate) posts: Vec<Post>,
    pub(crate) cards: Vec<Card>,
    ghost some: { 0 < vec_len posts },
    ghost few: { vec_len posts ≤ 512 },
    ghost level: { vec_len cards ≡ vec_len posts },
    ghost fewer: { vec_len landmarks ≤ vec_len posts },
}

/// Why there is no plan.
// Its cases stand side by side with those of choosing, so that who plans matches one enum.
#[derive(Clone, Copy, PartialEq, Eq, Debug)]
pub enum NoPlan {
    /// A post is to have room for fewer than 8 lines.
    Range,
    /// The map doesn't hang together: this place has no way to place 0, and is the lowest such.
    Apart(u16),
    /// The rule found no landmarks that leave every post with room, and gave up with this post.
    Crowded(Crowd),
    /// Memory ran out.
    Memory,
}
