// The parts of a plan.
ghost use Rattle.std.specs.Prelude.{◌≡◌, ◌<◌, ◌≤◌, map, vec_len};
ghost use Rattle.plans.specs.Plans.{planned};
ghost use Rattle.posts.specs.Posts.{told};

use super::kinds::Plan;
use cards::kinds::Card;
use posts::kinds::Post;

impl Plan {
    /// The plan of these parts. It takes constant time.
    pub fn new(room: u8, landmarks: Vec<u16>, posts: Vec<Post>, cards: Vec<Card>) -> Plan
        requires some { 0 < vec_len posts }
        requires few { vec_len posts ≤ 512 }
        requires level { vec_len cards ≡ vec_len posts }
        requires fewer { vec_len landmarks ≤ vec_len posts }
        ensures { planned result ≡ (record { room = room; landmarks = landmarks.items; posts = map told posts.items; cards = cards.items }) }
    {
        Plan {
            room,
            landmarks,
            posts,
            cards,
        }
    }

    /// How many places the plan has.
    pub fn len(&self) -> u16
        ensures { result ≡ vec_len self.now.posts }
    {
        self.posts.len() as u16
    }

    /// For how many lines a post has room.
    pub fn room(&self) -> u8
        ensures { result ≡ self.now.room }
    {
        self.room
    }

    /// The landmarks, in rising order.
    pub fn landmarks(&self) -> &[u16]
        ensures { result.now ≡ self.now.landmarks.items }
    {
        &self.landmarks
    }

    /// The posts, that of place 0 first.
    pub fn posts(&self) -> &[Post]
        ensures { result.now ≡ self.now.posts.items }
    {
        &self.posts
    }

    /// The cards, that of place 0 first.
    pub fn cards(&self) -> &[Card]
        ensures { result.now ≡ self.now.cards.items }
    {
        &self.cards
    }
}
