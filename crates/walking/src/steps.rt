// A walker's step at a post, and the number of the end of a walk.
ghost use Rattle.std.specs.Prelude.{◌≡◌, []};
ghost use Rattle.posts.specs.Posts.{told};
ghost use Rattle.walking.specs.Walks.{as_hint, as_step, past_near, step_of, posts_in, end_number};

use super::kinds::{End, Step, Walker};
use cards::kinds::Hint;
use posts::kinds::Post;

impl Walker {
    /// The step by one post and the card, and by nothing else. If the walker is at the place of the card, he has arrived.
    /// Else, if the place has a line as near, he goes as it says; else by the landmark. Looks for two lines at most, and refuses nothing.
    pub fn step(self, post: &Post) -> Step
        ensures { result ≡ step_of (told post.now) self.card self.at }
    {
        if self.at == self.card.place {
            return Step::Here;
        }
        match post.find(self.card.place) {
            Some(line) if line.near => Step::On(line.next),
            _ => self.step_by_landmark(post),
        }
    }

    /// The step where the place has no line as near: at the landmark as the hint says, elsewhere as the line of the landmark says.
    fn step_by_landmark(self, post: &Post) -> Step
        ensures { result ≡ as_step (past_near (told post.now) self.card self.at) }
    {
        if self.at == self.card.landmark {
            return self.step_by_hint();
        }
        match post.find(self.card.landmark) {
            Some(line) => Step::On(line.next),
            None => Step::Lost,
        }
    }

    /// The step as the hint says.
    fn step_by_hint(self) -> Step
        ensures { result ≡ as_step (as_hint self.card.hint) }
    {
        match self.card.hint {
            Hint::Next(place) => Step::On(place),
            Hint::Unneeded => Step::Lost,
        }
    }

    /// The step where no post stands, which is the step at a post without lines. Takes constant time and refuses nothing.
    pub fn step_without_post(self) -> Step
        ensures { result ≡ step_of [] self.card self.at }
    {
        if self.at == self.card.place {
            Step::Here
        } else if self.at == self.card.landmark {
            self.step_by_hint()
        } else {
            Step::Lost
        }
    }

    /// The step by the post at which the walker stands. The posts stand in the order of their places; beyond them there are none.
    /// Takes as long as `step`, and refuses nothing.
    pub fn step_among(self, posts: &[Post]) -> Step
        ensures { result ≡ step_of (posts_in posts.now self.at) self.card self.at }
    {
        match posts.get(self.at as usize) {
            Some(post) => self.step(post),
            None => self.step_without_post(),
        }
    }
}

/// The number of the end: 0 if one arrived, 1 if one is stuck, 2 if one is worn out. Takes constant time and refuses nothing.
impl From<End> for u8 {
    ghost from_gives = { λ end number. number ≡ end_number end };

    fn from(end: End) -> u8 {
        match end {
            End::Arrived(_) => 0,
            End::Stuck(_) => 1,
            End::Worn => 2,
        }
    }
}
