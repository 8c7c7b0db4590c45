// A post in memory: its lines one after the other, and the line for a place by halving.
ghost use Rattle.std.specs.Prelude.{◌≡◌, [], length};
ghost use Rattle.posts.specs.Posts.{told, find_in};
ghost use Rattle.posts.specs.Pushing.{Pushed};

use super::kinds::{Line, Post, Refused};
use maps::placed::{Placed, search};

impl Placed for Line {
    ghost stands = { λ line. line.place };

    fn place(&self) -> usize {
        usize::from(self.place)
    }
}

impl Post {
    /// A post with no lines, in constant time; it refuses nothing.
    pub fn new() -> Post
        ensures { told result ≡ [] }
    {
        let blank = Line {
            place: 0,
            next: 0,
            near: false,
        };
        Post {
            lines: [blank; 255],
            count: 0,
        }
    }

    /// How many lines it has, in constant time; it refuses nothing.
    pub fn len(&self) -> usize
        ensures { result ≡ length (told self.now) }
    {
        self.lines().len()
    }

    /// Its lines, lent, in constant time; it refuses nothing.
    pub fn lines(&self) -> &[Line]
        ensures { result.now ≡ told self.now }
    {
        &self.lines[0..self.count]
    }

    /// One line more at the end, in constant time. It refuses a line on a full post, and one for a
    /// place that isn't above that of the last line; the post then stays as it was.
    pub fn push(&mut self, line: Line) -> Result<(), Refused>
        ensures { Pushed (told self.old) (told self.new) line result }
    {
        if self.count >= 255 {
            return Err(Refused::Full);
        }
        if self
            .lines()
            .last()
            .is_some_and(|last| line.place <= last.place)
        {
            return Err(Refused::Order);
        }
        self.lines[self.count] = line;
        self.count += 1;
        Ok(())
    }

    /// The line for a place, `None` where there is none. The lines still in question are halved at
    /// each step: at most seven halvings for 255 lines, and a look at the last. It refuses nothing.
    pub fn find(&self, place: u16) -> Option<Line>
        ensures { result ≡ find_in place (told self.now) }
    {
        let lines = self.lines();
        let at = search(lines, usize::from(place))?;
        Some(lines[at])
    }
}
