// How a line of a post prints.
ghost use Rattle.std.specs.Prelude.{Some};
ghost use Rattle.posts.specs.Words.{line_words};

use super::kinds::Line;
use std::fmt;

impl fmt::Display for Line {
    ghost output = { λ line. Some (line_words line) };

    fn fmt<W: fmt::Write>(&self, f: &mut fmt::Formatter<W>) -> fmt::Result {
        let Line { place, next, near } = *self;
        let sort = if near { "near" } else { "landmark" };
        write!(f, "{place} by {next} {sort}")
    }
}
