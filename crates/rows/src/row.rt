// A row, and the line that tells it.
ghost use Rattle.std.specs.Prelude.{Some};
ghost use Rattle.rows.specs.Words.{entry_words, row_words};

use std::fmt;

/// The row of a place: the distance from each place, and the next place from it, or the highest number where there is none.
// Both lists as a row has them, and the highest number for none with them.
#[derive(Clone, Copy)]
pub(crate) struct Row<'a> {
    pub(crate) to: usize,
    pub(crate) dist: &'a [u32],
    pub(crate) next: &'a [u16],
}

// What a row says of one place.
#[derive(Clone, Copy)]
struct Entry {
    dist: u32,
    next: u16,
}

impl fmt::Display for Entry {
    ghost output = { λ entry. Some (entry_words (entry.dist, entry.next)) };

    fn fmt<W: fmt::Write>(&self, f: &mut fmt::Formatter<W>) -> fmt::Result {
        match self.next {
            u16::MAX => write!(f, "{}/-", self.dist),
            next => write!(f, "{}/{next}", self.dist),
        }
    }
}

impl fmt::Display for Row<'_> {
    ghost output = { λ row. Some (row_words row) };

    fn fmt<W: fmt::Write>(&self, f: &mut fmt::Formatter<W>) -> fmt::Result {
        write!(f, "to {}:", self.to)?;
        for (dist, next) in self.dist.iter().zip(self.next) {
            let entry = Entry {
                dist: *dist,
                next: *next,
            };
            write!(f, " {entry}")?;
        }
        Ok(())
    }
}
