// A walk, and the line that tells it.
ghost use Rattle.std.specs.Prelude.{Some};
ghost use Rattle.walk.specs.Words.{walk_words};

use std::fmt;
use walking::kinds::End;

/// A walk between two places: the places passed on the way, and how it ended.
#[derive(Clone, Copy)]
pub(crate) struct Walk<'a> {
    pub(crate) from: u16,
    pub(crate) to: u16,
    pub(crate) passed: &'a [u16],
    pub(crate) end: End,
}

impl fmt::Display for Walk<'_> {
    ghost output = { λ walk. Some (walk_words walk) };

    fn fmt<W: fmt::Write>(&self, f: &mut fmt::Formatter<W>) -> fmt::Result {
        let Walk {
            from,
            to,
            passed,
            end,
        } = *self;
        write!(f, "{from} to {to}: {from}")?;
        for place in passed {
            write!(f, " {place}")?;
        }
        match end {
            End::Arrived(cost) => write!(f, " cost {cost}"),
            End::Stuck(place) => write!(f, " stuck at {place}"),
            End::Worn => write!(f, " worn out"),
        }
    }
}
