// How a card and its hint print.
ghost use Rattle.std.specs.Prelude.{Some};
ghost use Rattle.cards.specs.Words.{hint_words, card_words};

use super::kinds::{Card, Hint};
use std::fmt;

impl fmt::Display for Hint {
    ghost output = { λ hint. Some (hint_words hint) };

    fn fmt<W: fmt::Write>(&self, f: &mut fmt::Formatter<W>) -> fmt::Result {
        match self {
            Hint::Next(next) => write!(f, "{next}"),
            Hint::Unneeded => write!(f, "none"),
        }
    }
}

impl fmt::Display for Card {
    ghost output = { λ card. Some (card_words card) };

    fn fmt<W: fmt::Write>(&self, f: &mut fmt::Formatter<W>) -> fmt::Result {
        let Card {
            place,
            landmark,
            hint,
        } = self;
        write!(f, "card {place}: landmark {landmark} hint {hint}")
    }
}
