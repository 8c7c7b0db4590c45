// The number of a hint, and the hint of a number.
ghost use Rattle.std.specs.Prelude.{◌≡◌};
ghost use Rattle.cards.specs.Cards.{hint_number, hint_from};

use super::kinds::Hint;

/// The number of a hint in a document: the next place, or 65,535 if there is none. Takes constant time and refuses nothing.
impl From<Hint> for u16 {
    ghost from_gives = { λ hint number. number ≡ hint_number hint };

    fn from(hint: Hint) -> u16 {
        match hint {
            Hint::Next(place) => place,
            Hint::Unneeded => u16::MAX,
        }
    }
}

/// The hint that a number of a document stands for: 65,535 is none, any other the next place. Its number is that number again.
/// Takes constant time and refuses nothing.
impl From<u16> for Hint {
    ghost from_gives = { λ number hint. (hint ≡ hint_from number) × (hint_number hint ≡ number) };

    fn from(number: u16) -> Hint {
        if number == u16::MAX {
            Hint::Unneeded
        } else {
            Hint::Next(number)
        }
    }
}
