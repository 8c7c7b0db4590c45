// The card of a place of a surveyed map with landmarks.
ghost use Rattle.std.specs.Prelude.{◌≡◌, if◌then◌else◌, Some, None, nat_lt};
ghost use Rattle.cards.specs.Cards.{card_of};
ghost use Rattle.landmarks.specs.Lands.{map_in, marks_of};

use super::kinds::{Card, Hint};
use landmarks::land::Land;

/// The card of place `v`: the place, its landmark, and the next place from there. None where there is no such place. Takes constant time.
pub fn card_of(land: &Land, v: u16) -> Option<Card>
    ensures { result ≡ (if nat_lt v (map_in land.now).n then Some (card_of (map_in land.now) (marks_of land.now) v) else None) }
{
    let found = land.landmark(v as usize)?;
    let next = land.survey().hop(v as usize, found.place as usize);
    Some(Card {
        place: v,
        landmark: found.place,
        hint: Hint::from(next),
    })
}
