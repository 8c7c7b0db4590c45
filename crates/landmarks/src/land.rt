// A surveyed map with its landmarks.
ghost use Rattle.std.specs.Prelude.{◌≡◌, ℕ, ◌<◌, vec_len, slice_index_or};
ghost use Rattle.landmarks.specs.Landmarks.{mark_of, marks_in};
ghost use Rattle.landmarks.specs.Numbers.{mark_number};
ghost use Rattle.maps.specs.Charts.{ground_of};

use super::kinds::Nearest;
use distances::survey::Survey;

/// A surveyed map, which of its places are landmarks, and the landmark of every place with its distance.
// Two lists by place: the first is kept as it was handed over, the second is worked out from it.
#[derive(Drop)]
pub struct Land {
    pub(crate) survey: Survey,
    pub(crate) marks: Vec<bool>,
    pub(crate) nearest: Vec<Nearest>,
    ghost whole: { vec_len nearest ≡ survey.map.n },
    ghost right: { (v : ℕ) → v < survey.map.n → slice_index_or nearest.items v (record { place = 0; away = 0 }) ≡ mark_number (mark_of (ground_of survey.map) (marks_in marks.items) v) },
}
