// The landmark of a place: the one at the least distance, the lowest among equals.
ghost use Rattle.std.specs.Prelude.{◌≡◌};
ghost use Rattle.landmarks.specs.Landmarks.{marks_in};
ghost use Rattle.landmarks.specs.Numbers.{landmark_in};
ghost use Rattle.maps.specs.Charts.{ground_of};

use super::kinds::Nearest;
use distances::survey::Survey;

// Whether a place is a landmark; what the list does not reach is none.
pub(crate) fn is_marked(marks: &[bool], k: usize) -> bool
    ensures { result ≡ marks_in marks.now k }
{
    marks.get(k).copied().unwrap_or(false)
}

/// The landmark of place `v` and how far it is, among the places that `marks` names; none if there is no landmark or no such place.
/// Looks at every place once.
pub fn landmark_of(survey: &Survey, marks: &[bool], v: usize) -> Option<Nearest>
    ensures { result ≡ landmark_in (ground_of survey.now.map) (marks_in marks.now) v }
{
    let n = survey.map().len();
    if v >= n as usize {
        return None;
    }
    (0..n)
        .filter(|&k| is_marked(marks, k as usize))
        .map(|k| Nearest {
            place: k,
            away: survey.far(v, k as usize),
        })
        .min_by_key(|found| found.away)
}
