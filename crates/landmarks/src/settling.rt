// Settling the landmarks of a surveyed map, and what is near then.
ghost use Rattle.std.specs.Prelude.{◌≡◌, ltb, if◌then◌else◌, Some, None};
ghost use Rattle.landmarks.specs.Landmarks.{mark_of};
ghost use Rattle.landmarks.specs.Lands.{Settled, lines_in, map_in, marks_of, near_in, on_post_in};
ghost use Rattle.landmarks.specs.Numbers.{mark_number};

use super::kinds::Nearest;
use super::land::Land;
use super::nearest::{is_marked, landmark_of};
use distances::survey::Survey;
use maps::kinds::Fault;
use std::alloc::Global;

impl Land {
    /// Works out the landmark of every place, where `marks` says which places are landmarks. Takes n times n steps.
    /// Refuses with Range where no place is one.
    pub fn new(heap: Global, survey: Survey, marks: Vec<bool>) -> Result<Land, Fault>
        ensures { Settled survey marks.items result }
    {
        let n = survey.map().len() as usize;
        let mut nearest: Vec<Nearest> = Vec::new(heap);
        for v in 0..n {
            let found = landmark_of(&survey, &marks, v).ok_or(Fault::Range)?;
            nearest.push(found)?;
        }
        Ok(Land {
            survey,
            marks,
            nearest,
        })
    }

    /// The map that was surveyed.
    pub fn survey(&self) -> &Survey
        ensures { result.now ≡ self.now.survey }
    {
        &self.survey
    }

    /// How many places the map has.
    pub fn len(&self) -> u16
        ensures { result ≡ (map_in self.now).n }
    {
        self.survey.map().len()
    }

    /// Whether place `v` is a landmark.
    pub fn is_landmark(&self, v: usize) -> bool
        ensures { result ≡ marks_of self.now v }
    {
        is_marked(&self.marks, v)
    }

    /// The landmark of place `v` and how far it is; none if there is no such place.
    pub fn landmark(&self, v: usize) -> Option<Nearest>
        ensures { result ≡ (if ltb v (map_in self.now).n then Some (mark_number (mark_of (map_in self.now) (marks_of self.now) v)) else None) }
    {
        // Asked of the map's size, as `far` asks, so that one test serves where both are called: with the list's own size `near` takes 1.9 times the instructions.
        (v < self.len() as usize).then(|| self.nearest[v])
    }

    /// Whether place `v` is near place `u`: closer than the landmark of `v` is. Nothing is near beyond the places.
    pub fn near(&self, u: usize, v: usize) -> bool
        ensures { result ≡ near_in self.now u v }
    {
        self.landmark(v)
            .is_some_and(|found| self.survey.far(v, u) < found.away)
    }

    /// Whether place `v` has a line on the post at `u`: it is a landmark or near `u`, and not `u` itself.
    pub fn on_post(&self, u: usize, v: usize) -> bool
        ensures { result ≡ on_post_in self.now u v }
    {
        let n = self.len() as usize;
        u < n && v < n && u != v && (self.is_landmark(v) || self.near(u, v))
    }

    /// How many lines the post at `u` has; none beyond the places. Looks at every place once.
    pub fn line_count(&self, u: usize) -> usize
        ensures { result ≡ lines_in self.now u }
    {
        (0..self.len() as usize)
            .filter(|&v| self.on_post(u, v))
            .count()
    }
}
