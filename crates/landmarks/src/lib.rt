// Landmarks: the landmark of each place, what is near, and how many lines a post has.
#![tactic(auto)]

pub mod kinds;
pub mod land;
pub mod laws;
pub mod nearest;
pub mod settling;
