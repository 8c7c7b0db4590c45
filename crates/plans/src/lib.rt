// Plans: the landmarks, posts and cards of a map.
#![tactic(auto)]

pub mod kinds;
pub mod laws;
pub mod listing;
pub mod making;
pub mod noplan;
pub mod parts;
