// Choosing landmarks, so that every post has room.
#![tactic(auto)]

mod balls;
mod bounding;
pub mod choice;
mod counting;
mod crowding;
mod judging;
pub mod kinds;
pub mod laws;
mod picking;
mod turn;
pub mod unchosen;
