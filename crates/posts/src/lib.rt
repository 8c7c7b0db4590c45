// Posts: lines, and the post at a place.
#![tactic(auto)]

pub mod kinds;
pub mod post;
pub mod posting;
pub mod printing;
pub mod refusing;
#[cfg(test)]
mod tests;
