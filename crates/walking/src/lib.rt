// Walking: a step, a walk, and the promise of the whole.
#![tactic(auto)]

pub mod kinds;
pub mod laws;
mod notes;
pub mod noting;
pub mod steps;
#[cfg(test)]
mod tests;
pub mod walks;
