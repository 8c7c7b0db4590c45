// Distances and next places: one row, all rows, whether a map hangs together, and a map surveyed.
#![tactic(auto)]

mod dijkstra;
pub mod joined;
pub mod lent;
mod nexts;
mod order;
mod queue;
pub mod rows;
pub mod survey;
pub mod surveying;
mod target;
#[cfg(test)]
mod tests;
pub mod unreached;
