// Maps: faults and their numbers, roads, and the map in memory.
#![tactic(auto)]

pub mod arcs;
pub mod buf;
pub mod faults;
pub mod kinds;
mod laying;
pub mod making;
pub mod map;
pub mod placed;
pub mod reading;
pub mod roads;
#[cfg(test)]
mod tests;
