// Documents: maps, read from bytes and written to them.
#![tactic(auto)]

pub mod heads;
pub mod kinds;
pub mod laws;
pub mod map;
#[cfg(test)]
mod tests;
pub mod writing;
