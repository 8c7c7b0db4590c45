// The words of a command line: what is asked for before all else, options and files, and numbers.
#![tactic(auto)]

pub mod asking;
pub mod items;
pub mod kinds;
pub mod numbers;
#[cfg(test)]
mod tests;
