// What the programs share: reading their input, and saying why they refuse it.
#![tactic(auto)]

pub mod input;
pub mod kinds;
pub mod leading;
pub mod messages;
