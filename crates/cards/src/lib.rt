// Cards: the place, its landmark, and a hint.
#![tactic(auto)]

pub mod carding;
pub mod hints;
pub mod kinds;
pub mod printing;
