// Reading an input record by record, up to its end or its first fault, and writing records.
#![tactic(auto)]

pub mod kinds;
pub mod printing;
pub mod reader;
pub mod records;
pub mod roads;
pub mod stops;
pub mod writer;
