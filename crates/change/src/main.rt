// The program `change`: reads a map, and says what it read and what follows it.
#![tactic(auto)]

use programs::kinds::{Ended, Program};
use programs::messages::status_of;
use std::process::ExitCode;

fn show_map(program: Program<'_>) -> Result<(), Ended> {
    program.show_leading_map(&program.words()?)
}

fn main(rt: HostRuntime) -> ExitCode {
    status_of(show_map(Program {
        rt: &rt,
        name: "change",
    }))
}
