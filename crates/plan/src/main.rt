// The program `plan`: reads a map that is the whole of its input, and says what it read.
#![tactic(auto)]

use programs::kinds::{Ended, Program};
use programs::messages::status_of;
use std::process::ExitCode;

fn show_map(program: Program<'_>) -> Result<(), Ended> {
    let map = program.map(&program.words()?)?;
    program.say_map(&map)
}

fn main(rt: HostRuntime) -> ExitCode {
    status_of(show_map(Program {
        rt: &rt,
        name: "plan",
    }))
}
