// The program `walk`: reads a map, and says what it read; or makes posts and cards for given landmarks, and walks by them.
#![tactic(auto)]

mod tour;
mod walk;

use programs::kinds::{Ended, Program};
use programs::messages::status_of;
use std::process::ExitCode;
use tour::show_tour;

// Says what was read; or after `--landmarks`, walks.
fn show_or_tour(program: Program<'_>) -> Result<(), Ended> {
    let given = program.words()?;
    match given.as_slice() {
        [first, rest @ ..] if first.as_str() == "--landmarks" => show_tour(program, rest),
        words => program.show_leading_map(words),
    }
}

fn main(rt: HostRuntime) -> ExitCode {
    status_of(show_or_tour(Program {
        rt: &rt,
        name: "walk",
    }))
}
