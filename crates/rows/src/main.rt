// The program `rows`: prints all distances and next places of a map, or works them out some times and prints their sum.
#![tactic(auto)]

mod row;

use distances::rows::{all_rows, row};
use maps::map::RoadMap;
use programs::kinds::{Ended, Program};
use programs::messages::status_of;
use row::Row;
use std::process::ExitCode;

// Prints all rows.
fn show_rows(program: Program<'_>, map: &RoadMap<'_>) -> Result<(), Ended> {
    let heap = program.rt.alloc();
    let mut dist = vec![in heap; 0u32; map.n].map_err(|_| program.no_memory())?;
    let mut next = vec![in heap; 0u16; map.n].map_err(|_| program.no_memory())?;
    for to in 0..map.n {
        row(map, to, &mut dist, &mut next).map_err(|_| program.complain("a row of another size"))?;
        program.say(Row {
            to,
            dist: &dist,
            next: &next,
        })?;
    }
    Ok(())
}

// The sum of all distances and next places. Folds that may wrap, since `sum` asks for a bound that the check doesn't find from their lengths;
// one for each list, since a chain of both asks at each number in which list it stands.
fn sum_of(dist: &[u32], next: &[u16]) -> u64 {
    let dists = dist
        .iter()
        .map(|x| u64::from(*x))
        .fold(0, u64::wrapping_add);
    let nexts = next.iter().map(|e| u64::from(*e));
    nexts.fold(dists, u64::wrapping_add)
}

// Works out all rows so many times, and prints the sum of the last.
fn repeat_rows(program: Program<'_>, map: &RoadMap<'_>, times: u32) -> Result<(), Ended> {
    let heap = program.rt.alloc();
    let n = map.n;
    let mut dist = vec![in heap; 0u32; n * n].map_err(|_| program.no_memory())?;
    let mut next = vec![in heap; 0u16; n * n].map_err(|_| program.no_memory())?;
    for _ in 0..times {
        let _ = all_rows(map, &mut dist, &mut next);
    }
    let sum = sum_of(&dist, &next);
    program.say(format_args!("{times} times {n} rows, sum {sum}"))
}

// What comes after `--repeat`: how many times, and then the files.
fn repeat(program: Program<'_>, given: &[String]) -> Result<(), Ended> {
    let wanted = "--repeat wants a number";
    let (count, files) = given.split_first().ok_or_else(|| program.complain(wanted))?;
    let times = count.parse::<u32>().map_err(|_| program.complain(wanted))?;
    repeat_rows(program, &program.map(files)?.map(), times)
}

// Prints all rows; or after `--repeat`, works them out some times.
fn show_or_repeat(program: Program<'_>) -> Result<(), Ended> {
    let given = program.words()?;
    match given.as_slice() {
        [first, rest @ ..] if first.as_str() == "--repeat" => repeat(program, rest),
        words => show_rows(program, &program.map(words)?.map()),
    }
}

fn main(rt: HostRuntime) -> ExitCode {
    status_of(show_or_repeat(Program {
        rt: &rt,
        name: "rows",
    }))
}
