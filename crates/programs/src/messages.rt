// What a program says on standard output and standard error, and the status with which it ends.
ghost use Rattle.std.specs.Prelude.{◌≡◌, cond, is_ok};
ghost use Rattle.std.specs.Process.{exit_status};

use super::kinds::{Ended, Program};
use maps::kinds::Fault;
use std::fmt;
use std::process::ExitCode;

/// The status of a program that ends so: 0 if it has done its work, and 1 if not. A `main` that returned the error itself would print it as a second line.
pub fn status_of(done: Result<(), Ended>) -> ExitCode
    ensures { exit_status result ≡ cond (is_ok done) 0 1 }
{
    match done {
        Ok(()) => ExitCode::SUCCESS,
        Err(Ended) => ExitCode::FAILURE,
    }
}

impl Program<'_> {
    /// Says on standard error why the program ends, in one line. Where that can't be written either, nothing is left to say it by.
    pub fn complain<T: fmt::Display + Drop>(self, why: T) -> Ended {
        let _ = eprintln!(self.rt; "{}: {why}", self.name);
        Ended
    }

    /// Says that no memory is left.
    pub fn no_memory(self) -> Ended {
        self.complain("no memory")
    }

    /// Says that a map has a fault, where it is of no record of the input.
    pub fn blame(self, fault: Fault) -> Ended {
        self.complain(format_args!("fault {}: {fault}", fault.number()))
    }

    /// Writes a line on standard output.
    pub fn say<T: fmt::Display + Drop>(self, line: T) -> Result<(), Ended> {
        self.rt
            .println(line)
            .map_err(|_| self.complain("standard output can't be written"))
    }
}
