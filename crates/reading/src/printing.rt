// How records, their places and refusals print: the words in which a program tells why it stopped reading.
ghost use Rattle.std.specs.Prelude.{◌≡◌, Some};
ghost use Rattle.reading.specs.Words.{record_name, place_words, refusal_words, stop_words};

use super::kinds::{Place, Record, Refusal, Stop};
use std::error::Error;
use std::fmt;

impl Record {
    // A function besides the printing, which may fail: this can't, and whoever wants the name as text has it.
    /// The name of the sort.
    pub fn name(self) -> &'static str
        ensures { result.now ≡ record_name self }
    {
        match self {
            Record::Header => "header",
            Record::Road => "road",
            Record::End => "end",
        }
    }
}

impl fmt::Display for Record {
    ghost output = { λ sort. Some (record_name sort) };

    fn fmt<W: fmt::Write>(&self, f: &mut fmt::Formatter<W>) -> fmt::Result {
        f.write_str(self.name())
    }
}

impl fmt::Display for Place {
    ghost output = { λ at. Some (place_words at) };

    fn fmt<W: fmt::Write>(&self, f: &mut fmt::Formatter<W>) -> fmt::Result {
        write!(f, "{} at byte {}", self.index, self.byte)
    }
}

impl fmt::Display for Refusal {
    ghost output = { λ refusal. Some (refusal_words refusal) };

    fn fmt<W: fmt::Write>(&self, f: &mut fmt::Formatter<W>) -> fmt::Result {
        let Refusal { fault, record, at } = self;
        write!(f, "fault {}: {record} {at}: {fault}", fault.number())
    }
}

impl Error for Refusal {}

impl fmt::Display for Stop {
    ghost output = { λ stop. Some (stop_words stop) };

    fn fmt<W: fmt::Write>(&self, f: &mut fmt::Formatter<W>) -> fmt::Result {
        match self {
            Stop::Input(refusal) => write!(f, "{refusal}"),
            Stop::Memory => write!(f, "no memory"),
        }
    }
}

impl Error for Stop {}
