// Roads as records.
ghost use Rattle.std.specs.Prelude.{◌≡◌};
ghost use Rattle.std.specs.Result.{result_err};
ghost use Rattle.maps.specs.Roads.{road_fault};
ghost use Rattle.reading.specs.Roads.{road_shape, road_bytes};
ghost use Rattle.reading.specs.Writing.{Wrote};

use super::kinds::Record;
use super::reader::word_at;
use super::records::Recorded;
use super::writer::Put;
use maps::kinds::{Fault, Road};
use std::alloc::AllocError;

impl Recorded for Road {
    ghost shape = { road_shape };

    fn sort() -> Record {
        Record::Road
    }

    fn size() -> usize {
        6
    }

    fn decode(part: &[u8]) -> Road {
        Road {
            from: word_at(part, 0),
            to: word_at(part, 2),
            cost: word_at(part, 4),
        }
    }

    fn check(self, n: u16, last: Option<Road>) -> Result<(), Fault>
        ensures { result_err result ≡ road_fault n last self }
    {
        self.check(n, last)
    }
}

impl Put for Road {
    ghost writes = { road_bytes };

    fn put(self, out: &mut Vec<u8>) -> Result<(), AllocError>
        ensures { Wrote out.old.items (road_bytes self) result out.new.items }
    {
        let [from_high, from_low] = self.from.to_be_bytes();
        let [to_high, to_low] = self.to.to_be_bytes();
        let [cost_high, cost_low] = self.cost.to_be_bytes();
        out.extend_from_slice(&[from_high, from_low, to_high, to_low, cost_high, cost_low])
    }
}
