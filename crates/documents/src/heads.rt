// The kind of a document and the first record of a map: what their bytes mean, and what is wrong with them.
ghost use Rattle.std.specs.Prelude.{◌≡◌};
ghost use Rattle.std.specs.Result.{result_err};
ghost use Rattle.reading.specs.Writing.{Wrote};
ghost use Rattle.documents.specs.Kinds.{Decodes};
ghost use Rattle.documents.specs.Maps.{head_fault, head_shape, head_bytes};

use super::kinds::{Kind, MapHead, UnknownKind};
use maps::kinds::Fault;
use maps::roads::check_size;
use reading::kinds::Record;
use reading::reader::word_at;
use reading::records::Recorded;
use reading::writer::Put;
use std::alloc::AllocError;

impl TryFrom<u8> for Kind {
    type Error = UnknownKind;

    ghost try_from_gives = { Decodes };

    fn try_from(byte: u8) -> Result<Kind, UnknownKind> {
        match byte {
            1 => Ok(Kind::Map),
            2 => Ok(Kind::Plan),
            3 => Ok(Kind::Change),
            4 => Ok(Kind::Walk),
            _ => Err(UnknownKind(byte)),
        }
    }
}

impl MapHead {
    /// Checks the first record of a map; of several faults it is refused for the lowest.
    pub fn check(self) -> Result<(), Fault>
        ensures { result_err result ≡ head_fault self }
    {
        let Ok(Kind::Map) = Kind::try_from(self.kind) else {
            return Err(Fault::Form);
        };
        check_size(self.places, usize::from(self.roads))
    }
}

impl Recorded for MapHead {
    ghost shape = { head_shape };

    fn sort() -> Record {
        Record::Header
    }

    fn size() -> usize {
        5
    }

    fn decode(part: &[u8]) -> MapHead {
        MapHead {
            kind: part[0],
            places: word_at(part, 1),
            roads: word_at(part, 3),
        }
    }

    fn check(self, _n: u16, _last: Option<MapHead>) -> Result<(), Fault>
        ensures { result_err result ≡ head_fault self }
    {
        self.check()
    }
}

impl Put for MapHead {
    ghost writes = { head_bytes };

    fn put(self, out: &mut Vec<u8>) -> Result<(), AllocError>
        ensures { Wrote out.old.items (head_bytes self) result out.new.items }
    {
        let [places_high, places_low] = self.places.to_be_bytes();
        let [roads_high, roads_low] = self.roads.to_be_bytes();
        out.extend_from_slice(&[self.kind, places_high, places_low, roads_high, roads_low])
    }
}
