// Records of one sort, read one after another.
ghost use Rattle.std.specs.Prelude.{◌≡◌, ℕ, ◌<◌, length, None, vec_items};
ghost use Rattle.std.specs.Result.{result_err};
ghost use Rattle.reading.specs.Reading.{Shape, one, many};
ghost use Rattle.reading.specs.Telling.{answer, stands, Told};

use super::kinds::{Record, Refusal, Stop};
use super::reader::Reader;
use maps::kinds::Fault;
use std::alloc::Global;

/// A sort of record: how long it is, what its bytes mean, and what can be wrong with it.
pub trait Recorded: Copy + Drop {
    ghost shape: { Shape Self };

    // The name and the size are functions: a constant that clauses speak of would be given twice, in code and as a ghost.
    /// The name of the sort.
    fn sort() -> Record
        ensures { result ≡ shape.sort };

    /// How many bytes the record has; it has some.
    fn size() -> usize
        ensures { (result ≡ shape.size) × (0 < result) };

    /// The record in these bytes.
    fn decode(part: &[u8]) -> Self
        requires { length part.now ≡ shape.size }
        ensures { result ≡ shape.value part.now };

    /// Checks the record in a map of `n` places, after the record `last` of its sort.
    fn check(self, n: u16, last: Option<Self>) -> Result<(), Fault>
        ensures { result_err result ≡ shape.fault n last self };
}

/// The next record, in a map of `n` places and after the record `last` of its sort.
pub fn read_record<T: Recorded>(
    from: &mut Reader<'_>,
    n: u16,
    last: Option<T>,
) -> Result<T, Refusal>
    ensures value { result ≡ answer (one T.Recorded.shape n from.old.bytes.now last from.old.at) }
    ensures at { from.new.at ≡ stands (one T.Recorded.shape n from.old.bytes.now last from.old.at) from.old.at }
    ensures same { from.new.bytes.now ≡ from.old.bytes.now }
{
    let Some(part) = from.part(T::size()) else {
        return Err(from.refusal(Fault::Form, T::sort()));
    };
    let value = T::decode(part);
    from.pass(T::sort(), T::size(), value.check(n, last))?;
    Ok(value)
}

/// The next `count` records of one sort, in a map of `n` places. For want of memory nothing is kept.
pub fn read_records<T: Recorded>(
    heap: Global,
    from: &mut Reader<'_>,
    n: u16,
    count: u16,
) -> Result<Vec<T>, Stop>
    ensures told { Told vec_items (many (one T.Recorded.shape n from.old.bytes.now) count None from.old.at) result from.new.at }
    ensures same { from.new.bytes.now ≡ from.old.bytes.now }
{
    let mut items = Vec::new(heap);
    let mut last = None;
    for _i in 0..count {
        let item = read_record::<T>(from, n, last)?;
        items.push(item)?;
        last = Some(item);
    }
    Ok(items)
}
