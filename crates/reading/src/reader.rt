// The reader: an input, and the place where it is read on.
ghost use Rattle.std.specs.Prelude.{◌≡◌, ℕ, ◌+◌, ◌-◌, ◌*◌, ◌<◌, ◌≤◌, length, take, drop, if◌then◌else◌, is_ok, MatchOption};
ghost use Rattle.std.specs.Result.{result_err};
ghost use Rattle.reading.specs.Reading.{start, after, fresh, judged, closed, left_over, word};
ghost use Rattle.reading.specs.Telling.{answer};

use super::kinds::{Place, Record, Refusal};
use maps::kinds::Fault;

/// The number in two bytes of a record, high byte first.
pub fn word_at(part: &[u8], i: usize) -> u16
    requires { i + 1 < length part.now }
    ensures { result ≡ word part.now i }
{
    u16::from_be_bytes([part[i], part[i + 1]])
}

/// Reads an input record by record.
// It has its input and its place in one, so that callers carry one value; the price is that each call says that the input stays the same.
#[derive(Drop)]
pub struct Reader<'a> {
    bytes: &'a [u8],
    at: Place,
    ghost within: { at.byte ≤ length bytes.now },
    // each record has a byte at least, so that they can be counted
    ghost counted: { at.index ≤ at.byte },
}

impl<'a> Reader<'a> {
    /// A reader of an input, from its start.
    pub fn new(bytes: &'a [u8]) -> Reader<'a>
        ensures { (result.bytes.now ≡ bytes.now) × (result.at ≡ start) }
    {
        Reader {
            bytes,
            at: Place { index: 0, byte: 0 },
        }
    }

    /// How many bytes are left.
    pub fn left(&self) -> usize
        ensures { result ≡ length self.now.bytes.now - self.now.at.byte }
    {
        self.bytes.len() - self.at.byte
    }

    /// The next `size` bytes, where there are as many.
    pub fn part(&self, size: usize) -> Option<&'a [u8]>
        ensures { MatchOption result
            (length self.now.bytes.now < self.now.at.byte + size)
            (λ s. (self.now.at.byte + size ≤ length self.now.bytes.now) × (length s.now ≡ size)
            × (s.now ≡ take size (drop self.now.at.byte self.now.bytes.now))) }
    {
        self.bytes[self.at.byte..].get(..size)
    }

    /// The refusal of the record that begins here.
    pub fn refusal(&self, fault: Fault, sort: Record) -> Refusal
        ensures { result ≡ (record { fault = fault; «record» = sort; at = self.now.at }) }
    {
        Refusal {
            fault,
            record: sort,
            at: self.at,
        }
    }

    /// Goes on to another sort of record: they are counted from 0 again.
    pub fn begin(&mut self)
        ensures at { self.new.at ≡ fresh self.old.at }
        ensures same { self.new.bytes.now ≡ self.old.bytes.now }
    {
        self.at.index = 0;
    }

    /// Passes a record of `size` bytes, unless its check found a fault.
    pub fn pass(
        &mut self,
        sort: Record,
        size: usize,
        check: Result<(), Fault>,
    ) -> Result<(), Refusal>
        requires { (0 < size) × (self.old.at.byte + size ≤ length self.old.bytes.now) }
        ensures value { result ≡ answer (judged (result_err check) sort tt self.old.at (after self.old.at size)) }
        ensures at { self.new.at ≡ (if is_ok check then after self.old.at size else self.old.at) }
        ensures same { self.new.bytes.now ≡ self.old.bytes.now }
    {
        if let Err(fault) = check {
            return Err(self.refusal(fault, sort));
        }
        self.at = Place {
            index: self.at.index + 1,
            byte: self.at.byte + size,
        };
        Ok(())
    }

    /// Checks that no bytes are left over.
    pub fn check_end(&self) -> Result<(), Fault>
        ensures { result_err result ≡ left_over self.now.bytes.now self.now.at }
    {
        if self.at.byte == self.bytes.len() {
            Ok(())
        } else {
            Err(Fault::Form)
        }
    }

    /// Passes the end of a document, unless the check of the whole found a fault.
    pub fn close(&mut self, check: Result<(), Fault>) -> Result<(), Refusal>
        ensures value { result ≡ answer (closed (result_err check) tt self.old.at) }
        ensures at { self.new.at ≡ fresh self.old.at }
        ensures same { self.new.bytes.now ≡ self.old.bytes.now }
    {
        self.begin();
        if let Err(fault) = check {
            return Err(self.refusal(fault, Record::End));
        }
        Ok(())
    }
}
