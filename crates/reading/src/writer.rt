// Writing records behind what is written already.
ghost use Rattle.std.specs.Prelude.{◌≡◌, ℕ, List};
ghost use Rattle.std.specs.List.{flat_map};
ghost use Rattle.reading.specs.Reading.{bytes_of};
ghost use Rattle.reading.specs.Writing.{Wrote};

use std::alloc::AllocError;

/// A number, high byte first.
pub fn put_word(out: &mut Vec<u8>, x: u16) -> Result<(), AllocError>
    ensures { Wrote out.old.items (bytes_of x) result out.new.items }
{
    out.extend_from_slice(&x.to_be_bytes())
}

/// A record that can be written.
pub trait Put: Copy + Drop {
    ghost writes: { Self → List ℕ };

    /// Writes the record; for want of memory, nothing of it.
    fn put(self, out: &mut Vec<u8>) -> Result<(), AllocError>
        ensures { Wrote out.old.items (writes self) result out.new.items };
}

/// Writes some records of one sort; for want of memory, none of them.
pub fn put_all<T: Put>(out: &mut Vec<u8>, items: &[T]) -> Result<(), AllocError>
    ensures { Wrote out.old.items (flat_map T.Put.writes items.now) result out.new.items }
{
    let old = out.len();
    for item in items {
        // An `if let`, and no `inspect_err`: of what its closure borrows nothing is known where there was no error.
        if let Err(error) = item.put(out) {
            out.truncate(old);
            return Err(error);
        }
    }
    Ok(())
}
