// The number and the words by which a fault is told; and want of memory as a fault.
ghost use Rattle.std.specs.Prelude.{◌≡◌, Some};
ghost use Rattle.maps.specs.Faults.{number_of, fault_words};
ghost use Rattle.maps.specs.declared.kinds.Fault.TheVariants.{Memory};

use super::kinds::Fault;
use std::alloc::{AllocError, AllocFailed};
use std::error::Error;
use std::fmt;

impl Fault {
    // A method and no conversion, since whoever reads `fault.number()` sees what number it is.
    /// The number by which the fault is told; 0 for want of memory, which is no fault of the input.
    pub fn number(self) -> u8
        ensures { result ≡ number_of self }
    {
        self as u8
    }
}

impl fmt::Display for Fault {
    ghost output = { λ fault. Some (fault_words fault) };

    fn fmt<W: fmt::Write>(&self, f: &mut fmt::Formatter<W>) -> fmt::Result {
        f.write_str(match self {
            Fault::Memory => "no memory",
            Fault::Form => "an unknown kind, a record that is cut, or bytes left over",
            Fault::Range => "a number out of its range, or a place that isn't there",
            Fault::Order => "roads not in rising order",
            Fault::Cost => "a road of cost 0",
            Fault::Apart => "the map doesn't hang together",
            Fault::Room => "no room on the posts",
            Fault::Plan => "a plan that can't be read or doesn't fit the map",
            Fault::Same => "a change of a road that is so already",
        })
    }
}

impl Error for Fault {}

impl From<AllocError> for Fault {
    ghost from_gives = { λ _ r. r ≡ Memory };

    fn from(_e: AllocError) -> Fault {
        Fault::Memory
    }
}

impl<T: Drop> From<AllocFailed<T>> for Fault {
    ghost from_gives = { λ _ r. r ≡ Memory };

    fn from(_error: AllocFailed<T>) -> Fault {
        Fault::Memory
    }
}
