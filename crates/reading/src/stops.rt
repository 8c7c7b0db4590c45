// Why reading stopped: as a fault; from a refusal, or from want of memory.
ghost use Rattle.std.specs.Prelude.{◌≡◌};
ghost use Rattle.reading.specs.declared.kinds.Stop.TheVariants.{Input, Memory};
ghost use Rattle.reading.specs.Telling.{fault_of};

use super::kinds::{Refusal, Stop};
use maps::kinds::Fault;
use std::alloc::{AllocError, AllocFailed};

/// The fault for which reading stopped; want of memory is one of its own.
impl From<Stop> for Fault {
    ghost from_gives = { λ stop fault. fault ≡ fault_of stop };

    fn from(stop: Stop) -> Fault {
        match stop {
            Stop::Input(refusal) => refusal.fault,
            Stop::Memory => Fault::Memory,
        }
    }
}

impl From<Refusal> for Stop {
    ghost from_gives = { λ x y. y ≡ Input x };

    fn from(refusal: Refusal) -> Stop {
        Stop::Input(refusal)
    }
}

impl From<AllocError> for Stop {
    ghost from_gives = { λ x y. y ≡ Memory };

    fn from(_error: AllocError) -> Stop {
        Stop::Memory
    }
}

// What could not be kept for want of memory is let go.
impl<T: Drop> From<AllocFailed<T>> for Stop {
    ghost from_gives = { λ x y. y ≡ Memory };

    fn from(_error: AllocFailed<T>) -> Stop {
        Stop::Memory
    }
}
