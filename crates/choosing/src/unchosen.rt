// The fault of each reason for which there are no landmarks; and what else is one of them: a crowd, and want of memory.
ghost use Rattle.std.specs.Prelude.{◌≡◌};
ghost use Rattle.choosing.specs.Chosen.{unchosen_fault};
ghost use Rattle.choosing.specs.declared.kinds.Unchosen.TheVariants.{Crowded, Memory};

use super::kinds::{Crowd, Unchosen};
use maps::kinds::Fault;
use std::alloc::AllocError;

/// The fault as which it is told.
impl From<Unchosen> for Fault {
    ghost from_gives = { λ unchosen fault. fault ≡ unchosen_fault unchosen };

    fn from(unchosen: Unchosen) -> Fault {
        match unchosen {
            Unchosen::Apart(_) => Fault::Apart,
            Unchosen::Crowded(_) => Fault::Room,
            Unchosen::Memory => Fault::Memory,
        }
    }
}

impl From<Crowd> for Unchosen {
    ghost from_gives = { λ crowd unchosen. unchosen ≡ Crowded crowd };

    fn from(crowd: Crowd) -> Unchosen {
        Unchosen::Crowded(crowd)
    }
}

impl From<AllocError> for Unchosen {
    ghost from_gives = { λ _ r. r ≡ Memory };

    fn from(_e: AllocError) -> Unchosen {
        Unchosen::Memory
    }
}
