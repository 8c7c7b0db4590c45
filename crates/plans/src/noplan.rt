// The fault of each reason for which there is no plan, and what else is one of them.
ghost use Rattle.std.specs.Prelude.{◌≡◌};
ghost use Rattle.plans.specs.NoPlans.{no_plan_fault, unchosen_as};
ghost use Rattle.plans.specs.declared.kinds.NoPlan.TheVariants.{Memory};

use super::kinds::NoPlan;
use choosing::kinds::Unchosen;
use maps::kinds::Fault;
use std::alloc::AllocError;

/// The fault as which it is told.
impl From<NoPlan> for Fault {
    ghost from_gives = { λ no_plan fault. fault ≡ no_plan_fault no_plan };

    fn from(no_plan: NoPlan) -> Fault {
        match no_plan {
            NoPlan::Range => Fault::Range,
            NoPlan::Apart(_) => Fault::Apart,
            NoPlan::Crowded(_) => Fault::Room,
            NoPlan::Memory => Fault::Memory,
        }
    }
}

impl From<Unchosen> for NoPlan {
    ghost from_gives = { λ x y. y ≡ unchosen_as x };

    fn from(unchosen: Unchosen) -> NoPlan {
        match unchosen {
            Unchosen::Apart(place) => NoPlan::Apart(place),
            Unchosen::Crowded(crowd) => NoPlan::Crowded(crowd),
            Unchosen::Memory => NoPlan::Memory,
        }
    }
}

impl From<AllocError> for NoPlan {
    ghost from_gives = { λ _ y. y ≡ Memory };

    fn from(_e: AllocError) -> NoPlan {
        NoPlan::Memory
    }
}
