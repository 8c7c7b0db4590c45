// Making the plan of a map.
ghost use Rattle.std.specs.Prelude.{◌≡◌};
ghost use Rattle.maps.specs.Charts.{ground_of};
ghost use Rattle.maps.specs.declared.kinds.Fault.TheVariants.{Memory as MemoryFault};
ghost use Rattle.plans.specs.Stands.{Planning};
ghost use Rattle.plans.specs.declared.kinds.NoPlan.TheVariants.{Memory};

use super::kinds::{NoPlan, Plan};
use super::listing::plan_of;
use choosing::choice::choose;
use distances::survey::Survey;
use landmarks::land::Land;
use maps::buf::RoadMapBuf;
use maps::kinds::Fault;
use std::alloc::Global;

// Landmarks that were chosen can be settled, and leave every post with room: only memory can be wanting.
fn out_of_memory(fault: Fault) -> NoPlan
    requires { fault ≡ MemoryFault }
    ensures { result ≡ Memory }
{
    let _ = fault;
    NoPlan::Memory
}

/// The plan of a map whose posts have room for so many lines: landmarks chosen by the rule, and for every place the post and the card that follow from
/// them. Takes as long as all rows and choosing. Refuses room for fewer than 8 lines, a map that doesn't hang together, and where the rule
/// finds no landmarks that leave every post with room.
pub fn make(heap: Global, map: RoadMapBuf, room: u8) -> Result<Plan, NoPlan>
    ensures { Planning (ground_of map) room result }
{
    if room < 8 {
        return Err(NoPlan::Range);
    }
    let survey = Survey::new(heap, map).map_err(out_of_memory)?;
    let marks = choose(heap, &survey, room)?;
    let land = Land::new(heap, survey, marks).map_err(out_of_memory)?;
    plan_of(heap, &land, room).map_err(out_of_memory)
}
