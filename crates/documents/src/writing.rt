// Map documents, written.
ghost use Rattle.std.specs.Prelude.{◌≡◌};
ghost use Rattle.reading.specs.Writing.{Wrote};
ghost use Rattle.documents.specs.Maps.{write_map};
ghost use Rattle.documents.specs.Views.{charted};

use super::kinds::{Kind, MapHead};
use maps::buf::RoadMapBuf;
use reading::writer::{Put, put_all};
use std::alloc::AllocError;

/// Writes a map behind what `out` holds; for want of memory, nothing of it.
pub fn write_map(out: &mut Vec<u8>, map: &RoadMapBuf) -> Result<(), AllocError>
    ensures { Wrote out.old.items (write_map (charted map.now)) result out.new.items }
{
    let old = out.len();
    let roads = map.roads();
    let head = MapHead {
        kind: Kind::Map as u8,
        places: map.len(),
        roads: roads.len() as u16,
    };
    head.put(out)?;
    // An `if let`, and no `inspect_err`: of what its closure borrows nothing is known where there was no error.
    if let Err(error) = put_all(out, roads) {
        out.truncate(old);
        return Err(error);
    }
    Ok(())
}
