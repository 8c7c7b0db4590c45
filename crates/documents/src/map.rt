// Map documents, read.
ghost use Rattle.std.specs.Prelude.{◌≡◌, IfOk, None};
ghost use Rattle.std.specs.Result.{result_err};
ghost use Rattle.ways.specs.Ways.{hangs_together};
ghost use Rattle.maps.specs.Roads.{map_fault, map_of};
ghost use Rattle.reading.specs.Telling.{Tells, Told};
ghost use Rattle.documents.specs.Maps.{read_roads, read_map_at, read_last_map, read_whole_map, apart, last_fault, write_map};
ghost use Rattle.documents.specs.Views.{charted, Built};

use super::kinds::MapHead;
use distances::joined::hangs_together;
use maps::buf::RoadMapBuf;
use maps::kinds::{Fault, Road};
use reading::kinds::Stop;
use reading::reader::Reader;
use reading::records::{read_record, read_records};
use std::alloc::Global;

// The map of roads that were read without a fault: only memory can run out.
fn built(heap: Global, n: u16, roads: Vec<Road>) -> Result<RoadMapBuf, Stop>
    requires { map_fault n roads.items ≡ None }
    ensures { Built (record { places = n; roads = roads.items }) result }
{
    match RoadMapBuf::new(heap, n, roads) {
        Ok(map) => Ok(map),
        Err(Fault::Memory) => Err(Stop::Memory),
        Err(_) => unreachable(),
    }
}

// Whether the map hangs together.
fn hangs(map: &RoadMapBuf) -> bool
    ensures { result ≡ hangs_together (map_of map.now.n map.now.roads.items) }
{
    hangs_together(&map.map())
}

// Checks that the map hangs together.
fn check_whole(map: &RoadMapBuf) -> Result<(), Fault>
    ensures { result_err result ≡ apart (charted map.now) }
{
    if hangs(map) {
        Ok(())
    } else {
        Err(Fault::Apart)
    }
}

// Checks a map with which the input has to end: bytes left over come first.
fn check_last(from: &Reader<'_>, map: &RoadMapBuf) -> Result<(), Fault>
    ensures { result_err result ≡ last_fault from.now.bytes.now (charted map.now) from.now.at }
{
    from.check_end()?;
    check_whole(map)
}

// The first record and the roads of the map that begins here.
fn roads_at(heap: Global, from: &mut Reader<'_>) -> Result<RoadMapBuf, Stop>
    ensures told { Told charted (read_roads from.old.bytes.now from.old.at) result from.new.at }
    ensures same { from.new.bytes.now ≡ from.old.bytes.now }
{
    let head = read_record::<MapHead>(from, 0, None)?;
    from.begin();
    let roads = read_records::<Road>(heap, from, head.places, head.roads)?;
    built(heap, head.places, roads)
}

// The two readers below differ in one call. One reader with that check as a closure would be longer than both, since its clauses must speak of any closure.
/// The map that begins here, where something else may follow it. It is refused at the first record that has a fault, and there for the lowest;
/// at its end, if it doesn't hang together. It takes time for the roads, and as long as one row.
pub fn map_at(heap: Global, from: &mut Reader<'_>) -> Result<RoadMapBuf, Stop>
    ensures told { Told charted (read_map_at from.old.bytes.now from.old.at) result from.new.at }
    ensures same { from.new.bytes.now ≡ from.old.bytes.now }
{
    let map = roads_at(heap, from)?;
    from.close(check_whole(&map))?;
    Ok(map)
}

/// The map that begins here and with which the input has to end: bytes left over are refused at its end, before all else there.
pub fn last_map_at(heap: Global, from: &mut Reader<'_>) -> Result<RoadMapBuf, Stop>
    ensures told { Told charted (read_last_map from.old.bytes.now from.old.at) result from.new.at }
    ensures same { from.new.bytes.now ≡ from.old.bytes.now }
{
    let map = roads_at(heap, from)?;
    let check = check_last(from, &map);
    from.close(check)?;
    Ok(map)
}

/// The map that is the whole of an input. Written again it gives the same bytes.
pub fn read_map(heap: Global, bytes: &[u8]) -> Result<RoadMapBuf, Stop>
    ensures told { Tells charted (read_whole_map bytes.now) result }
    ensures again { IfOk result (λ m. bytes.now ≡ write_map (charted m)) }
{
    let mut from = Reader::new(bytes);
    last_map_at(heap, &mut from)
}
