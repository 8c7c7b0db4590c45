// Choosing landmarks by the rule, from place 0 on.
ghost use Rattle.std.specs.Prelude.{◌≡◌, ℕ, ◌<◌, ◌≤◌, length};
ghost use Rattle.choosing.specs.Chosen.{Chose, Stopped};
ghost use Rattle.choosing.specs.Tables.{Table};
ghost use Rattle.maps.specs.Charts.{ground_of};
ghost use Rattle.ways.specs.Map.{Map};

use super::counting::lower;
use super::kinds::{Crowd, Unchosen};
use super::turn::{Lines, Ordered, Turn};
use distances::survey::Survey;
use distances::unreached::unreached;
use std::alloc::Global;

/// Chooses landmarks by a table of distances, or says which post is too full with those at which the rule gave up. `marks` is left with the landmarks,
/// the other memory with what was worked out from them.
fn choose_by(
    map: &Ordered<'_>,
    room: u8,
    marks: &mut [bool],
    away: &mut [u32],
    ball: &mut [u32],
    near: &mut [u32],
) -> Result<(), Crowd>
    requires marks { length marks.old ≡ map.now.rows.n }
    requires aways { length away.old ≡ map.now.rows.n }
    requires balls { length ball.old ≡ map.now.rows.n }
    requires nears { length near.old ≡ map.now.rows.n }
    ensures { (z : Map) → Table z map.now.rows.n map.now.rows.dist.now → Stopped z room marks.new result }
{
    marks.fill(false);
    marks[0] = true;
    away.copy_from_slice(map.dists(0));
    ball.fill(map.rows.n as u32);
    let mut count: u32 = 1;
    // Left by its label and not by a condition: whether every post has room is known only after this turn has counted.
    'choosing: loop {
        map.count_near(away, near);
        let lines = Lines { near, count };
        if lines.above(room) == 0 {
            break 'choosing;
        }
        if count > u32::from(room) {
            return Err(lines.fullest());
        }
        map.shrink_all(away, ball);
        let turn = Turn {
            map: *map,
            marks,
            away,
            ball,
            lines,
            room,
        };
        let Some(best) = turn.pick() else {
            return Err(lines.fullest());
        };
        marks[best.place] = true;
        lower(map.dists(best.place), away);
        count += 1;
    }
    Ok(())
}

/// The same in memory of its own, with a number for each place.
// Of a fixed size, so that choosing allocates its answer alone. Two functions, so that the loop is proved for slices of any length.
fn choose_on(map: &Ordered<'_>, room: u8, marks: &mut [bool]) -> Result<(), Crowd>
    requires marks { length marks.old ≡ map.now.rows.n }
    ensures { (z : Map) → Table z map.now.rows.n map.now.rows.dist.now → Stopped z room marks.new result }
{
    let mut away = [0u32; 512];
    let mut ball = [0u32; 512];
    let mut near = [0u32; 512];
    let n = map.rows.n;
    choose_by(
        map,
        room,
        marks,
        &mut away[0..n],
        &mut ball[0..n],
        &mut near[0..n],
    )
}

/// Chooses the landmarks of a surveyed map by the rule, for posts with room for so many lines: place 0, and then, as long as some post has more lines,
/// the place after which the lines above room, summed over all posts, are fewest, the lowest among equals. Which places are landmarks is told
/// place by place. Refuses a map that doesn't hang together, and where there are more landmarks than room and still some post has more lines.
/// With r landmarks it takes r times n times n steps, and for each place that has to be judged what is near it.
pub fn choose(heap: Global, survey: &Survey, room: u8) -> Result<Vec<bool>, Unchosen>
    ensures { Chose (ground_of survey.now.map) room result }
{
    if let Some(place) = unreached(&survey.map().map()) {
        return Err(Unchosen::Apart(place));
    }
    let map = Ordered {
        rows: survey.rows(),
    };
    let mut marks = vec![in heap; false; map.rows.n]?;
    choose_on(&map, room, &mut marks)?;
    Ok(marks)
}
