// A walk over a map, by posts and a card.
ghost use Rattle.std.specs.Prelude.{◌≡◌, ◌*◌};
ghost use Rattle.std.specs.List.{FoldsTo};
ghost use Rattle.maps.specs.Charts.{chart};
ghost use Rattle.walking.specs.Walks.{step_of, turn_by, posts_in, walk_of, trail_of};
ghost use Rattle.walking.specs.Promise.{Keeps};

use super::kinds::{End, Leg, Step, Walker};
use super::notes::Notes;
use cards::kinds::Card;
use maps::map::RoadMap;
use posts::kinds::Post;

impl Walker {
    /// One turn of a walk that has cost so much: the step by the posts, along the road of the map that it takes, or the end of the walk.
    pub(crate) fn turn(self, map: &RoadMap<'_>, posts: &[Post], cost: u32) -> Result<Leg, End>
        ensures { result ≡ turn_by (chart map.now) cost self.at (step_of (posts_in posts.now self.at) self.card self.at) }
    {
        match self.step_among(posts) {
            Step::Here => Err(End::Arrived(cost)),
            Step::Lost => Err(End::Stuck(self.at)),
            Step::On(place) => {
                let toll = map.cost(self.at as usize, place as usize);
                if toll > 0 {
                    Ok(Leg { place, toll })
                } else {
                    Err(End::Stuck(self.at))
                }
            }
        }
    }
}

/// The walk of `walk`, with each place noted to which one comes.
// The map and the posts come apart, as callers have them: a struct of the two would serve this function and `turn` alone.
pub(crate) fn walk_with<N: Notes>(
    map: &RoadMap<'_>,
    posts: &[Post],
    start: Walker,
    notes: &mut N,
) -> End
    requires room { N.room notes.old (2 * map.now.n) }
    ensures end { result ≡ walk_of (chart map.now) (posts_in posts.now) start.card start.at }
    ensures noted { FoldsTo N.noted notes.old (trail_of (chart map.now) (posts_in posts.now) start.card start.at) notes.new }
{
    let mut walker = start;
    let mut cost: u32 = 0;
    for _i in 0..2 * map.n {
        match walker.turn(map, posts, cost) {
            Ok(leg) => {
                walker.at = leg.place;
                cost += leg.toll as u32;
                notes.note(leg.place);
            }
            Err(end) => return end,
        }
    }
    End::Worn
}

/// The walk from a place with a card, as the posts say; they stand in the order of their places. By the posts and the card of the map one
/// arrives, at most at three times the distance. Refuses nothing: by wrong posts or a wrong card, or from a place that isn't there, the walk
/// ends as the rule says, at the latest after 2 n roads. Takes at most 2 n turns, each of three halvings.
pub fn walk(map: &RoadMap<'_>, posts: &[Post], card: Card, from: u16) -> End
    ensures end { result ≡ walk_of (chart map.now) (posts_in posts.now) card from }
    ensures promise { Keeps (chart map.now) (posts_in posts.now) card from result }
{
    walk_with(map, posts, Walker { at: from, card }, &mut ())
}
