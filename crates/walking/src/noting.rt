// A walk that notes the places to which one comes.
ghost use Rattle.std.specs.Prelude.{◌≡◌, ◌++◌, is_ok, IfOk, if◌then◌else◌};
ghost use Rattle.maps.specs.Charts.{chart};
ghost use Rattle.walking.specs.Walks.{posts_in, walk_of, trail_of};
ghost use Rattle.walking.specs.Promise.{Keeps, Passes};

use super::kinds::{End, Walker};
use super::walks::walk_with;
use cards::kinds::Card;
use maps::map::RoadMap;
use posts::kinds::Post;
use std::alloc::AllocError;

/// The walk of `walk`, with the places to which one comes put behind what is in `passed`, in their order and without the first.
/// Takes as long as `walk`, and memory for 2 n places; where there is none it refuses, and leaves `passed` as it was.
pub fn walk_noting(
    map: &RoadMap<'_>,
    posts: &[Post],
    card: Card,
    from: u16,
    passed: &mut Vec<u16>,
) -> Result<End, AllocError>
    ensures end { IfOk result (λ e. e ≡ walk_of (chart map.now) (posts_in posts.now) card from) }
    ensures promise { IfOk result (λ e. Keeps (chart map.now) (posts_in posts.now) card from e) }
    ensures way { IfOk result (λ e. Passes (chart map.now) (posts_in posts.now) card from e) }
    ensures passed { passed.new.items ≡ (if is_ok result then passed.old.items ++ trail_of (chart map.now) (posts_in posts.now) card from else passed.old.items) }
{
    passed.reserve(2 * map.n)?;
    Ok(walk_with(map, posts, Walker { at: from, card }, passed))
}
