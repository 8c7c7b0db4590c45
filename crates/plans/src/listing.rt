// The plan of a surveyed map with landmarks: its landmarks, posts and cards, listed.
ghost use Rattle.std.specs.Prelude.{◌≡◌, ℕ, ◌<◌, ◌≤◌, [], map, length, IfOk, vec_len, MatchBool, slice_index_or};
ghost use Rattle.cards.specs.Cards.{card_of};
ghost use Rattle.landmarks.specs.Lands.{map_in, marks_of};
ghost use Rattle.plans.specs.Plans.{marked};
ghost use Rattle.plans.specs.Stands.{Listed};
ghost use Rattle.posts.specs.Posts.{told};
ghost use Rattle.std.specs.List.{range_with_len};

use super::kinds::Plan;
use cards::carding::card_of;
use cards::kinds::Card;
use landmarks::land::Land;
use maps::kinds::Fault;
use posts::kinds::Post;
use posts::posting::posts_of;
use std::alloc::{AllocError, Global};

/// The landmarks, in rising order.
fn landmarks_of(heap: Global, land: &Land) -> Result<Vec<u16>, AllocError>
    ensures { IfOk result (λ v. v.items ≡ marked (marks_of land.now) 0 (map_in land.now).n) }
{
    let n = land.survey().map().len();
    (0..n)
        .filter(|v| land.is_landmark(usize::from(*v)))
        .collect(heap)
}

/// The cards of all places, that of place 0 first.
fn cards_of(heap: Global, land: &Land) -> Result<Vec<Card>, AllocError>
    ensures { IfOk result (λ v. v.items ≡ map (card_of (map_in land.now) (marks_of land.now)) (range_with_len 0 (map_in land.now).n)) }
{
    let n = land.survey().map().len();
    (0..n).map(|v| card_of(land, v).unwrap()).collect(heap)
}

/// Whether some post has more lines than there is room for.
fn any_full(posts: &[Post], room: u8) -> bool
    ensures { MatchBool result
        ((u : ℕ) × (u < length posts.now) × (room < length (slice_index_or (map told posts.now) u [])))
        ((u : ℕ) → u < length posts.now → length (slice_index_or (map told posts.now) u []) ≤ room) }
{
    posts.iter().any(|post| post.len() > usize::from(room))
}

/// The plan of a surveyed map with its landmarks, for posts with room for so many lines. Takes n times n steps.
/// Refuses with Room where some post has more lines.
pub fn plan_of(heap: Global, land: &Land, room: u8) -> Result<Plan, Fault>
    ensures { Listed (map_in land.now) room (marks_of land.now) result }
{
    let posts = posts_of(heap, land)?;
    if any_full(&posts, room) {
        return Err(Fault::Room);
    }
    let landmarks = landmarks_of(heap, land)?;
    let cards = cards_of(heap, land)?;
    Ok(Plan {
        room,
        landmarks,
        posts,
        cards,
    })
}
