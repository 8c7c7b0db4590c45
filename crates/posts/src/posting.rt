// The post at a place of a surveyed map with landmarks.
ghost use Rattle.std.specs.Prelude.{◌≡◌, ◌<◌};
ghost use Rattle.landmarks.specs.Lands.{map_in, marks_of};
ghost use Rattle.posts.specs.Posts.{line_of};
ghost use Rattle.posts.specs.Posting.{Posted, PostedAll};

use super::kinds::{Line, Post};
use landmarks::land::Land;
use maps::kinds::Fault;
use std::alloc::Global;

// The line for place `v` on the post at `u`.
fn line_of(land: &Land, u: usize, v: u16) -> Line
    requires u { u < (map_in land.now).n }
    requires v { v < (map_in land.now).n }
    ensures { result ≡ line_of (map_in land.now) (marks_of land.now) u v }
{
    Line {
        place: v,
        next: land.survey().hop(v as usize, u),
        near: land.near(u, v as usize),
    }
}

/// The post at place `u`: a line for each landmark and for each place near `u`, but none for `u` itself. Looks at every place once.
/// Refuses with Range where there is no such place, and with Room where the post would have more than 255 lines.
pub fn post_of(land: &Land, u: usize) -> Result<Post, Fault>
    ensures { Posted (map_in land.now) (marks_of land.now) u result }
{
    let n = land.len();
    if u >= n as usize {
        return Err(Fault::Range);
    }
    let mut post = Post::new();
    // The places come in rising order, so that only a full post refuses a line.
    for v in 0..n {
        if land.on_post(u, v as usize) {
            post.push(line_of(land, u, v))?;
        }
    }
    Ok(post)
}

/// The posts of all places, that of place 0 first. Takes n times as long as one.
/// Refuses with Room where a post would have more than 255 lines.
pub fn posts_of(heap: Global, land: &Land) -> Result<Vec<Post>, Fault>
    ensures { PostedAll (map_in land.now) (marks_of land.now) result }
{
    let mut posts = Vec::new(heap);
    for u in 0..land.len() {
        posts.push(post_of(land, u as usize)?)?;
    }
    Ok(posts)
}
