// Walks on small maps, by right posts and by wrong ones.
use super::kinds::End;
use super::noting::walk_noting;
use super::walks::walk;
use cards::kinds::{Card, Hint};
use maps::buf::RoadMapBuf;
use maps::kinds::{Fault, Road};
use posts::kinds::{Line, Post};
use std::alloc::Global;
use std::test::Fail;

fn road(from: u16, to: u16) -> Road {
    Road { from, to, cost: 1 }
}

// Places 0 to 4 in a row, each road of cost 1.
fn row(heap: Global) -> Result<RoadMapBuf, Fault> {
    let roads = [road(0, 1), road(1, 2), road(2, 3), road(3, 4)];
    RoadMapBuf::new(heap, 5, roads.to_vec(heap)?)
}

fn near(place: u16, next: u16) -> Line {
    Line {
        place,
        next,
        near: true,
    }
}

fn mark(place: u16, next: u16) -> Line {
    Line {
        place,
        next,
        near: false,
    }
}

fn post(lines: &[Line]) -> Post {
    let mut post = Post::new();
    for line in lines {
        let _ = post.push(*line);
    }
    post
}

// The posts of the row with landmark 0, as far as they matter on the way to 3.
fn posts() -> [Post; 5] {
    [
        post(&[]),
        post(&[mark(0, 0), near(3, 2)]),
        post(&[mark(0, 1), near(3, 3)]),
        post(&[mark(0, 2)]),
        post(&[mark(0, 3), near(3, 3)]),
    ]
}

fn card(place: u16) -> Card {
    Card {
        place,
        landmark: 0,
        hint: Hint::Next(1),
    }
}

#[test]
fn by_the_landmark(rt: HostRuntime) -> Result<(), Fail> {
    let map = row(rt.alloc())?;
    assert_eq!(rt; walk(&map.map(), &posts(), card(3), 0), End::Arrived(3));
    assert_eq!(rt; walk(&map.map(), &posts(), card(1), 4), End::Arrived(3));
    assert_eq!(rt; walk(&map.map(), &posts(), card(4), 4), End::Arrived(0));
    Ok(())
}

#[test]
fn a_line_or_a_road_is_missing(rt: HostRuntime) -> Result<(), Fail> {
    let map = row(rt.alloc())?;
    assert_eq!(rt; walk(&map.map(), &[], card(3), 2), End::Stuck(2));
    assert_eq!(rt; walk(&map.map(), &posts(), card(3), 9), End::Stuck(9));
    let wrong = [post(&[near(3, 3)])];
    assert_eq!(rt; walk(&map.map(), &wrong, card(3), 0), End::Stuck(0));
    Ok(())
}

#[test]
fn two_posts_point_at_each_other(rt: HostRuntime) -> Result<(), Fail> {
    let map = row(rt.alloc())?;
    let wrong = [post(&[near(3, 1)]), post(&[near(3, 0)])];
    assert_eq!(rt; walk(&map.map(), &wrong, card(3), 0), End::Worn);
    assert_eq!(rt; u8::from(End::Worn), 2);
    Ok(())
}

#[test]
fn the_places_passed(rt: HostRuntime) -> Result<(), Fail> {
    let map = row(rt.alloc())?;
    let mut passed = Vec::new(rt.alloc());
    let end = walk_noting(&map.map(), &posts(), card(3), 0, &mut passed)?;
    assert_eq!(rt; end, End::Arrived(3));
    assert_eq!(rt; passed.as_slice(), [1, 2, 3].as_slice());
    Ok(())
}
