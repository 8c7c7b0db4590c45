// A post: lines put on it and refused; lines found first, in the middle, last and not at all.
use super::kinds::{Line, Post, Refused};

fn line(place: u16) -> Line {
    Line {
        place,
        next: 7,
        near: place == 5,
    }
}

fn post(places: &[u16]) -> Post {
    let mut post = Post::new();
    for place in places {
        let _ = post.push(line(*place));
    }
    post
}

#[test]
fn lines_stand_in_their_order(rt: HostRuntime) {
    assert_eq!(rt; Post::new().len(), 0);
    let post = post(&[2, 5, 9]);
    assert_eq!(rt; post.len(), 3);
    assert_eq!(rt; post.lines(), [line(2), line(5), line(9)].as_slice());
}

#[test]
fn a_place_not_above_the_last_is_refused(rt: HostRuntime) {
    let mut post = post(&[2, 5]);
    assert_eq!(rt; post.push(line(5)).err(), Some(Refused::Order));
    assert_eq!(rt; post.push(line(2)).err(), Some(Refused::Order));
    assert_eq!(rt; post.lines(), [line(2), line(5)].as_slice());
    assert_eq!(rt; post.push(line(6)).err(), None);
    assert_eq!(rt; post.len(), 3);
}

#[test]
fn a_line_is_found_wherever_it_stands(rt: HostRuntime) {
    let post = post(&[2, 5, 9]);
    for place in [2u16, 5, 9] {
        assert_eq!(rt; post.find(place), Some(line(place)));
    }
    for place in [0u16, 3, 8, 65535] {
        assert_eq!(rt; post.find(place), None);
    }
    assert_eq!(rt; Post::new().find(0), None);
}

#[test]
fn a_post_has_room_for_255_lines(rt: HostRuntime) {
    let mut post = Post::new();
    for place in 0..255u16 {
        assert!(rt; post.push(line(2 * place)).is_ok());
    }
    assert_eq!(rt; post.push(line(600)).err(), Some(Refused::Full));
    assert_eq!(rt; post.push(line(0)).err(), Some(Refused::Full));
    assert_eq!(rt; post.len(), 255);
    for place in 0..255u16 {
        assert_eq!(rt; post.find(2 * place), Some(line(2 * place)));
        assert_eq!(rt; post.find(2 * place + 1), None);
    }
}
