// Small maps laid out, and what is refused.
use super::buf::RoadMapBuf;
use super::kinds::{Fault, Road};
use super::map::RoadMap;
use super::placed::search;
use std::alloc::Global;
use std::process::Abort;
use std::test::Fail;

fn road(from: u16, to: u16, cost: u16) -> Road {
    Road { from, to, cost }
}

fn lay(heap: Global, n: u16, roads: &[Road]) -> Result<RoadMapBuf, Fault> {
    RoadMapBuf::new(heap, n, roads.to_vec(heap)?)
}

fn check_arcs(rt: &impl Abort, map: RoadMap<'_>, starts: &[u32], places: &[u16], costs: &[u16]) {
    assert_eq!(rt; map.starts, starts);
    assert_eq!(rt; map.places, places);
    assert_eq!(rt; map.costs, costs);
}

#[test]
fn one_place(rt: HostRuntime) -> Result<(), Fail> {
    let map = lay(rt.alloc(), 1, &[])?;
    check_arcs(&rt, map.map(), &[0, 0], &[], &[]);
    assert_eq!(rt; map.map().cost(0, 0), 0);
    Ok(())
}

#[test]
fn two_places(rt: HostRuntime) -> Result<(), Fail> {
    let map = lay(rt.alloc(), 2, &[road(0, 1, 9)])?;
    check_arcs(&rt, map.map(), &[0, 1, 2], &[1, 0], &[9, 9]);
    assert_eq!(rt; map.map().cost(1, 0), 9);
    Ok(())
}

#[test]
fn row(rt: HostRuntime) -> Result<(), Fail> {
    let map = lay(
        rt.alloc(),
        4,
        &[road(0, 1, 3), road(1, 2, 5), road(2, 3, 2)],
    )?;
    check_arcs(
        &rt,
        map.map(),
        &[0, 1, 3, 5, 6],
        &[1, 0, 2, 1, 3, 2],
        &[3, 3, 5, 5, 2, 2],
    );
    assert_eq!(rt; map.map().cost(2, 1), 5);
    assert_eq!(rt; map.map().cost(0, 2), 0);
    assert_eq!(rt; map.map().cost(3, 4), 0);
    Ok(())
}

#[test]
fn ring(rt: HostRuntime) -> Result<(), Fail> {
    let map = lay(
        rt.alloc(),
        4,
        &[road(0, 1, 1), road(0, 3, 7), road(1, 2, 2), road(2, 3, 3)],
    )?;
    check_arcs(
        &rt,
        map.map(),
        &[0, 2, 4, 6, 8],
        &[1, 3, 0, 2, 1, 3, 0, 2],
        &[1, 7, 1, 2, 2, 3, 7, 3],
    );
    assert_eq!(rt; map.map().cost(3, 0), 7);
    Ok(())
}

#[test]
fn star(rt: HostRuntime) -> Result<(), Fail> {
    let map = lay(
        rt.alloc(),
        4,
        &[road(0, 2, 4), road(1, 2, 5), road(2, 3, 6)],
    )?;
    check_arcs(
        &rt,
        map.map(),
        &[0, 1, 2, 5, 6],
        &[2, 2, 0, 1, 3, 2],
        &[4, 5, 4, 5, 6, 6],
    );
    assert_eq!(rt; map.len(), 4);
    assert_eq!(rt; map.roads().len(), 3);
    Ok(())
}

#[test]
fn refused(rt: HostRuntime) {
    let heap = rt.alloc();
    assert_eq!(rt; lay(heap, 0, &[]).err(), Some(Fault::Range));
    assert_eq!(rt; lay(heap, 513, &[]).err(), Some(Fault::Range));
    assert_eq!(rt; lay(heap, 3, &[road(0, 3, 1)]).err(), Some(Fault::Range));
    assert_eq!(rt; lay(heap, 3, &[road(1, 0, 1)]).err(), Some(Fault::Range));
    assert_eq!(rt;
        lay(heap, 3, &[road(0, 2, 1), road(0, 1, 1)]).err(),
        Some(Fault::Order)
    );
    assert_eq!(rt;
        lay(heap, 3, &[road(0, 1, 1), road(0, 1, 1)]).err(),
        Some(Fault::Order)
    );
    assert_eq!(rt; lay(heap, 3, &[road(0, 1, 0)]).err(), Some(Fault::Cost));
}

#[test]
fn places_in_lists_of_all_lengths(rt: HostRuntime) -> Result<(), Fail> {
    let mut evens: Vec<u16> = Vec::new(rt.alloc());
    for count in 0..40u16 {
        for place in 0..82usize {
            let wanted = place % 2 == 0 && place / 2 < usize::from(count);
            assert_eq!(rt; search(&evens, place), wanted.then_some(place / 2));
        }
        evens.push(2 * count)?;
    }
    Ok(())
}
