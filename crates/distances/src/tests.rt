// Rows of small maps and of the largest, and what is refused.
use super::joined::hangs_together;
use super::rows::{all_rows, all_rows_in_order, row};
use maps::buf::RoadMapBuf;
use maps::kinds::{Fault, Road};
use std::alloc::{AllocError, Global};
use std::process::Abort;
use std::test::Fail;

const NOWHERE: u16 = u16::MAX;

fn road(from: u16, to: u16, cost: u16) -> Road {
    Road { from, to, cost }
}

fn lay(heap: Global, n: u16, roads: &[Road]) -> Result<RoadMapBuf, Fault> {
    RoadMapBuf::new(heap, n, roads.to_vec(heap)?)
}

// The row of place `d` in a map of four places.
fn check_row(rt: &impl Abort, map: &RoadMapBuf, d: usize, far: [u32; 4], hop: [u16; 4]) {
    let mut dist = [7u32; 4];
    let mut next = [7u16; 4];
    assert!(rt; row(&map.map(), d, &mut dist, &mut next).is_ok());
    assert_eq!(rt; dist, far);
    assert_eq!(rt; next, hop);
}

#[test]
fn a_row_of_places(rt: HostRuntime) -> Result<(), Fail> {
    let map = lay(
        rt.alloc(),
        4,
        &[road(0, 1, 2), road(1, 2, 3), road(2, 3, 4)],
    )?;
    check_row(&rt, &map, 0, [0, 2, 5, 9], [NOWHERE, 0, 1, 2]);
    check_row(&rt, &map, 3, [9, 7, 4, 0], [1, 2, 3, NOWHERE]);
    Ok(())
}

#[test]
fn a_ring_has_ties(rt: HostRuntime) -> Result<(), Fail> {
    let map = lay(
        rt.alloc(),
        4,
        &[road(0, 1, 1), road(0, 3, 1), road(1, 2, 1), road(2, 3, 1)],
    )?;
    check_row(&rt, &map, 0, [0, 1, 2, 1], [NOWHERE, 0, 1, 0]);
    check_row(&rt, &map, 2, [2, 1, 0, 1], [1, 2, NOWHERE, 2]);
    Ok(())
}

#[test]
fn a_star_goes_by_its_middle(rt: HostRuntime) -> Result<(), Fail> {
    let map = lay(
        rt.alloc(),
        4,
        &[road(0, 1, 5), road(0, 2, 6), road(0, 3, 65535)],
    )?;
    check_row(&rt, &map, 3, [65535, 65540, 65541, 0], [3, 0, 0, NOWHERE]);
    assert!(rt; hangs_together(&map.map()));
    Ok(())
}

#[test]
fn one_place_and_two(rt: HostRuntime) -> Result<(), Fail> {
    let one = lay(rt.alloc(), 1, &[])?;
    let mut dist = [7u32; 1];
    let mut next = [7u16; 1];
    assert!(rt; all_rows(&one.map(), &mut dist, &mut next).is_ok());
    assert_eq!(rt; dist, [0]);
    assert_eq!(rt; next, [NOWHERE]);
    let two = lay(rt.alloc(), 2, &[road(0, 1, 9)])?;
    let mut far = [7u32; 4];
    let mut hop = [7u16; 4];
    assert!(rt; all_rows(&two.map(), &mut far, &mut hop).is_ok());
    assert_eq!(rt; far, [0, 9, 9, 0]);
    assert_eq!(rt; hop, [NOWHERE, 0, 1, NOWHERE]);
    Ok(())
}

#[test]
fn orders_of_one_place_and_two(rt: HostRuntime) -> Result<(), Fail> {
    let one = lay(rt.alloc(), 1, &[])?;
    let mut dist = [7u32; 1];
    let mut next = [7u16; 1];
    let mut order = [7u16; 1];
    assert!(rt; all_rows_in_order(&one.map(), &mut dist, &mut next, &mut order).is_ok());
    assert_eq!(rt; dist, [0]);
    assert_eq!(rt; next, [NOWHERE]);
    assert_eq!(rt; order, [0]);
    let two = lay(rt.alloc(), 2, &[road(0, 1, 9)])?;
    let mut far = [7u32; 4];
    let mut hop = [7u16; 4];
    let mut places = [7u16; 4];
    assert!(rt; all_rows_in_order(&two.map(), &mut far, &mut hop, &mut places).is_ok());
    assert_eq!(rt; far, [0, 9, 9, 0]);
    assert_eq!(rt; hop, [NOWHERE, 0, 1, NOWHERE]);
    assert_eq!(rt; places, [0, 1, 1, 0]);
    Ok(())
}

#[test]
fn a_map_apart(rt: HostRuntime) -> Result<(), Fail> {
    let apart = lay(rt.alloc(), 4, &[road(0, 1, 1), road(2, 3, 1)])?;
    assert!(rt; !hangs_together(&apart.map()));
    check_row(
        &rt,
        &apart,
        0,
        [0, 1, u32::MAX, u32::MAX],
        [NOWHERE, 0, NOWHERE, NOWHERE],
    );
    Ok(())
}

#[test]
fn what_is_refused_stays(rt: HostRuntime) -> Result<(), Fail> {
    let map = lay(
        rt.alloc(),
        4,
        &[road(0, 1, 1), road(1, 2, 1), road(2, 3, 1)],
    )?;
    let mut dist = [7u32; 4];
    let mut next = [7u16; 4];
    let beyond = row(&map.map(), 4, &mut dist, &mut next);
    assert_eq!(rt; beyond.err(), Some(Fault::Range));
    assert_eq!(rt; dist, [7, 7, 7, 7]);
    assert_eq!(rt; next, [7, 7, 7, 7]);
    Ok(())
}

#[test]
fn other_sizes_are_refused(rt: HostRuntime) -> Result<(), Fail> {
    let map = lay(rt.alloc(), 2, &[road(0, 1, 1)])?;
    let mut dist = [7u32; 2];
    let mut next = [7u16; 3];
    assert_eq!(rt;
        row(&map.map(), 0, &mut dist, &mut next).err(),
        Some(Fault::Range)
    );
    let mut far = [7u32; 4];
    let mut hop = [7u16; 3];
    assert_eq!(rt;
        all_rows(&map.map(), &mut far, &mut hop).err(),
        Some(Fault::Range)
    );
    assert_eq!(rt; far, [7, 7, 7, 7]);
    Ok(())
}

#[test]
fn orders_of_other_sizes_are_refused(rt: HostRuntime) -> Result<(), Fail> {
    let map = lay(rt.alloc(), 2, &[road(0, 1, 1)])?;
    let mut far = [7u32; 4];
    let mut hop = [7u16; 3];
    let mut order = [7u16; 4];
    assert_eq!(rt;
        all_rows_in_order(&map.map(), &mut far, &mut hop, &mut order).err(),
        Some(Fault::Range)
    );
    assert_eq!(rt; far, [7, 7, 7, 7]);
    assert_eq!(rt; order, [7, 7, 7, 7]);
    Ok(())
}

// Roads from each place to the eight after it, and from the first 36 to the ninth: 4,096 in all.
fn many_roads(heap: Global) -> Result<Vec<Road>, AllocError> {
    let mut roads = Vec::new(heap);
    for a in 0..512u16 {
        for k in 1..10u16 {
            if a + k < 512 && (k < 9 || a < 36) {
                roads.push(road(a, a + k, 65535))?;
            }
        }
    }
    Ok(roads)
}

#[test]
fn the_largest_map(rt: HostRuntime) -> Result<(), Fail> {
    let roads = many_roads(rt.alloc())?;
    assert_eq!(rt; roads.len(), 4096);
    let map = RoadMapBuf::new(rt.alloc(), 512, roads)?;
    let mut dist = [0u32; 512];
    let mut next = [0u16; 512];
    assert!(rt; row(&map.map(), 0, &mut dist, &mut next).is_ok());
    assert_eq!(rt; dist[511], 64 * 65535);
    assert_eq!(rt; next[9], 0);
    Ok(())
}
