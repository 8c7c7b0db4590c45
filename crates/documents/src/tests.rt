// A small map read and written, and each fault at its first and its last place.
use super::map::read_map;
use super::writing::write_map;
use maps::kinds::Fault;
use reading::kinds::{Place, Record, Refusal, Stop};
use std::test::Fail;

fn refused(fault: Fault, record: Record, index: usize, byte: usize) -> Option<Stop> {
    Some(Stop::Input(Refusal {
        fault,
        record,
        at: Place { index, byte },
    }))
}

#[test]
fn a_map_comes_back(rt: HostRuntime) -> Result<(), Fail> {
    let bytes = [1, 0, 3, 0, 2, 0, 0, 0, 1, 0, 5, 0, 1, 0, 2, 1, 0];
    let map = read_map(rt.alloc(), &bytes)?;
    assert_eq!(rt; map.len(), 3);
    assert_eq!(rt; map.roads().len(), 2);
    let mut out = Vec::new(rt.alloc());
    write_map(&mut out, &map)?;
    assert_eq!(rt; out.as_slice(), bytes.as_slice());
    Ok(())
}

#[test]
fn one_place_is_a_map(rt: HostRuntime) {
    assert_eq!(rt; read_map(rt.alloc(), &[1, 0, 1, 0, 0]).err(), None);
}

// A row of four places, of which one byte is another.
fn damaged(rt: &HostRuntime, at: usize, byte: u8) -> Option<Stop> {
    let mut bytes = [
        1, 0, 4, 0, 3, 0, 0, 0, 1, 0, 5, 0, 1, 0, 2, 0, 6, 0, 2, 0, 3, 0, 7,
    ];
    if at < bytes.len() {
        bytes[at] = byte;
    }
    read_map(rt.alloc(), &bytes).err()
}

#[test]
fn headers_are_refused(rt: HostRuntime) {
    assert_eq!(rt;
        read_map(rt.alloc(), &[]).err(),
        refused(Fault::Form, Record::Header, 0, 0)
    );
    assert_eq!(rt;
        damaged(&rt, 0, 2),
        refused(Fault::Form, Record::Header, 0, 0)
    );
    assert_eq!(rt;
        damaged(&rt, 2, 0),
        refused(Fault::Range, Record::Header, 0, 0)
    );
    assert_eq!(rt;
        damaged(&rt, 3, 17),
        refused(Fault::Range, Record::Header, 0, 0)
    );
}

#[test]
fn first_roads_are_refused(rt: HostRuntime) {
    assert_eq!(rt;
        read_map(rt.alloc(), &[1, 0, 2, 0, 1, 0, 5, 0, 1, 0]).err(),
        refused(Fault::Form, Record::Road, 0, 5)
    );
    assert_eq!(rt;
        damaged(&rt, 8, 0),
        refused(Fault::Range, Record::Road, 0, 5)
    );
    assert_eq!(rt;
        damaged(&rt, 6, 1),
        refused(Fault::Range, Record::Road, 0, 5)
    );
    let twice = [1, 0, 2, 0, 2, 0, 0, 0, 1, 0, 1, 0, 0, 0, 1, 0, 1];
    assert_eq!(rt;
        read_map(rt.alloc(), &twice).err(),
        refused(Fault::Order, Record::Road, 1, 11)
    );
    assert_eq!(rt;
        damaged(&rt, 10, 0),
        refused(Fault::Cost, Record::Road, 0, 5)
    );
}

#[test]
fn last_roads_are_refused(rt: HostRuntime) {
    assert_eq!(rt;
        damaged(&rt, 4, 4),
        refused(Fault::Form, Record::Road, 3, 23)
    );
    assert_eq!(rt;
        damaged(&rt, 20, 4),
        refused(Fault::Range, Record::Road, 2, 17)
    );
    assert_eq!(rt;
        damaged(&rt, 18, 0),
        refused(Fault::Order, Record::Road, 2, 17)
    );
    assert_eq!(rt;
        damaged(&rt, 22, 0),
        refused(Fault::Cost, Record::Road, 2, 17)
    );
}

#[test]
fn ends_are_refused(rt: HostRuntime) {
    assert_eq!(rt;
        damaged(&rt, 4, 2),
        refused(Fault::Form, Record::End, 0, 17)
    );
    assert_eq!(rt;
        damaged(&rt, 2, 5),
        refused(Fault::Apart, Record::End, 0, 23)
    );
    assert_eq!(rt;
        read_map(rt.alloc(), &[1, 0, 2, 0, 0]).err(),
        refused(Fault::Apart, Record::End, 0, 5)
    );
    assert_eq!(rt;
        read_map(rt.alloc(), &[1, 0, 2, 0, 0, 9]).err(),
        refused(Fault::Form, Record::End, 0, 5)
    );
}
