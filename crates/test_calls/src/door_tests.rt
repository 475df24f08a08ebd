//! Doors in memory.

use std::alloc::AllocError;
use tsd_doors::doors::Doors;
use tsd_doors::mem_doors::{MemDoors, new_link};
use tsd_io::give_all::give_all;
use tsd_io::ports::{Failed, Sink, Source};

#[test]
fn memory_doors_give_each_connection_once(rt: HostRuntime) -> Result<(), AllocError> {
    let mut links = Vec::new(rt.alloc());
    links.push(new_link(rt.alloc(), b"one", 4)?)?;
    let mut failing = Vec::new(rt.alloc());
    failing.push(2)?;
    let mut doors = MemDoors::make(rt.alloc(), links, failing)?;
    assert!(rt; doors.bind(4242) == Ok(4242));
    assert!(rt; doors.accept().is_err());
    let Ok(Some((mut inlet, mut outlet))) = doors.accept() else {
        panic!(rt; "no connection");
    };
    let mut into = [0; 8];
    assert!(rt; inlet.take(&mut into) == Ok(3));
    assert!(rt; give_all(&mut outlet, b"fine, but too long") == Err(Failed));
    doors.give_back(MemDoors::shut(inlet, outlet));
    assert!(rt; matches!(doors.accept(), Ok(None)));
    for (inlet, outlet) in doors.back() {
        assert!(rt; inlet.left().is_empty());
        assert!(rt; outlet.held() == b"fine".as_slice());
    }
    assert!(rt; doors.back().len() == 1);
    Ok(())
}
