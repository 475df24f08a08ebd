//! Connections in memory that two workers and the caller serve.
ghost use Rattle.std.specs.Prelude.{◌≡◌, ◌≤◌, ⊤, All, length, IfOk};
ghost use Rattle.std.specs.List.{sum_by};
ghost use Rattle.tsd_doors.specs.MemLinks.{IsFresh};

use link_acceptor::accept_loop::AcceptEnd;
use link_workers::link_ends::{LinkEnds, give_back};
use link_workers::link_service::serve_links;
use link_workers::link_work::LinkWork;
use std::alloc::{AllocError, Global};
use tsd_doors::doors::Doors;
use tsd_doors::mem_doors::{MemDoors, new_link};
use tsd_doors::mem_ends::{MemInlet, MemOutlet};
use tsd_io::halt::MemHalt;
use tsd_io::memory::{MemSink, MemSource};
use tsd_io::ports::{Sink, Source};

/// Takes once, and tells how many bytes came.
#[derive(Drop)]
struct TakeOnce;

impl<I: Source, O: Sink> LinkWork<I, O> for TakeOnce {
    type End = usize;

    ghost served = { λ work served. ⊤ };

    fn serve(&mut self, inlet: &mut I, _outlet: &mut O) -> usize {
        let mut into = [0; 8];
        inlet.take(&mut into).unwrap_or(0)
    }
}

/// Adds a connection whose bytes are these.
fn add_link(
    alloc: Global,
    links: &mut Vec<(MemSource, MemSink)>,
    bytes: &[u8],
) -> Result<(), AllocError>
    requires { All IsFresh links.old.items }
    ensures { IfOk result (λ _. All IsFresh links.new.items) }
{
    let link = new_link(alloc, bytes, 4)?;
    links.push(link)?;
    Ok(())
}

/// Doors with three connections.
fn three_links(alloc: Global) -> Result<MemDoors, AllocError> {
    let mut links = Vec::new(alloc);
    add_link(alloc, &mut links, b"a")?;
    add_link(alloc, &mut links, b"two")?;
    add_link(alloc, &mut links, b"fives")?;
    MemDoors::make(alloc, links, Vec::new(alloc))
}

/// Gives back what these have served, in order.
fn give_all_back(
    doors: &mut MemDoors,
    workers: Vec<LinkEnds<TakeOnce, (MemInlet, MemOutlet), usize>>,
    ends: &mut Vec<usize>,
) -> Result<(), AllocError>
    requires few { sum_by (λ worker. length worker.ends.items) workers.items ≤ doors.old.out }
{
    for worker in workers {
        give_back(doors, worker.ends, ends)?;
    }
    Ok(())
}

#[test]
fn each_connection_is_served_once(rt: HostRuntime) -> Result<(), AllocError> {
    let mut doors = three_links(rt.alloc())?;
    let mut halt = MemHalt::make(Vec::new(rt.alloc()));
    let mut workers = Vec::new(rt.alloc());
    workers.push(LinkEnds::make(rt.alloc(), TakeOnce))?;
    workers.push(LinkEnds::make(rt.alloc(), TakeOnce))?;
    let mut own = LinkEnds::make(rt.alloc(), TakeOnce);
    let accepted = serve_links(
        &rt,
        rt.alloc(),
        2,
        &mut doors,
        &mut halt,
        &mut workers,
        &mut own,
    );
    assert!(rt; accepted.end == AcceptEnd::NoneLeft);
    assert!(rt; accepted.links == 3);
    workers.push(own)?;
    let mut ends = Vec::new(rt.alloc());
    give_all_back(&mut doors, workers, &mut ends)?;
    assert!(rt; doors.back().len() == 3);
    ends.sort()?;
    assert!(rt; ends.as_slice() == [1, 3, 5].as_slice());
    Ok(())
}
