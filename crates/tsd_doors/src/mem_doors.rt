//! Doors in memory, whose connections and failures are chosen beforehand.
ghost use Rattle.std.specs.Prelude.{◌≡◌, ◌≢◌, ◌≤◌, ◌+◌, ◌++◌, ◌∷◌, ◌↔◌, ◌<◌, [], All, Some, None, IsErr, IfOk, IfSome, OnErr, MatchOption, Contains};
ghost use Rattle.std.specs.Vec.Iter.{into_iter_items};
ghost use Rattle.tsd_io.specs.Causes.{HasCause};
ghost use Rattle.tsd_io.specs.Memory.{one_more, faults_after};
ghost use Rattle.tsd_doors.specs.MemLinks.{DoorsInMemory, IsFresh, GivesLink, fresh_link, shut_link, doors_counts, doors_waiting, doors_back};
ghost use Rattle.tsd_doors.specs.Links.{accepted, AreFresh, GivesFirst, HasNoneLeft, Ends, counts_after_accept, with_port, one_returned};

use crate::doors::{Bell, Doors};
use crate::mem_ends::{MemInlet, MemOutlet};
use std::alloc::{AllocError, Global};
use std::marker::Model;
use std::vec::IntoIter;
use tsd_io::memory::{MemSink, MemSource};
use tsd_io::ports::Failed;

/// A bell that nobody hears.
#[derive(Drop)]
pub struct MemBell;

impl Bell for MemBell {
    fn ring(&mut self) {}
}

/// A connection with these bytes, which takes so many and whose calls don't fail. Nobody has used it.
///
/// It fails only for want of memory.
pub fn new_link(
    alloc: Global,
    bytes: &[u8],
    room: usize,
) -> Result<(MemSource, MemSink), AllocError>
    ensures link { IfOk result (λ link. link ≡ fresh_link bytes.now room) }
    ensures fresh { IfOk result IsFresh }
{
    let source = MemSource::make(bytes.to_vec(alloc)?, Vec::new(alloc), Vec::new(alloc));
    let sink = MemSink::make(alloc, room, Vec::new(alloc))?;
    Ok((source, sink))
}

/// Doors in memory.
///
/// The calls of `bind` and `accept` whose numbers are on the list fail. A `bind` answers the port that was asked for.
#[derive(Drop)]
pub struct MemDoors {
    links: IntoIter<(MemSource, MemSink)>,
    back: Vec<(MemInlet, MemOutlet)>,
    failing: Vec<u64>,
    calls: u64,
    out: usize,
    port: Option<u16>,
    faults: u64,
}

impl Model for MemDoors {
    ghost use Rattle.std.specs.Prelude.{◌≤◌, ◌+◌, All, length, vec_capacity};
    ghost use Rattle.std.specs.Vec.Iter.{into_iter_items};
    ghost use Rattle.tsd_doors.specs.MemLinks.{DoorsInMemory, IsFresh};

    ghost Value = { DoorsInMemory };

    ghost view = { λ s. record {
      links = into_iter_items s.links;
      back = s.back.items;
      failing = s.failing.items;
      calls = s.calls;
      out = s.out;
      port = s.port;
      faults = s.faults;
    } };

    ghost invariant = { λ s. All IsFresh (into_iter_items s.links)
        × (length s.back.items + s.out + length (into_iter_items s.links) ≤ vec_capacity s.back) };
}

impl MemDoors {
    /// Doors with these connections, which are fresh.
    pub fn make(
        alloc: Global,
        links: Vec<(MemSource, MemSink)>,
        failing: Vec<u64>,
    ) -> Result<MemDoors, AllocError>
        requires fresh { All IsFresh links.items }
        ensures { IfOk result (λ doors. doors ≡ record {
          links = links.items;
          back = [];
          failing = failing.items;
          calls = 0;
          out = 0;
          port = None;
          faults = 0;
        }) }
    {
        Ok(MemDoors {
            back: Vec::with_capacity(alloc, links.len())?,
            links: links.into_iter(),
            failing,
            calls: 0,
            out: 0,
            port: None,
            faults: 0,
        })
    }

    /// The connections that were given back.
    pub fn back(&self) -> &[(MemInlet, MemOutlet)]
        ensures { result.now ≡ self.now.back }
    {
        self.back.as_slice()
    }

    /// Counts a call, and says whether it fails.
    fn call(&mut self) -> Result<(), Failed>
        ensures calls { self.new.calls ≡ one_more self.old.calls }
        ensures fails { IsErr result ↔ Contains self.old.failing self.new.calls }
        ensures faults { self.new.faults ≡ faults_after self.old.faults result }
        ensures cause { HasCause self.old.faults self.new.faults result }
        ensures links { self.new.links ≡ self.old.links }
        ensures back { self.new.back ≡ self.old.back }
        ensures failing { self.new.failing ≡ self.old.failing }
        ensures out { self.new.out ≡ self.old.out }
        ensures port { self.new.port ≡ self.old.port }
    {
        self.calls = self.calls.saturating_add(1);
        if self.failing.contains(&self.calls) {
            self.faults = self.faults.saturating_add(1);
            return Err(Failed);
        }
        Ok(())
    }
}

impl Doors for MemDoors {
    type Inlet = MemInlet;

    type Outlet = MemOutlet;

    type Bell = MemBell;

    type Kept = (MemInlet, MemOutlet);

    ghost counts = { doors_counts };

    ghost faults = { λ d. d.faults };

    ghost waiting = { doors_waiting };

    ghost back = { doors_back };

    ghost shown = { shut_link };

    fn bind(&mut self, port: u16) -> Result<u16, Failed>
        // As of each doors.
        ensures asked { IfOk result (λ bound. port ≢ 0 → bound ≡ port) }
        ensures ok { IfOk result (λ bound. doors_counts self.new ≡ with_port bound (doors_counts self.old)) }
        ensures err { OnErr result (doors_counts self.new ≡ doors_counts self.old) }
        ensures waiting { doors_waiting self.new ≡ doors_waiting self.old }
        ensures back { doors_back self.new ≡ doors_back self.old }
        ensures cause { HasCause self.old.faults self.new.faults result }

        // The port that was asked for, 0 too; the calls on the list fail, and no others.
        ensures same { IfOk result (λ bound. bound ≡ port) }
        ensures fails { IsErr result ↔ Contains self.old.failing self.new.calls }
        ensures calls { self.new.calls ≡ one_more self.old.calls }
        ensures failing { self.new.failing ≡ self.old.failing }
    {
        if let Err(fault) = self.call() {
            return Err(fault);
        }
        self.port = Some(port);
        Ok(port)
    }

    fn bell(&self) -> MemBell {
        MemBell
    }

    fn accept(&mut self) -> Result<Option<(MemInlet, MemOutlet)>, Failed>
        // As of each doors.
        ensures ends { IfOk result (λ got. IfSome got (λ link. AreFresh (accepted (doors_counts self.old))
            link.0.number link.0.faults (Some link.0.taken) link.1.number link.1.faults (Some link.1.held))) }
        ensures counts { doors_counts self.new ≡ counts_after_accept result (doors_counts self.old) }
        ensures waiting { IfOk result (λ got. MatchOption got
            (HasNoneLeft (doors_waiting self.old) (doors_waiting self.new))
            (λ link. GivesFirst (doors_waiting self.old) (doors_waiting self.new) (Some link.0.left))) }
        ensures kept { OnErr result (doors_waiting self.new ≡ doors_waiting self.old) }
        ensures back { doors_back self.new ≡ doors_back self.old }
        ensures cause { HasCause self.old.faults self.new.faults result }

        // The first link left is given, with its number; the calls on the list fail, and no others.
        ensures first { IfOk result (λ got. IfSome got
            (GivesLink self.old.links (accepted (doors_counts self.old)) self.new.links)) }
        ensures fails { IsErr result ↔ Contains self.old.failing self.new.calls }
        ensures calls { self.new.calls ≡ one_more self.old.calls }
        ensures failing { self.new.failing ≡ self.old.failing }
    {
        if let Err(fault) = self.call() {
            return Err(fault);
        }
        match self.links.next() {
            Some((source, sink)) => {
                let number = (self.back.len() + self.out) as u64;
                self.out += 1;
                Ok(Some((
                    MemInlet::make(source, number),
                    MemOutlet::make(sink, number),
                )))
            }
            None => Ok(None),
        }
    }

    fn shut(inlet: MemInlet, outlet: MemOutlet) -> (MemInlet, MemOutlet)
        ensures both { result ≡ (inlet, outlet) }
    {
        (inlet, outlet)
    }

    fn give_back(&mut self, kept: (MemInlet, MemOutlet))
        requires fewer { 0 < self.old.out }
        // As of each doors.
        ensures counts { doors_counts self.new ≡ one_returned (doors_counts self.old) }
        ensures waiting { doors_waiting self.new ≡ doors_waiting self.old }
        ensures back { Ends (doors_back self.old) (doors_back self.new) (shut_link kept) }
        ensures faults { self.new.faults ≡ self.old.faults }

        // It is no call that may fail.
        ensures pair { self.new.back ≡ self.old.back ++ kept ∷ [] }
        ensures failing { self.new.failing ≡ self.old.failing }
        ensures calls { self.new.calls ≡ self.old.calls }
    {
        self.out -= 1;
        self.back.push_reserved(kept);
    }
}
