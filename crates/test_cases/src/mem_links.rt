//! Connections in memory that come to a run, and what is told of those that it gave back.
ghost use Rattle.std.specs.Prelude.{All, IfOk};
ghost use Rattle.tsd_doors.specs.MemLinks.{IsFresh};

use std::alloc::{AllocError, Global};
use test_readers::devices::tell_output;
use test_readers::text::{Bad, bytes, number};
use test_readers::told::Told;
use tsd_doors::mem_doors::{MemDoors, new_link};
use tsd_io::memory::{MemSink, MemSource};

/// How many bytes a connection takes.
const ROOM: usize = 65_536;

/// Connections that come one after the other, and the calls of the doors that fail.
#[derive(Drop)]
pub struct MemLinks {
    texts: Vec<Vec<u8>>,
    fails: Vec<u64>,
}

impl MemLinks {
    /// No connection comes, and no call fails.
    pub fn none(alloc: Global) -> MemLinks {
        MemLinks {
            texts: Vec::new(alloc),
            fails: Vec::new(alloc),
        }
    }

    /// Does a line that adds a connection or a call that fails, and answers whether it was one.
    pub fn change(&mut self, alloc: Global, verb: &str, rest: &str) -> Result<bool, Bad> {
        match verb {
            "connection" => self.texts.push(bytes(alloc, rest)?)?,
            "doors_fail" => self.fails.push(number(rest)?)?,
            _ => return Ok(false),
        }
        Ok(true)
    }

    /// Doors at which these connections come.
    pub fn doors(&self, alloc: Global) -> Result<MemDoors, AllocError> {
        let mut links = Vec::new(alloc);
        for text in &self.texts {
            add_link(alloc, &mut links, text)?;
        }
        let fails = Vec::from_slice(alloc, &self.fails)?;
        MemDoors::make(alloc, links, fails)
    }
}

/// Adds a connection with these bytes.
fn add_link(
    alloc: Global,
    links: &mut Vec<(MemSource, MemSink)>,
    text: &[u8],
) -> Result<(), AllocError>
    requires { All IsFresh links.old.items }
    ensures { IfOk result (λ _. All IsFresh links.new.items) }
{
    let link = new_link(alloc, text, ROOM)?;
    links.push(link)?;
    Ok(())
}

/// Adds what each connection that was given back holds, and how many of its bytes are left.
pub fn tell_back(out: &mut Told, doors: &MemDoors) {
    for (inlet, outlet) in doors.back() {
        out.end_line();
        out.add("given back, ");
        out.number(inlet.left().len() as u64);
        out.add(" bytes left\n");
        tell_output(out, outlet.held());
    }
}
