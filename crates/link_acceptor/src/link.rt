//! A connection on its way to a worker.
ghost use Rattle.tsd_doors.specs.Links.{AreFresh};

use tsd_io::ports::{Sink, Source};

/// A connection that was accepted and waits for a worker. No byte of it was taken or given, and neither end failed.
#[derive(Drop)]
pub struct Link<I: Source + Drop, O: Sink + Drop> {
    /// The end that bytes come from.
    pub inlet: I,

    /// The end that bytes go to.
    pub outlet: O,
    ghost fresh: { AreFresh (I.number inlet) (I.number inlet) (I.faults inlet) (I.taken inlet) (O.number outlet) (O.faults outlet) (O.held outlet) },
}
