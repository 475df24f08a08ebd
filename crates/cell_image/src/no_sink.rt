//! A sink for what gives nothing.
ghost use Rattle.std.specs.Prelude.{None};

use tsd_io::ports::{Failed, Sink};

/// A sink that takes whatever is given, and keeps none of it. It never fails.
#[derive(Drop)]
pub(crate) struct NoSink;

impl Sink for NoSink {
    ghost held = { λ _. None };

    ghost faults = { λ _. 0 };

    ghost number = { λ _. 0 };

    fn give(&mut self, piece: &[u8]) -> Result<usize, Failed> {
        Ok(piece.len())
    }
}
