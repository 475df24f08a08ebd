//! The counts that the request `stats` tells.
ghost use Rattle.std.specs.Prelude.{◌≡◌};
ghost use Rattle.tsd_daemon.specs.ConnReplies.{counts_with, no_counts};

/// How many requests of a connection were answered. Each count stands still at its last number.
#[derive(Clone, Copy, Debug, PartialEq, Eq)]
pub struct Counts {
    /// All requests.
    pub requests: u64,
    /// Points that were accepted.
    pub puts: u64,
    /// Puts that were refused, also where their words are no point.
    pub refused: u64,
}

/// How a request counts beside being one.
#[derive(Clone, Copy, Debug, PartialEq, Eq)]
pub enum Counted {
    /// A put that was accepted.
    Accepted,
    /// A put that was refused.
    Refused,
    /// No put.
    Other,
}

impl Counts {
    /// Before the first request.
    pub fn none() -> Counts
        ensures { result ≡ no_counts }
    {
        Counts {
            requests: 0,
            puts: 0,
            refused: 0,
        }
    }

    /// Counts one more request.
    pub fn add(&mut self, counted: Counted)
        ensures { self.new ≡ counts_with self.old counted }
    {
        self.requests = self.requests.saturating_add(1);
        match counted {
            Counted::Accepted => self.puts = self.puts.saturating_add(1),
            Counted::Refused => self.refused = self.refused.saturating_add(1),
            Counted::Other => {}
        }
    }
}
