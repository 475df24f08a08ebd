//! Where connections come from, and what ends the wait for them.
ghost use Rattle.std.specs.Prelude.{◌≡◌, ◌≢◌, ◌<◌, ℕ, List, Option, IfOk, IfSome, OnErr, MatchOption};
ghost use Rattle.tsd_io.specs.Causes.{HasCause};
ghost use Rattle.tsd_doors.specs.Links.{Counts, Shut, accepted, AreFresh, GivesFirst, HasNoneLeft, Ends, counts_after_accept, with_port, one_returned};

use tsd_io::ports::{Failed, Sink, Source};

/// Makes a waiting `accept` answer none from then on.
pub trait Bell {
    /// Rings. Nothing is claimed of it.
    fn ring(&mut self);
}

/// Where connections come from.
///
/// A connection is accepted, served at its two ends, shut and given back. Its ends have its number: that of the connections
/// accepted before it.
pub trait Doors: Send {
    /// The end of a connection that bytes come from.
    type Inlet: Source + Send + Drop;

    /// The end of a connection that bytes go to.
    type Outlet: Sink + Send + Drop;

    /// What ends a wait at these doors.
    type Bell: Bell + Send + Drop;

    /// What is kept of a connection that was shut.
    type Kept: Send + Drop;

    /// How many connections were given back and how many were accepted besides, and the port, which is none at first.
    ghost counts: { Self → Counts };

    /// How often they failed. It never falls, and stands still at the last `u64`.
    ghost faults: { Self → ℕ };

    /// The bytes of each connection left, where they tell them.
    ghost waiting: { Self → Option (List (List ℕ)) };

    /// The connections given back, where they tell them.
    ghost back: { Self → Option (List Shut) };

    /// What is known of a connection that was shut.
    ghost shown: { Self.Kept → Shut };

    /// Binds the port, or for 0 one that the system picks, and answers it.
    ///
    /// After `Failed` what is told is as before, and the next call may go on.
    fn bind(&mut self, port: u16) -> Result<u16, Failed>
        ensures asked { IfOk result (λ bound. port ≢ 0 → bound ≡ port) }
        ensures ok { IfOk result (λ bound. counts self.new ≡ with_port bound (counts self.old)) }
        ensures err { OnErr result (counts self.new ≡ counts self.old) }
        ensures waiting { waiting self.new ≡ waiting self.old }
        ensures back { back self.new ≡ back self.old }
        ensures cause { HasCause (faults self.old) (faults self.new) result };

    /// What ends a wait at these doors. Bells are taken after `bind`.
    fn bell(&self) -> Self::Bell;

    /// Waits for the next connection, and answers its two ends, which are fresh. None says that no more come.
    ///
    /// After `Failed` what is told is as before, and the next call may go on.
    fn accept(&mut self) -> Result<Option<(Self::Inlet, Self::Outlet)>, Failed>
        ensures ends { IfOk result (λ got. IfSome got (λ link. AreFresh (accepted (counts self.old))
            (Self.Inlet.number link.0) (Self.Inlet.faults link.0) (Self.Inlet.taken link.0)
            (Self.Outlet.number link.1) (Self.Outlet.faults link.1) (Self.Outlet.held link.1))) }
        ensures counts { counts self.new ≡ counts_after_accept result (counts self.old) }
        ensures waiting { IfOk result (λ got. MatchOption got
            (HasNoneLeft (waiting self.old) (waiting self.new))
            (λ link. GivesFirst (waiting self.old) (waiting self.new) (Self.Inlet.left link.0))) }
        ensures kept { OnErr result (waiting self.new ≡ waiting self.old) }
        ensures back { back self.new ≡ back self.old }
        ensures cause { HasCause (faults self.old) (faults self.new) result };

    /// Ends a connection.
    fn shut(inlet: Self::Inlet, outlet: Self::Outlet) -> Self::Kept
        requires one { Self.Inlet.number inlet ≡ Self.Outlet.number outlet }
        ensures { shown result ≡ record {
          number = Self.Inlet.number inlet;
          source_faults = Self.Inlet.faults inlet;
          sink_faults = Self.Outlet.faults outlet;
          taken = Self.Inlet.taken inlet;
          left = Self.Inlet.left inlet;
          held = Self.Outlet.held outlet;
        } };

    /// Adds a connection that was shut to those given back.
    fn give_back(&mut self, kept: Self::Kept)
        requires fewer { 0 < (counts self.old).out }
        ensures counts { counts self.new ≡ one_returned (counts self.old) }
        ensures waiting { waiting self.new ≡ waiting self.old }
        ensures back { Ends (back self.old) (back self.new) (shown kept) }
        ensures faults { faults self.new ≡ faults self.old };
}
