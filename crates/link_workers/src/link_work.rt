//! What a worker does with a connection.
ghost use Rattle.std.specs.Prelude.{◌≡◌, ◌∷◌, ◌++◌, [], List};
ghost use Rattle.tsd_doors.specs.Links.{AreFresh, Shut};

use tsd_io::ports::{Sink, Source};

/// What a worker does with the connections that it takes, one after the other.
pub trait LinkWork<I: Source, O: Sink>: Sized {
    /// How a connection ended.
    type End: Send + Drop;

    /// What is promised of the connections that were served so far, in order: of what the two ends of each tell, and its end.
    ghost served: { Self → List (Shut × Self.End) → Type 0 };

    /// Serves one connection, which is fresh, to its end. What was promised of earlier ones holds with this one behind them.
    fn serve(&mut self, inlet: &mut I, outlet: &mut O) -> Self::End
        requires fresh { AreFresh (I.number inlet.old) (I.number inlet.old) (I.faults inlet.old) (I.taken inlet.old)
            (O.number outlet.old) (O.faults outlet.old) (O.held outlet.old) }
        ensures inlet { I.number inlet.new ≡ I.number inlet.old }
        ensures outlet { O.number outlet.new ≡ O.number outlet.old }
        ensures served { (before : List (Shut × Self.End)) → served self.old before → served self.new (before ++ (
          record {
            number = I.number inlet.new;
            source_faults = I.faults inlet.new;
            sink_faults = O.faults outlet.new;
            taken = I.taken inlet.new;
            left = I.left inlet.new;
            held = O.held outlet.new;
          },
          result,
        ) ∷ []) };
}
