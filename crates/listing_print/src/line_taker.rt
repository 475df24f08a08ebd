//! What takes the lines of cells.
ghost use Rattle.std.specs.Prelude.{◌≡◌, ℕ, ◌≤◌, List, [], ◌∷◌, Option, Err, OnOk, OnErr};
ghost use Rattle.tsd_io.specs.Causes.{Rose};
ghost use Rattle.cell_model.specs.declared.row.ListLine.{ListLine as AnyLine};
ghost use Rattle.listing_print.specs.LineTaking.{JoinsLines};

use crate::cell_giver::GiveFault;
use cell_model::ListLine;
use tsd_io::ports::Sink;

/// What takes lines one after the other, and gives to a sink what it makes of them, or keeps it.
pub trait LineTaker {
    /// It took these lines: of the sink and itself before, and after.
    ghost took: { List AnyLine → Option (List ℕ) × Self → Option (List ℕ) × Self → Type 0 };

    /// It took a front of these lines, and maybe a part of the next one.
    ghost ended: { List AnyLine → Option (List ℕ) × Self → Option (List ℕ) × Self → Type 0 };

    /// Takes a line.
    fn take_line<K: Sink>(&mut self, sink: &mut K, line: &ListLine) -> Result<(), GiveFault>
        ensures ok { OnOk result (took (line.now ∷ []) (K.held sink.old, self.old) (K.held sink.new, self.new)) }
        ensures err { OnErr result (ended (line.now ∷ []) (K.held sink.old, self.old) (K.held sink.new, self.new)) }
        ensures later { K.faults sink.old ≤ K.faults sink.new }
        ensures failed { result ≡ Err GiveFault.Failed → Rose (K.faults sink.old) (K.faults sink.new) };

    /// Lines that it takes one after the other are taken in one.
    ghost joins: { JoinsLines took ended };
}
