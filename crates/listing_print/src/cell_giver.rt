//! Cells given as lines of text, piece by piece.
ghost use Rattle.std.specs.Prelude.{◌≡◌, ◌≤◌, Err, OnOk, OnErr};
ghost use Rattle.std.specs.Io.KnownBytes.{Appends};
ghost use Rattle.tsd_io.specs.Causes.{HasCause, Rose};
ghost use Rattle.cell_listing.specs.Grammar.{cells_text};
ghost use Rattle.listing_print.specs.declared.cell_giver.GiveFault.TheVariants as fault;
ghost use Rattle.listing_print.specs.GivenTexts.{GaveFront, GaveUpTo};

use cell_listing::listing_text::push_line;
use cell_model::ListLine;
use std::alloc::{AllocError, Global};
use tsd_io::give_all::give_all;
use tsd_io::ports::{Failed, Sink};

/// How many bytes are gathered before they are given.
const PIECE: usize = 65536;

/// Why not all lines were given.
#[derive(Clone, Copy, Debug, PartialEq, Eq)]
pub enum GiveFault {
    /// The sink failed.
    Failed,
    /// There was no memory.
    OutOfMemory,
}

impl From<Failed> for GiveFault {
    ghost from_gives = { λ _ e. e ≡ fault.Failed };

    fn from(_failed: Failed) -> GiveFault {
        GiveFault::Failed
    }
}

impl From<AllocError> for GiveFault {
    ghost from_gives = { λ _ e. e ≡ fault.OutOfMemory };

    fn from(_error: AllocError) -> GiveFault {
        GiveFault::OutOfMemory
    }
}

/// Gives the lines of cells, piece by piece: no more than a piece and a line are held. Where the sink fails or memory runs out a front
/// of the lines was given.
pub fn give_cells<K: Sink>(alloc: Global, sink: &mut K, cells: &[ListLine]) -> Result<(), GiveFault>
    ensures ok { OnOk result (Appends (K.held sink.old) (K.held sink.new) (cells_text cells.now)) }
    ensures err { OnErr result (GaveFront (K.held sink.old) (K.held sink.new) (cells_text cells.now)) }
    ensures later { K.faults sink.old ≤ K.faults sink.new }
    ensures failed { result ≡ Err GiveFault.Failed → Rose (K.faults sink.old) (K.faults sink.new) }
{
    let mut text = Vec::new(alloc);
    for at in 0..cells.len() {
        push_line(&mut text, &cells[at])?;
        give_full(sink, &mut text)?;
    }
    give_text(sink, &text)?;
    Ok(())
}

/// Gives a text that fills a piece, which is then empty; a shorter one waits.
pub(crate) fn give_full<K: Sink>(sink: &mut K, text: &mut Vec<u8>) -> Result<(), Failed>
    ensures ok { OnOk result (GaveUpTo (K.held sink.old) (K.held sink.new) text.old.items text.new.items) }
    ensures err { OnErr result (GaveFront (K.held sink.old) (K.held sink.new) text.old.items) }
    ensures cause { HasCause (K.faults sink.old) (K.faults sink.new) result }
{
    if text.len() >= PIECE {
        give_text(sink, text)?;
        text.clear();
    }
    Ok(())
}

/// Gives a text, or a front of it where the sink fails.
pub fn give_text<K: Sink>(sink: &mut K, text: &[u8]) -> Result<(), Failed>
    ensures ok { OnOk result (Appends (K.held sink.old) (K.held sink.new) text.now) }
    ensures err { OnErr result (GaveFront (K.held sink.old) (K.held sink.new) text.now) }
    ensures cause { HasCause (K.faults sink.old) (K.faults sink.new) result }
{
    match give_all(sink, text) {
        Ok(()) => Ok(()),
        Err(Failed) => Err(Failed),
    }
}
