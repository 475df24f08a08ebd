//! An image given to a sink, piece by piece.
ghost use Rattle.std.specs.Prelude.{◌≡◌, ◌≤◌, None, Err, OnOk, OnErr};
ghost use Rattle.std.specs.Io.KnownBytes.{Appends};
ghost use Rattle.tsd_io.specs.Causes.{HasCause, Rose};
ghost use Rattle.listing_print.specs.GivenTexts.{GaveFront, GaveUpTo};
ghost use Rattle.cell_image.specs.Images.{first_large, image};
ghost use Rattle.cell_image.specs.ImageGifts.{GivesImage, told_of};

use crate::image_writer::{first_large, push_cell, push_head_of};
use cell_model::Listing;
use listing_print::{GiveFault, give_text};
use std::alloc::Global;
use tsd_io::ports::{Failed, Sink};

/// How many bytes are gathered before they are given.
const PIECE: usize = 65536;

/// Why an image wasn't given whole.
#[derive(Clone, Copy, Debug, PartialEq, Eq)]
pub enum GiveImageFault {
    /// A part of the cell with this number, from 1, is too long for its length. Nothing was given.
    TooLarge { cell: u64 },
    /// The sink failed.
    Failed,
    /// There was no memory.
    OutOfMemory,
}

/// Gives the image of a listing, piece by piece: no more than a piece and a cell are held. It is refused where a part of a cell is too
/// long. Where the sink fails or memory runs out a front of the image was given.
pub fn give_image<K: Sink>(
    alloc: Global,
    sink: &mut K,
    listing: &Listing,
) -> Result<(), GiveImageFault>
    ensures gives { GivesImage listing.now (K.held sink.old) (K.held sink.new) result }
    ensures later { K.faults sink.old ≤ K.faults sink.new }
    ensures failed { result ≡ Err GiveImageFault.Failed → Rose (K.faults sink.old) (K.faults sink.new) }
{
    if let Some(cell) = first_large(listing.lines()) {
        return Err(GiveImageFault::TooLarge { cell });
    }
    match give_fitting(alloc, sink, listing) {
        Ok(()) => Ok(()),
        Err(fault) => Err(told_of(fault)),
    }
}

/// The fault of giving as one of an image.
fn told_of(fault: GiveFault) -> GiveImageFault
    ensures { result ≡ told_of fault }
{
    match fault {
        GiveFault::Failed => GiveImageFault::Failed,
        GiveFault::OutOfMemory => GiveImageFault::OutOfMemory,
    }
}

/// Gives the image of a listing of which each cell fits, piece by piece, as `give_image` does.
fn give_fitting<K: Sink>(alloc: Global, sink: &mut K, listing: &Listing) -> Result<(), GiveFault>
    requires { first_large listing.now.lines ≡ None }
    ensures ok { OnOk result (Appends (K.held sink.old) (K.held sink.new) (image listing.now)) }
    ensures err { OnErr result (GaveFront (K.held sink.old) (K.held sink.new) (image listing.now)) }
    ensures later { K.faults sink.old ≤ K.faults sink.new }
    ensures failed { result ≡ Err GiveFault.Failed → Rose (K.faults sink.old) (K.faults sink.new) }
{
    let cells = listing.lines();
    let mut bytes = Vec::new(alloc);
    push_head_of(&mut bytes, listing)?;
    for at in 0..cells.len() {
        push_cell(&mut bytes, &cells[at])?;
        give_full(sink, &mut bytes)?;
    }
    give_text(sink, &bytes)?;
    Ok(())
}

/// Gives bytes that fill a piece, which are none then; fewer wait.
fn give_full<K: Sink>(sink: &mut K, bytes: &mut Vec<u8>) -> Result<(), Failed>
    ensures ok { OnOk result (GaveUpTo (K.held sink.old) (K.held sink.new) bytes.old.items bytes.new.items) }
    ensures err { OnErr result (GaveFront (K.held sink.old) (K.held sink.new) bytes.old.items) }
    ensures cause { HasCause (K.faults sink.old) (K.faults sink.new) result }
{
    if bytes.len() >= PIECE {
        give_text(sink, bytes)?;
        bytes.clear();
    }
    Ok(())
}
