//! The last lines of a fleet, and behind them the store that is to be saved.
ghost use Rattle.std.specs.Prelude.{◌≡◌, ◌+◌, ◌++◌, true, length, IfOk, OnOk, OnErr};
ghost use Rattle.std.specs.Io.KnownBytes.{Appends};
ghost use Rattle.tsd_io.specs.Causes.{HasCause};
ghost use Rattle.cell_model.specs.Sound.{IsSound};
ghost use Rattle.listing_print.specs.GivenTexts.{GaveFront};
ghost use Rattle.serve_job.specs.FleetRuns.{IsLast, is_too_large, last_lines, saved_text, size_line};

use crate::summary::{summary_lines, write_count};
use cell_image::large_line::push_large_line;
use cell_image::{StoreImage, store_image};
use cell_model::Tally;
use cell_region::Regions;
use listing_print::give_text;
use std::alloc::{AllocError, Global};
use tsd_io::ports::{Failed, Sink};

/// The last lines of a fleet, in two pieces, and whether a cell is too large for an image.
#[derive(Drop)]
pub(crate) struct LastLines {
    pub(crate) text: Vec<u8>,
    pub(crate) cells: Vec<u8>,
    pub(crate) refused: bool,
}

impl LastLines {
    /// Gives them, for which no memory is taken. Where the sink fails a front was given.
    pub(crate) fn give<K: Sink>(&self, output: &mut K) -> Result<(), Failed>
        ensures ok { OnOk result (Appends (K.held output.old) (K.held output.new) (self.now.text.items ++ self.now.cells.items)) }
        ensures err { OnErr result (GaveFront (K.held output.old) (K.held output.new) (self.now.text.items ++ self.now.cells.items)) }
        ensures cause { HasCause (K.faults output.old) (K.faults output.new) result }
    {
        give_text(output, &self.text)?;
        give_text(output, &self.cells)
    }
}

/// Makes the last lines of a fleet that left these rows, and where they are to be saved their image, or the line that tells which cell is
/// too large. All memory that they want is taken here.
pub(crate) fn last_lines(
    alloc: Global,
    links: u64,
    tally: &Tally,
    save: bool,
    rows: &Regions,
) -> Result<LastLines, AllocError>
    requires sound { IsSound rows.now.content }
    ensures { IfOk result (IsLast (last_lines links tally.now save rows.now.content) (is_too_large save rows.now.content)) }
{
    let text = summary_lines(alloc, links, tally)?;
    if save {
        return with_image(alloc, text, rows);
    }
    Ok(LastLines {
        text,
        cells: Vec::new(alloc),
        refused: false,
    })
}

/// A text, and behind it rows that are to be saved.
fn with_image(alloc: Global, text: Vec<u8>, rows: &Regions) -> Result<LastLines, AllocError>
    requires sound { IsSound rows.now.content }
    ensures { IfOk result (IsLast (text.items ++ saved_text true rows.now.content) (is_too_large true rows.now.content)) }
{
    let mut text = text;
    match store_image(alloc, rows)? {
        StoreImage::TooLarge { cell } => {
            push_large_line(&mut text, cell)?;
            Ok(LastLines {
                text,
                cells: Vec::new(alloc),
                refused: true,
            })
        }
        StoreImage::Whole { head, cells } => {
            push_size(&mut text, head.len(), cells.len())?;
            text.extend_from_slice(&head)?;
            Ok(LastLines {
                text,
                cells,
                refused: false,
            })
        }
    }
}

/// Adds the line that tells how many bytes an image of this head and these cells has. It fails only for want of memory.
#[tactic(auto, using(std::proofs::lemmas::List::append_assoc))]
fn push_size(text: &mut Vec<u8>, head: usize, cells: usize) -> Result<(), AllocError>
    ensures { OnOk result (text.new.items ≡ text.old.items ++ size_line (head + cells)) }
{
    let Some(size) = head.checked_add(cells) else {
        return Err(AllocError);
    };
    write_count(b"image ", size as u64, text)?;
    text.extend_from_slice(b"\n")
}
