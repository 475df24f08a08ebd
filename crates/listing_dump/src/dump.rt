//! The dump of a listing.
ghost use Rattle.std.specs.Prelude.{◌≡◌, ◌≤◌, ◌<◌, All, Err, OnErr, OnOk, length, map, [], ◌∷◌};
ghost use Rattle.std.specs.List.{slice_get};
ghost use Rattle.tsd_io.specs.Causes.{Rose};
ghost use Rattle.qual_codec.specs.CellDots.{Reads};
ghost use Rattle.qual_codec.specs.Merge.{AreDots};
ghost use Rattle.cell_model.specs.declared.row.ListLine.{ListLine};
ghost use Rattle.cell_model.specs.Listed.{store_of};
ghost use Rattle.cell_model.specs.Sound.{IsBase};
ghost use Rattle.listing_dump.specs.declared.dump.DumpFault.TheVariants as fault;
ghost use Rattle.listing_dump.specs.Dumps.{GivesDump, GivesFront};
ghost use Rattle.listing_dump.specs.Gifts.{IsCaused};
ghost use Rattle.listing_dump.specs.RowLines.{cell_of_line};
ghost use Rattle.listing_dump.specs.RowPlaces.{AreRowPlaces, IsRowPlace};
ghost use Rattle.listing_dump.specs.RowPoints.{IsTextOfRow, row_at, row_text};

use crate::best_dots::keep_best;
use crate::name_ranks::NameRanks;
use crate::point_text::{push_tail, row_at};
use crate::row_output::{give_row, give_waiting};
use crate::row_places::{RowPlace, row_end, row_places};
use cell_model::{ListLine, Listing};
use qual_codec::Dot;
use qual_codec::merge::add_dots;
use std::alloc::{AllocError, AllocFailed, Global};
use tsd_io::ports::{Failed, Sink};

/// The most lines of a listing.
const MOST_LINES: usize = 4_294_967_295;

/// Why a dump ended early.
#[derive(Clone, Copy, Debug, PartialEq, Eq)]
pub enum DumpFault {
    /// The sink failed.
    Failed,
    /// There was no memory, or the listing has 2^32 lines or more.
    OutOfMemory,
}

impl From<AllocError> for DumpFault {
    ghost from_gives = { λ _ e. e ≡ fault.OutOfMemory };

    fn from(_e: AllocError) -> DumpFault {
        DumpFault::OutOfMemory
    }
}

impl<T: Drop> From<AllocFailed<T>> for DumpFault {
    ghost from_gives = { λ _ e. e ≡ fault.OutOfMemory };

    fn from(_e: AllocFailed<T>) -> DumpFault {
        DumpFault::OutOfMemory
    }
}

impl From<Failed> for DumpFault {
    ghost from_gives = { λ _ e. e ≡ fault.Failed };

    fn from(_e: Failed) -> DumpFault {
        DumpFault::Failed
    }
}

/// The data points of cells of points, one cell behind the other. It fails only for want of memory.
fn read_cells(cells: &[ListLine], dots: &mut Vec<Dot>) -> Result<(), AllocError>
    requires read { All (λ l. Reads l.qual l.value) cells.now }
    requires none { dots.old.items ≡ [] }
    ensures { OnOk result (AreDots (map cell_of_line cells.now) dots.new.items) }
{
    for cell in cells {
        add_dots(cell.qual.list(), cell.value.list(), dots)?;
    }
    Ok(())
}

/// The data points of a row that stay, in order, and the text of its tags with LF. It fails only for want of memory.
fn load_row(
    alloc: Global,
    listing: &Listing,
    row: &RowPlace,
    dots: &mut Vec<Dot>,
    tail: &mut Vec<u8>,
) -> Result<(), AllocError>
    requires sound { IsBase (store_of listing.now) }
    requires row { IsRowPlace listing.now.widths listing.now.lines row.now }
    ensures { OnOk result (let cells = listing.now.lines in
        IsTextOfRow (store_of listing.now) (row_at cells row.now.line) (row_text (row_at cells row.now.metric) row.now.base tail.new.items dots.new.items)) }
{
    let cells = listing.lines();
    let from = row.line as usize;
    let end = row_end(cells, from);
    dots.clear();
    read_cells(&cells[from..end], dots)?;
    keep_best(alloc, dots)?;
    tail.clear();
    push_tail(tail, cells, row.tags.as_slice())
}

/// Gives the points of rows, which are all, in order.
fn give_rows<K: Sink>(
    alloc: Global,
    listing: &Listing,
    rows: &[RowPlace],
    output: &mut K,
) -> Result<(), DumpFault>
    requires sound { IsBase (store_of listing.now) }
    requires rows { AreRowPlaces listing.now.widths listing.now.lines rows.now }
    ensures ok { OnOk result (GivesDump (store_of listing.now) (K.held output.old) (K.held output.new)) }
    ensures err { OnErr result (GivesFront (store_of listing.now) (K.held output.old) (K.held output.new)) }
    ensures caused { IsCaused (K.faults output.old) (K.faults output.new) result }
{
    let cells = listing.lines();
    let mut waiting = Vec::new(alloc);
    let mut dots = Vec::new(alloc);
    let mut tail = Vec::new(alloc);
    for row in rows {
        load_row(alloc, listing, row, &mut dots, &mut tail)?;
        give_row(
            output,
            &mut waiting,
            row_at(cells, row.metric),
            row.base,
            &tail,
            &dots,
        )?;
    }
    give_waiting(output, &mut waiting)
}

/// Gives the points of a sound listing, a line of text for each, in order of metric, tags and time. Of a row's data points of one time
/// and one value the best is given; those of different values stand in the order of the row's cells, and within the column in its order.
///
/// The text isn't held whole: at most 64 KiB and a line of it wait at a time.
pub fn dump<K: Sink>(alloc: Global, listing: &Listing, output: &mut K) -> Result<(), DumpFault>
    requires sound { IsBase (store_of listing.now) }
    ensures ok { OnOk result (GivesDump (store_of listing.now) (K.held output.old) (K.held output.new)) }
    ensures err { OnErr result (GivesFront (store_of listing.now) (K.held output.old) (K.held output.new)) }
    ensures later { K.faults output.old ≤ K.faults output.new }
    ensures failed { result ≡ Err DumpFault.Failed → Rose (K.faults output.old) (K.faults output.new) }
{
    let cells = listing.lines();
    if cells.len() > MOST_LINES {
        return Err(DumpFault::OutOfMemory);
    }
    let widths = listing.widths();
    let ranks = NameRanks::of(alloc, widths, cells)?;
    let rows = row_places(alloc, widths, cells, &ranks)?;
    give_rows(alloc, listing, &rows, output)
}
