//! The faults and the notes of the lines of a listing.
ghost use Rattle.std.specs.Prelude.{◌≡◌, ◌+◌, ◌<◌, [], List, None, IfOk};
ghost use Rattle.std.specs.List.{slice_get};
ghost use Rattle.cell_model.specs.Listed.{store_of};
ghost use Rattle.cell_model.specs.Rising.{LinesRise};
ghost use Rattle.cell_model.specs.Sound.{IsBase};
ghost use Rattle.cell_listing.specs.ListedLines.{AreParts, ListingRead, counted_in, lines_of_cells, others_in};
ghost use Rattle.listing_check.specs.Faults.{AreFaults, is_next};
ghost use Rattle.listing_check.specs.Reports.{IsReport};

use crate::cell_notes::tell_cell;
use crate::report::{Flaw, Report};
use crate::row_values::RowValues;
use cell_listing::{Listed, OtherLine};
use cell_model::{ListLine, Listing};
use row_key::Widths;
use std::alloc::{AllocError, Global};

/// Whether the next other line has this number.
fn is_next(others: &[OtherLine], next: usize, number: u64) -> bool
    ensures { result ≡ is_next number (slice_get others.now next) }
{
    match others.get(next) {
        None => false,
        Some(other) => other.number == number,
    }
}

/// The faults and the notes of lines, of which these cells count and the others are these. It fails only for want of memory.
pub(crate) fn told_among(
    alloc: Global,
    widths: Widths,
    cells: &[ListLine],
    others: &[OtherLine],
) -> Result<Report, AllocError>
    requires rising { LinesRise cells.now }
    requires parts { AreParts cells.now others.now }
    ensures { IfOk result (λ report. (read : ListingRead) → widths ≡ read.widths → cells.now ≡ counted_in read.lines → others.now ≡ others_in read.lines → IsReport read report) }
{
    let mut faults = Vec::new(alloc);
    let mut notes = Vec::new(alloc);
    let mut known = None;
    let mut values = RowValues::none(alloc);
    let mut next = 0;
    for done in 0..cells.len() + others.len() {
        let number = done as u64 + 1;
        if is_next(others, next, number) {
            faults.push((number, Flaw::BadLine))?;
            next += 1;
        } else {
            tell_cell(
                alloc,
                widths,
                cells,
                done - next,
                number,
                &mut known,
                &mut values,
                &mut faults,
                &mut notes,
            )?;
        }
    }
    Ok(Report { faults, notes })
}

/// The listing of lines without a fault, which are moved.
pub fn sound_listing(listed: Listed) -> Listing
    requires { AreFaults listed [] }
    ensures lines { listed.lines ≡ lines_of_cells result.lines }
    ensures cells { result.lines ≡ counted_in listed.lines }
    ensures widths { result.widths ≡ listed.widths }
    ensures base { IsBase (store_of result) }
{
    let widths = listed.widths();
    let (lines, _) = listed.into_parts();
    Listing { widths, lines }
}
