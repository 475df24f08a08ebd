//! The report of a listing.
ghost use Rattle.std.specs.Prelude.{◌≡◌, ◌↔◌, [], IfOk};
ghost use Rattle.cell_model.specs.Listed.{store_of};
ghost use Rattle.cell_model.specs.Sound.{IsBase};
ghost use Rattle.listing_check.specs.Faults.{AreFaults, AreNotes};
ghost use Rattle.listing_check.specs.Laws.{IsSoundListing};
ghost use Rattle.listing_check.specs.Reports.{read_of};

use crate::line_faults::told_among;
use crate::report::Report;
use cell_listing::Listed;
use cell_model::Listing;
use std::alloc::{AllocError, Global};

/// The faults and the notes of a listing as it was read, each with the number of its line, from 1. It fails only for want of memory.
pub fn check(alloc: Global, listed: &Listed) -> Result<Report, AllocError>
    ensures faults { IfOk result (λ report. AreFaults listed.now report.faults.items) }
    ensures notes { IfOk result (λ report. AreNotes listed.now report.notes.items) }
    ensures sound { IfOk result (λ report. (report.faults.items ≡ []) ↔ IsSoundListing listed.now) }
{
    let report = told_among(alloc, listed.widths(), listed.cells(), listed.others())?;
    Ok(report)
}

/// The faults and the notes of a listing, each with the number of its cell, from 1. It fails only for want of memory.
pub fn check_cells(alloc: Global, listing: &Listing) -> Result<Report, AllocError>
    ensures faults { IfOk result (λ report. AreFaults (read_of listing.now) report.faults.items) }
    ensures notes { IfOk result (λ report. AreNotes (read_of listing.now) report.notes.items) }
    ensures sound { IfOk result (λ report. (report.faults.items ≡ []) ↔ IsBase (store_of listing.now)) }
{
    let report = told_among(alloc, listing.widths, listing.lines.lines(), &[])?;
    Ok(report)
}
