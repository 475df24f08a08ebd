//! The fifth change: cells of points with a flaw go.
ghost use Rattle.std.specs.Prelude.{IfOk, OnOk};
ghost use Rattle.cell_model.specs.Rising.{LinesRise};
ghost use Rattle.listing_check.specs.RowFlaws.{IsKnown};
ghost use Rattle.listing_check.specs.RowNotes.{IsAt};
ghost use Rattle.listing_fix.specs.Fixes.{Sifted};
ghost use Rattle.listing_fix.specs.Steps.{IsJudged, Judges};

use crate::changes::is_points;
use crate::stayers::keep_flagged;
use cell_model::ListLine;
use listing_check::cell_flaws::{RowFlaw, flaw_of};
use row_key::Widths;
use std::alloc::{AllocError, Global};

/// Whether a cell stays: it isn't one of points, or has no flaw. It fails only for want of memory.
fn stays(
    alloc: Global,
    widths: Widths,
    cells: &[ListLine],
    at: usize,
    cell: &ListLine,
    known: &mut Option<RowFlaw>,
) -> Result<bool, AllocError>
    requires rising { LinesRise cells.now }
    requires is { IsAt cells.now at cell.now }
    requires known { IsKnown widths cells.now known.old }
    ensures flag { IfOk result (IsJudged widths cells.now cell.now) }
    ensures known { OnOk result (IsKnown widths cells.now known.new) }
{
    if is_points(cell) {
        let flaw = flaw_of(alloc, widths, cells, at, cell, known)?;
        return Ok(flaw.is_none());
    }
    Ok(true)
}

/// For each cell whether it stays. It fails only for want of memory.
fn point_flags(alloc: Global, widths: Widths, cells: &[ListLine]) -> Result<Vec<bool>, AllocError>
    requires { LinesRise cells.now }
    ensures { IfOk result (λ flags. Judges widths cells.now cells.now flags.items) }
{
    let mut flags = Vec::with_capacity(alloc, cells.len())?;
    let mut known = None;
    for at in 0..cells.len() {
        let cell = &cells[at];
        let flag = stays(alloc, widths, cells, at, cell, &mut known)?;
        flags.push(flag)?;
    }
    Ok(flags)
}

/// The fifth change: the cells without those of points that have a flaw. It fails only for want of memory.
pub(crate) fn drop_points(
    alloc: Global,
    widths: Widths,
    cells: Vec<ListLine>,
) -> Result<Vec<ListLine>, AllocError>
    requires { LinesRise cells.items }
    ensures rising { IfOk result (λ left. LinesRise left.items) }
    ensures sifted { IfOk result (λ left. Sifted widths cells.items cells.items left.items) }
{
    let flags = point_flags(alloc, widths, &cells)?;
    Ok(keep_flagged(cells, &flags))
}
