//! Mending a listing: five changes, one after the other.
ghost use Rattle.std.specs.Prelude.{◌≡◌, [], IfOk};
ghost use Rattle.cell_model.specs.Counts.{lines_of};
ghost use Rattle.cell_model.specs.Listed.{store_of};
ghost use Rattle.cell_model.specs.Rising.{LinesRise};
ghost use Rattle.cell_model.specs.Sound.{IsBase};
ghost use Rattle.cell_listing.specs.ListedLines.{lines_of_cells};
ghost use Rattle.listing_check.specs.Faults.{AreFaults};
ghost use Rattle.listing_fix.specs.Fixes.{Fixes, ids_mended};

use crate::changes::drop_unread;
use crate::counters::set_counters;
use crate::given_names::give_names;
use crate::listed_cells::listed_cells;
use crate::sound_points::drop_points;
use cell_listing::Listed;
use cell_model::{LineList, ListLine, Listing};
use listing_check::laws::{flawless_is_base, no_fault_is_sound};
use std::alloc::{AllocError, Global};

/// The cells behind the first four changes. It fails only for want of memory.
fn mend_ids(alloc: Global, listed: Listed) -> Result<Vec<ListLine>, AllocError>
    ensures rising { IfOk result (λ cells. LinesRise cells.items) }
    ensures told { IfOk result (λ cells. cells.items ≡ lines_of (ids_mended listed)) }
{
    let widths = listed.widths();
    let mut cells = listed_cells(alloc, listed)?;
    drop_unread(&mut cells, widths);
    let named = give_names(alloc, widths, cells)?;
    set_counters(alloc, widths, named)
}

/// What mending makes of a listing's lines, which are moved. It is sound, and a sound listing comes back as it is. It fails only for
/// want of memory.
///
/// Where nothing is wrong no memory is taken but for a flag a cell. Cells are sorted only where some don't count, or where an id gets a
/// name.
pub fn fix(alloc: Global, listed: Listed) -> Result<Listing, AllocError>
    ensures fixes { IfOk result (λ made. Fixes listed made.lines) }
    ensures widths { IfOk result (λ made. made.widths ≡ listed.widths) }
    ensures sound { IfOk result (λ made. IsBase (store_of made)) }
    ensures stays { IfOk result (λ made. AreFaults listed [] → listed.lines ≡ lines_of_cells made.lines) }
{
    flawless_is_base();
    no_fault_is_sound();
    let widths = listed.widths();
    let cells = mend_ids(alloc, listed)?;
    let left = drop_points(alloc, widths, cells)?;
    Ok(Listing {
        widths,
        lines: LineList::of(left),
    })
}
