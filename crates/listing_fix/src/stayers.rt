//! Of cells those that stay.
ghost use Rattle.std.specs.Prelude.{◌≡◌, ◌≤◌, ◌<◌, length};
ghost use Rattle.listing_fix.specs.Steps.{KeepsIf, chosen};

use cell_model::ListLine;

/// Moves a cell to those before it that stay, if it stays, and answers how many they are then.
pub(crate) fn keep_if(cells: &mut Vec<ListLine>, kept: usize, at: usize, stays: bool) -> usize
    requires behind { kept ≤ at }
    requires within { at < length cells.old.items }
    ensures { KeepsIf cells.old.items cells.new.items kept at stays result }
{
    if stays {
        cells.swap(kept, at);
        return kept + 1;
    }
    kept
}

/// Takes away the cells whose flag is `false`.
fn drop_unflagged(cells: &mut Vec<ListLine>, flags: &[bool])
    requires { length flags.now ≡ length cells.old.items }
    ensures { cells.new.items ≡ chosen flags.now cells.old.items }
{
    let mut kept = 0;
    for at in 0..flags.len() {
        kept = keep_if(cells, kept, at, flags[at]);
    }
    cells.truncate(kept);
}

/// The cells whose flag is `true`. No memory is taken.
pub(crate) fn keep_flagged(cells: Vec<ListLine>, flags: &[bool]) -> Vec<ListLine>
    requires { length flags.now ≡ length cells.items }
    ensures { result.items ≡ chosen flags.now cells.items }
{
    let mut cells = cells;
    drop_unflagged(&mut cells, flags);
    cells
}
