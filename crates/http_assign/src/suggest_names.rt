//! The first names that begin with a prefix.
ghost use Rattle.std.specs.Prelude.{◌≤◌, IfOk, OnErr};
ghost use Rattle.cell_model.specs.Deeds.{Since};
ghost use Rattle.cell_model.specs.Seen.{InEach};
ghost use Rattle.cell_model.specs.Stops.{CountsStops, is_stop};
ghost use Rattle.http_assign.specs.SuggestNames.{SuggestAsked, SuggestBegun};

use cell_model::answers::RowsFault;
use cell_model::rows::Rows;
use std::alloc::Global;
use tsd_base::kinds::Kind;
use tsd_base::names::Name;
use uid_table::Uids;

/// The first names of a kind that begin with a prefix, in byte order, at most `max` of them, as [`Uids::suggest`] finds them.
pub fn suggest_names<R: Rows + Drop>(
    alloc: Global,
    names: &mut Uids<R>,
    kind: Kind,
    prefix: &[u8],
    max: u32,
) -> Result<Vec<Name>, RowsFault>
    requires least { 1 ≤ max }
    requires most { max ≤ 10000 }
    ensures since { Since (R.seen names.old.rows) (R.seen names.new.rows) }
    ensures ok { IfOk result (λ found. InEach (R.seen names.new.rows) (λ h. SuggestAsked h (R.seen names.old.rows).caller (R.seen names.old.rows).length kind prefix.now max found.items (R.seen names.new.rows).length)) }
    ensures err { OnErr result (InEach (R.seen names.new.rows) (λ h. SuggestBegun h (R.seen names.old.rows).caller (R.seen names.old.rows).length (R.seen names.new.rows).length)) }
    ensures stops { CountsStops is_stop result (R.stops names.old.rows) (R.stops names.new.rows) }
{
    names.suggest(alloc, kind, prefix, max)
}
