//! Giving an id to a name that has none.
ghost use Rattle.std.specs.Prelude.{◌≡◌, ◌≤◌, IfOk, OnOk};
ghost use Rattle.tsd_base.specs.Alphabet.{IsName};
ghost use Rattle.cell_model.specs.KindWidths.{IsKindId};
ghost use Rattle.cell_model.specs.declared.events.Step.TheVariants.{Bump};
ghost use Rattle.cell_model.specs.declared.events.Reply.TheVariants.{BumpReply};
ghost use Rattle.cell_model.specs.declared.answers.Bumped.TheVariants.{Given};
ghost use Rattle.cell_model.specs.IdRows.{name_row};
ghost use Rattle.cell_model.specs.Seen.{Seen, Stepped};
ghost use Rattle.cell_model.specs.Stops.{CountsStops, is_stop};
ghost use Rattle.cell_model.specs.Calls.{Leaves};
ghost use Rattle.uid_table.specs.IdAnswers.{answered_id, is_assign_stop};
ghost use Rattle.uid_table.specs.Shown.{HasShown, HasReversed};
ghost use Rattle.uid_table.specs.IdSteps.{MadeSo, ReverseMade, ForwardMade, BindMade, GiveMade, GiveAllowedMade, AssignMade};

use crate::id_answers::{AssignFault, Assigned};
use crate::id_reads::{bytes_of_id, id_from, look, qualifier, row_of_id};
use cell_model::answers::{Bumped, Claimed, RowsFault, Stopped};
use cell_model::row::Row;
use cell_model::rows::Rows;
use std::alloc::Global;
use tsd_base::kinds::Kind;
use tsd_base::names::Name;
use tsd_hooks::UidRule;

/// Claims an id that was just given for a name, in the table of names. No one else claimed it.
fn claim_reverse<R: Rows>(
    rows: &mut R,
    alloc: Global,
    kind: Kind,
    id: u32,
    name: &Row,
) -> Result<(), RowsFault>
    requires named { IsName name.now.bytes }
    requires given { (before : Seen) × Stepped before (Bump kind) (BumpReply (Given id)) (R.seen rows.old) }
    ensures made { MadeSo (R.seen rows.old) (ReverseMade (R.seen rows.old).base.widths kind name.now.bytes id result) (R.seen rows.new) }
    ensures reversed { OnOk result (HasReversed (R.seen rows.new) kind name.now.bytes id) }
    ensures id { OnOk result (IsKindId (R.seen rows.new).base.widths kind id) }
    ensures stops { CountsStops is_stop result (R.stops rows.old) (R.stops rows.new) }
{
    let row = row_of_id(kind, id, rows.widths());
    let qual = qualifier(kind);
    let claimed = rows.claim(alloc, &row, &qual, &name.bytes)?;
    match claimed {
        Claimed::Done => Ok(()),
        Claimed::Held { .. } => unreachable!(),
    }
}

/// Claims a name with an id that was claimed for it, in the table of ids.
fn claim_forward<R: Rows>(
    rows: &mut R,
    alloc: Global,
    kind: Kind,
    id: u32,
    name: &Row,
) -> Result<Assigned, RowsFault>
    requires row { name.now ≡ name_row name.now.bytes }
    requires named { IsName name.now.bytes }
    requires reversed { HasReversed (R.seen rows.old) kind name.now.bytes id }
    requires id { IsKindId (R.seen rows.old).base.widths kind id }
    ensures made { MadeSo (R.seen rows.old) (ForwardMade (R.seen rows.old).base.widths kind name.now.bytes id result) (R.seen rows.new) }
    ensures id { IfOk result (λ a. HasShown (R.seen rows.new) kind name.now.bytes (answered_id a)) }
    ensures leaves { Leaves is_stop result (R.seen rows.new) (R.stops rows.old) (R.stops rows.new) }
{
    let qual = qualifier(kind);
    let value = bytes_of_id(kind, id, rows.widths());
    let claimed = rows.claim(alloc, name, &qual, &value)?;
    match claimed {
        Claimed::Done => Ok(Assigned::Fresh { id }),
        Claimed::Held { value: held } => {
            let holder = id_from(held.list());
            Ok(Assigned::Lost {
                wasted: id,
                id: holder,
            })
        }
    }
}

/// Claims an id that was just given for a name, in both tables.
fn bind<R: Rows>(
    rows: &mut R,
    alloc: Global,
    kind: Kind,
    id: u32,
    name: &Row,
) -> Result<Assigned, RowsFault>
    requires row { name.now ≡ name_row name.now.bytes }
    requires named { IsName name.now.bytes }
    requires given { (before : Seen) × Stepped before (Bump kind) (BumpReply (Given id)) (R.seen rows.old) }
    ensures made { MadeSo (R.seen rows.old) (BindMade (R.seen rows.old).base.widths kind name.now.bytes id result) (R.seen rows.new) }
    ensures id { IfOk result (λ a. HasShown (R.seen rows.new) kind name.now.bytes (answered_id a)) }
    ensures leaves { Leaves is_stop result (R.seen rows.new) (R.stops rows.old) (R.stops rows.new) }
{
    claim_reverse(rows, alloc, kind, id, name)?;
    claim_forward(rows, alloc, kind, id, name)
}

/// Gives a name an id.
fn give<R: Rows>(
    rows: &mut R,
    alloc: Global,
    kind: Kind,
    name: &Row,
) -> Result<Assigned, AssignFault>
    requires row { name.now ≡ name_row name.now.bytes }
    requires named { IsName name.now.bytes }
    requires spare { 1 ≤ R.spare rows.old }
    ensures made { MadeSo (R.seen rows.old) (GiveMade (R.seen rows.old).base.widths kind name.now.bytes result) (R.seen rows.new) }
    ensures id { IfOk result (λ a. HasShown (R.seen rows.new) kind name.now.bytes (answered_id a)) }
    ensures leaves { Leaves is_assign_stop result (R.seen rows.new) (R.stops rows.old) (R.stops rows.new) }
{
    match rows.bump(kind) {
        Ok(Bumped::Given { id }) => {
            let bound = bind(rows, alloc, kind, id, name)?;
            Ok(bound)
        }
        Ok(Bumped::Full) => Err(AssignFault::Exhausted { kind }),
        Err(Stopped) => Err(AssignFault::Stopped),
    }
}

/// Gives a name an id, where the rule allows it.
fn give_allowed<R: Rows>(
    rows: &mut R,
    alloc: Global,
    rule: &UidRule,
    kind: Kind,
    name: &Name,
    row: &Row,
) -> Result<Assigned, AssignFault>
    requires row { row.now ≡ name_row row.now.bytes }
    requires named { IsName row.now.bytes }
    requires same { row.now.bytes ≡ name.now }
    requires spare { 1 ≤ R.spare rows.old }
    ensures made { MadeSo (R.seen rows.old) (GiveAllowedMade (R.seen rows.old).base.widths rule.now.patterns kind row.now.bytes result) (R.seen rows.new) }
    ensures id { IfOk result (λ a. HasShown (R.seen rows.new) kind row.now.bytes (answered_id a)) }
    ensures leaves { Leaves is_assign_stop result (R.seen rows.new) (R.stops rows.old) (R.stops rows.new) }
{
    if rule.allows(kind, name) {
        give(rows, alloc, kind, row)
    } else {
        Err(AssignFault::Filtered { kind })
    }
}

/// The id of the name of a row, which is given one where it has none and the rule allows it.
pub fn look_or_give<R: Rows>(
    rows: &mut R,
    alloc: Global,
    rule: &UidRule,
    kind: Kind,
    name: &Name,
    row: &Row,
) -> Result<Assigned, AssignFault>
    requires row { row.now ≡ name_row row.now.bytes }
    requires named { IsName row.now.bytes }
    requires same { row.now.bytes ≡ name.now }
    ensures made { MadeSo (R.seen rows.old) (AssignMade (R.seen rows.old).base.widths rule.now.patterns kind row.now.bytes result) (R.seen rows.new) }
    ensures id { IfOk result (λ a. HasShown (R.seen rows.new) kind row.now.bytes (answered_id a)) }
    ensures leaves { Leaves is_assign_stop result (R.seen rows.new) (R.stops rows.old) (R.stops rows.new) }
{
    let shown = look(rows, alloc, kind, row)?;
    match shown {
        Some(id) => Ok(Assigned::Existing { id }),
        None => give_allowed(rows, alloc, rule, kind, name, row),
    }
}
