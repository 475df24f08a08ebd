//! The ids of names, given while lines are read.
ghost use Rattle.std.specs.Prelude.{[], ◌∷◌, IfOk};
ghost use Rattle.tsd_base.specs.declared.kinds.Kind.TheVariants.{TagKey, TagValue};
ghost use Rattle.cell_model.specs.Layout.{tag_names};
ghost use Rattle.cell_model.specs.Stops.{CountsStops, is_stop};
ghost use Rattle.batch_job.specs.NotedIds.{names_in};
ghost use Rattle.point_lines.specs.OpenRules.{AllowsAll};
ghost use Rattle.batch_job.specs.Storing.{Notes};

use cell_model::Rows;
use cell_model::answers::RowsFault;
use std::alloc::Global;
use tsd_base::kinds::Kind;
use tsd_base::names::Name;
use tsd_base::tags::Tags;
use tsd_hooks::UidRule;
use uid_table::Uids;
use uid_table::id_answers::AssignFault;

/// Gives ids to the names of a series that have none: the metric's, and then those of each tag, its key before its value.
/// The answer is the kind of the first name for which there is none, and then the names before it have theirs. The rule is one
/// that allows each name.
pub fn note_series<R: Rows + Drop>(
    alloc: Global,
    store: &mut Uids<R>,
    rule: &UidRule,
    metric: &Name,
    tags: &Tags,
) -> Result<Option<Kind>, RowsFault>
    requires allows { AllowsAll rule.now.patterns }
    ensures notes { IfOk result (λ full. Notes (R.seen store.old.rows) (names_in metric.now tags.now) full (R.seen store.new.rows)) }
    ensures stops { CountsStops is_stop result (R.stops store.old.rows) (R.stops store.new.rows) }
{
    if let Some(kind) = note(alloc, store, rule, Kind::Metric, metric)? {
        return Ok(Some(kind));
    }
    note_tags(alloc, store, rule, tags)
}

/// Gives ids to the names of tags, from the left.
fn note_tags<R: Rows + Drop>(
    alloc: Global,
    store: &mut Uids<R>,
    rule: &UidRule,
    tags: &Tags,
) -> Result<Option<Kind>, RowsFault>
    requires allows { AllowsAll rule.now.patterns }
    ensures notes { IfOk result (λ full. Notes (R.seen store.old.rows) (tag_names tags.now) full (R.seen store.new.rows)) }
    ensures stops { CountsStops is_stop result (R.stops store.old.rows) (R.stops store.new.rows) }
{
    for pair in tags.pairs() {
        if let Some(kind) = note_tag(alloc, store, rule, &pair.0, &pair.1)? {
            return Ok(Some(kind));
        }
    }
    Ok(None)
}

/// Gives ids to the names of a tag, its key first. The answer is the kind of the first name for which there is none.
fn note_tag<R: Rows + Drop>(
    alloc: Global,
    store: &mut Uids<R>,
    rule: &UidRule,
    key: &Name,
    value: &Name,
) -> Result<Option<Kind>, RowsFault>
    requires allows { AllowsAll rule.now.patterns }
    ensures notes { IfOk result (λ full. Notes (R.seen store.old.rows) ((TagKey, key.now) ∷ (TagValue, value.now) ∷ []) full (R.seen store.new.rows)) }
    ensures stops { CountsStops is_stop result (R.stops store.old.rows) (R.stops store.new.rows) }
{
    if let Some(kind) = note(alloc, store, rule, Kind::TagKey, key)? {
        return Ok(Some(kind));
    }
    note(alloc, store, rule, Kind::TagValue, value)
}

/// Gives a name of a kind the next id, if it has none. The answer is the kind where all its ids were given.
fn note<R: Rows + Drop>(
    alloc: Global,
    store: &mut Uids<R>,
    rule: &UidRule,
    kind: Kind,
    name: &Name,
) -> Result<Option<Kind>, RowsFault>
    requires allows { AllowsAll rule.now.patterns }
    ensures notes { IfOk result (λ full. Notes (R.seen store.old.rows) ((kind, name.now) ∷ []) full (R.seen store.new.rows)) }
    ensures stops { CountsStops is_stop result (R.stops store.old.rows) (R.stops store.new.rows) }
{
    // For the proof: it is a name.
    let _ = name.bytes();
    match store.assign(alloc, rule, kind, name) {
        Ok(_) => Ok(None),
        Err(AssignFault::Filtered { .. }) => unreachable!(),
        Err(AssignFault::Exhausted { kind }) => Ok(Some(kind)),
        Err(AssignFault::OutOfMemory) => Err(RowsFault::OutOfMemory),
        Err(AssignFault::Stopped) => Err(RowsFault::Stopped),
    }
}
