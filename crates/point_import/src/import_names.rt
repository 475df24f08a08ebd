//! The ids of a point's names, one name after the other.
ghost use Rattle.std.specs.Prelude.{[], ◌∷◌};
ghost use Rattle.tsd_base.specs.declared.kinds.Kind.TheVariants.{TagKey, TagValue};
ghost use Rattle.cell_model.specs.Layout.{names_of, tag_names};
ghost use Rattle.cell_model.specs.Seen.{IsPossible};
ghost use Rattle.cell_model.specs.Stops.{CountsStops, is_stop};
ghost use Rattle.tsd_base.specs.Points.{data_point};
ghost use Rattle.point_lines.specs.OpenRules.{AllowsAll};
ghost use Rattle.point_import.specs.PutPoints.{Names, PossibleIfNamed};

use cell_model::Rows;
use cell_model::answers::RowsFault;
use std::alloc::Global;
use tsd_base::kinds::Kind;
use tsd_base::names::Name;
use tsd_base::points::Point;
use tsd_hooks::UidRule;
use uid_table::Uids;
use uid_table::id_answers::AssignFault;

/// Gives ids to the names of a point that have none: the metric's, and then those of each tag, its key before its value. The answer is
/// the kind of the first name for which there is none, and then the names before it have theirs. The rule is one that allows each name.
pub fn name_point<R: Rows + Drop>(
    alloc: Global,
    names: &mut Uids<R>,
    rule: &UidRule,
    point: &Point,
) -> Result<Option<Kind>, RowsFault>
    requires allows { AllowsAll rule.now.patterns }
    ensures names { Names rule.now.patterns (R.seen names.old.rows) (names_of (data_point point.now)) result (R.seen names.new.rows) }
    ensures possible { PossibleIfNamed result (R.seen names.new.rows) }
    ensures stops { CountsStops is_stop result (R.stops names.old.rows) (R.stops names.new.rows) }
{
    match name_one(alloc, names, rule, Kind::Metric, &point.metric) {
        Ok(None) => name_tags(alloc, names, rule, point.tags.pairs()),
        Ok(Some(kind)) => Ok(Some(kind)),
        Err(fault) => Err(fault),
    }
}

/// Gives ids to the names of tags, from the left.
fn name_tags<R: Rows + Drop>(
    alloc: Global,
    names: &mut Uids<R>,
    rule: &UidRule,
    tags: &[(Name, Name)],
) -> Result<Option<Kind>, RowsFault>
    requires allows { AllowsAll rule.now.patterns }
    requires possible { IsPossible (R.seen names.old.rows) }
    ensures names { Names rule.now.patterns (R.seen names.old.rows) (tag_names tags.now) result (R.seen names.new.rows) }
    ensures possible { PossibleIfNamed result (R.seen names.new.rows) }
    ensures stops { CountsStops is_stop result (R.stops names.old.rows) (R.stops names.new.rows) }
{
    for pair in tags {
        match name_tag(alloc, names, rule, &pair.0, &pair.1) {
            Ok(None) => {}
            Ok(Some(kind)) => return Ok(Some(kind)),
            Err(fault) => return Err(fault),
        }
    }
    Ok(None)
}

/// Gives ids to the names of a tag, its key first.
fn name_tag<R: Rows + Drop>(
    alloc: Global,
    names: &mut Uids<R>,
    rule: &UidRule,
    key: &Name,
    value: &Name,
) -> Result<Option<Kind>, RowsFault>
    requires allows { AllowsAll rule.now.patterns }
    ensures names { Names rule.now.patterns (R.seen names.old.rows) ((TagKey, key.now) ∷ (TagValue, value.now) ∷ []) result (R.seen names.new.rows) }
    ensures possible { PossibleIfNamed result (R.seen names.new.rows) }
    ensures stops { CountsStops is_stop result (R.stops names.old.rows) (R.stops names.new.rows) }
{
    match name_one(alloc, names, rule, Kind::TagKey, key) {
        Ok(None) => name_one(alloc, names, rule, Kind::TagValue, value),
        Ok(Some(kind)) => Ok(Some(kind)),
        Err(fault) => Err(fault),
    }
}

/// Gives a name of a kind the next id, if it has none. The answer is the kind where all its ids were given.
fn name_one<R: Rows + Drop>(
    alloc: Global,
    names: &mut Uids<R>,
    rule: &UidRule,
    kind: Kind,
    name: &Name,
) -> Result<Option<Kind>, RowsFault>
    requires allows { AllowsAll rule.now.patterns }
    ensures names { Names rule.now.patterns (R.seen names.old.rows) ((kind, name.now) ∷ []) result (R.seen names.new.rows) }
    ensures possible { PossibleIfNamed result (R.seen names.new.rows) }
    ensures stops { CountsStops is_stop result (R.stops names.old.rows) (R.stops names.new.rows) }
{
    match names.assign(alloc, rule, kind, name) {
        Ok(_) => Ok(None),
        Err(AssignFault::Filtered { .. }) => unreachable!(),
        Err(AssignFault::Exhausted { kind }) => Ok(Some(kind)),
        Err(AssignFault::OutOfMemory) => Err(RowsFault::OutOfMemory),
        Err(AssignFault::Stopped) => Err(RowsFault::Stopped),
    }
}
