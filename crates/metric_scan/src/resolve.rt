//! The ids of the names of a sub query, asked for in the order of its text.
ghost use Rattle.std.specs.Prelude.{[], ◌∷◌, map};
ghost use Rattle.std.specs.List.{flat_map};
ghost use Rattle.tsd_base.specs.declared.kinds.Kind.TheVariants.{TagValue};
ghost use Rattle.cell_model.specs.Seen.{IsPossible};
ghost use Rattle.cell_model.specs.Calls.{Leaves};
ghost use Rattle.uid_table.specs.Shown.{HasShown};
ghost use Rattle.metric_scan.specs.AskFaults.{is_stop};
ghost use Rattle.metric_scan.specs.IdFilters.{AreIdFilters, AreIds, IsIdFilter, IsIdTest};
ghost use Rattle.metric_scan.specs.SubNames.{filter_names, test_names};
ghost use Rattle.metric_scan.specs.ResolvedIds.{Resolves};

use crate::fault::AskFault;
use crate::id_filter::{IdFilter, IdTest};
use crate::id_set::IdSet;
use cell_model::rows::Rows;
use query_text::queries::{Filter, Test};
use std::alloc::Global;
use tsd_base::kinds::Kind;
use tsd_base::names::Name;
use uid_table::id_answers::ResolveFault;
use uid_table::uids::Uids;

/// The id of a name, by one read, or by none where it is kept.
pub(crate) fn resolve_name<R: Rows + Drop>(
    alloc: Global,
    names: &mut Uids<R>,
    kind: Kind,
    name: &Name,
) -> Result<u32, AskFault>
    ensures says { Resolves (R.seen names.old.rows) ((kind, name.now) ∷ []) (λ s id. HasShown s kind name.now id) result (R.seen names.new.rows) }
    ensures leaves { Leaves is_stop result (R.seen names.new.rows) (R.stops names.old.rows) (R.stops names.new.rows) }
{
    match names.resolve(alloc, kind, name) {
        Ok(id) => Ok(id),
        Err(ResolveFault::Unknown { kind }) => {
            let Ok(name) = name.again(alloc) else {
                return Err(AskFault::OutOfMemory);
            };
            Err(AskFault::Unknown { kind, name })
        }
        Err(ResolveFault::OutOfMemory) => Err(AskFault::OutOfMemory),
        Err(ResolveFault::Stopped) => Err(AskFault::Stopped),
    }
}

/// The ids of the names of tag values.
fn resolve_values<R: Rows + Drop>(
    alloc: Global,
    names: &mut Uids<R>,
    values: &[Name],
) -> Result<Vec<u32>, AskFault>
    requires possible { IsPossible (R.seen names.old.rows) }
    ensures says { Resolves (R.seen names.old.rows) (map (λ name. (TagValue, name)) values.now) (λ s ids. AreIds s values.now ids.items) result (R.seen names.new.rows) }
    ensures leaves { Leaves is_stop result (R.seen names.new.rows) (R.stops names.old.rows) (R.stops names.new.rows) }
{
    let mut ids = Vec::new(alloc);
    for value in values {
        ids.push(resolve_name(alloc, names, Kind::TagValue, value)?)?;
    }
    Ok(ids)
}

/// A test by the ids of its names. By ids any value passes a test of text.
fn resolve_test<R: Rows + Drop>(
    alloc: Global,
    names: &mut Uids<R>,
    test: &Test,
) -> Result<IdTest, AskFault>
    requires possible { IsPossible (R.seen names.old.rows) }
    ensures says { Resolves (R.seen names.old.rows) (map (λ name. (TagValue, name)) (test_names test.now)) (λ s by. IsIdTest s test.now by) result (R.seen names.new.rows) }
    ensures leaves { Leaves is_stop result (R.seen names.new.rows) (R.stops names.old.rows) (R.stops names.new.rows) }
{
    match test {
        Test::Any => Ok(IdTest::Any),
        Test::OneOf { names: values } => {
            let ids = resolve_values(alloc, names, values.list())?;
            Ok(IdTest::OneOf {
                ids: IdSet::of(ids),
            })
        }
        Test::NotOneOf { names: values } => {
            let ids = resolve_values(alloc, names, values.list())?;
            Ok(IdTest::NotOneOf {
                ids: IdSet::of(ids),
            })
        }
        Test::Wild { .. } => Ok(IdTest::Any),
        Test::Pattern { .. } => Ok(IdTest::Any),
    }
}

/// A filter by the ids of its names: its key's, and then those of its test.
fn resolve_filter<R: Rows + Drop>(
    alloc: Global,
    names: &mut Uids<R>,
    filter: &Filter,
) -> Result<IdFilter, AskFault>
    requires possible { IsPossible (R.seen names.old.rows) }
    ensures says { Resolves (R.seen names.old.rows) (filter_names filter.now) (λ s by. IsIdFilter s filter.now by) result (R.seen names.new.rows) }
    ensures leaves { Leaves is_stop result (R.seen names.new.rows) (R.stops names.old.rows) (R.stops names.new.rows) }
{
    let key = resolve_name(alloc, names, Kind::TagKey, &filter.key)?;
    let test = resolve_test(alloc, names, &filter.test)?;
    Ok(IdFilter { key, test })
}

/// Filters by the ids of their names.
pub(crate) fn resolve_filters<R: Rows + Drop>(
    alloc: Global,
    names: &mut Uids<R>,
    filters: &[Filter],
) -> Result<Vec<IdFilter>, AskFault>
    requires possible { IsPossible (R.seen names.old.rows) }
    ensures says { Resolves (R.seen names.old.rows) (flat_map filter_names filters.now) (λ s list. AreIdFilters s filters.now list.items) result (R.seen names.new.rows) }
    ensures leaves { Leaves is_stop result (R.seen names.new.rows) (R.stops names.old.rows) (R.stops names.new.rows) }
{
    let mut list = Vec::new(alloc);
    for filter in filters {
        list.push(resolve_filter(alloc, names, filter)?)?;
    }
    Ok(list)
}
