//! The names of the ids of rows.
ghost use Rattle.std.specs.Prelude.{◌≡◌, [], ◌∷◌, Contains, ℕ, None};
ghost use Rattle.tsd_base.specs.declared.kinds.Kind.{Kind};
ghost use Rattle.tsd_base.specs.declared.kinds.Kind.TheVariants.{TagKey, TagValue};
ghost use Rattle.cell_model.specs.Seen.{IsPossible};
ghost use Rattle.cell_model.specs.Stops.{is_stop};
ghost use Rattle.cell_model.specs.Calls.{Leaves};
ghost use Rattle.uid_table.specs.Shown.{KnowsName};
ghost use Rattle.metric_scan.specs.RowNames.{IdAsked, KnowsPair, NamesAsked, ids_of, known};

use cell_model::answers::RowsFault;
use cell_model::rows::Rows;
use std::alloc::Global;
use std::collections::BTreeMap;
use tsd_base::kinds::Kind;
use tsd_base::names::Name;
use uid_table::uids::Uids;

/// The names of ids that a sub query has asked for.
#[derive(Drop)]
pub struct IdNames {
    /// Names of tag keys.
    pub keys: BTreeMap<u32, Name>,
    /// Names of tag values.
    pub values: BTreeMap<u32, Name>,
}

impl IdNames {
    /// No names.
    pub(crate) fn none(alloc: Global) -> IdNames
        ensures { (kind : Kind) (id : ℕ) → known result kind id ≡ None }
    {
        IdNames {
            keys: BTreeMap::new(alloc),
            values: BTreeMap::new(alloc),
        }
    }
}

/// Asks for the name of an id, where it isn't there yet, by one read, or by none where it is kept.
fn name_id<R: Rows + Drop>(
    alloc: Global,
    names: &mut Uids<R>,
    kind: Kind,
    id: u32,
    list: &mut BTreeMap<u32, Name>,
) -> Result<(), RowsFault>
    requires knows { KnowsName (R.seen names.old.rows) kind id }
    requires possible { IsPossible (R.seen names.old.rows) }
    ensures asked { IdAsked (R.seen names.old.rows) kind id list.old.entries result list.new.entries (R.seen names.new.rows) }
    ensures leaves { Leaves is_stop result (R.seen names.new.rows) (R.stops names.old.rows) (R.stops names.new.rows) }
{
    if list.contains_key(&id) {
        return Ok(());
    }
    let name = names.name_of(alloc, kind, id)?;
    match list.insert(id, name) {
        Ok(_) => Ok(()),
        Err(_) => Err(RowsFault::OutOfMemory),
    }
}

/// Asks for the names of a pair's ids.
fn name_pair<R: Rows + Drop>(
    alloc: Global,
    names: &mut Uids<R>,
    pair: (u32, u32),
    list: &mut IdNames,
) -> Result<(), RowsFault>
    requires knows { KnowsPair (R.seen names.old.rows) pair }
    requires possible { IsPossible (R.seen names.old.rows) }
    ensures asked { NamesAsked (R.seen names.old.rows) (known list.old) (ids_of (pair ∷ [])) result (known list.new) (R.seen names.new.rows) }
    ensures leaves { Leaves is_stop result (R.seen names.new.rows) (R.stops names.old.rows) (R.stops names.new.rows) }
{
    name_id(alloc, names, Kind::TagKey, pair.0, &mut list.keys)?;
    name_id(alloc, names, Kind::TagValue, pair.1, &mut list.values)?;
    Ok(())
}

/// Asks for the names of the ids of pairs, from the left, key before value: of those that aren't there yet.
pub(crate) fn name_pairs<R: Rows + Drop>(
    alloc: Global,
    names: &mut Uids<R>,
    pairs: &[(u32, u32)],
    list: &mut IdNames,
) -> Result<(), RowsFault>
    requires knows { (p : ℕ × ℕ) → Contains pairs.now p → KnowsPair (R.seen names.old.rows) p }
    requires possible { IsPossible (R.seen names.old.rows) }
    ensures asked { NamesAsked (R.seen names.old.rows) (known list.old) (ids_of pairs.now) result (known list.new) (R.seen names.new.rows) }
    ensures leaves { Leaves is_stop result (R.seen names.new.rows) (R.stops names.old.rows) (R.stops names.new.rows) }
{
    for pair in pairs {
        name_pair(alloc, names, *pair, list)?;
    }
    Ok(())
}
