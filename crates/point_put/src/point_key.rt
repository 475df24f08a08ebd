//! The key of a point's row.
ghost use Rattle.std.specs.Prelude.{◌≢◌, ◌<◌, ◌∷◌, [], All, IfOk};
ghost use Rattle.std.specs.List.Sorted.{IsPermutation};
ghost use Rattle.arrayvec.specs.ArrayVec.{array_vec_len};
ghost use Rattle.tsd_base.specs.TagList.{IsTags};
ghost use Rattle.tsd_base.specs.Points.{data_point};
ghost use Rattle.cell_model.specs.Layout.{names_of, tag_names};
ghost use Rattle.cell_model.specs.Seen.{IsPossible};
ghost use Rattle.cell_model.specs.Calls.{Leaves};
ghost use Rattle.point_put.specs.Admissions.{admission};
ghost use Rattle.point_put.specs.PutFaults.{is_stop};
ghost use Rattle.point_put.specs.ShownIds.{NamesAsked, IdsShown, PairsShown, KeyShown, Rising, StandsAt};

use crate::config::Config;
use crate::fault::PutFault;
use crate::put_ids::id_for;
use arrayvec::ArrayVec;
use cell_model::rows::Rows;
use row_hours::base_of;
use row_key::RowKey;
use std::alloc::Global;
use tsd_base::kinds::Kind;
use tsd_base::names::Name;
use tsd_base::points::Point;
use tsd_hooks::UidRule;
use uid_table::uids::Uids;

/// Where a pair of this id would stand among pairs that rise by their first ids.
fn place_of(pairs: &[(u32, u32)], id: u32) -> usize
    requires rising { Rising pairs.now }
    requires new { All (λ p. p.0 ≢ id) pairs.now }
    ensures { StandsAt pairs.now id result }
{
    for (at, pair) in pairs.iter().enumerate() {
        if pair.0 > id {
            return at;
        }
    }
    pairs.len()
}

/// Adds a pair to pairs that rise by their first ids.
fn add_pair(pairs: &mut ArrayVec<(u32, u32), 8>, pair: (u32, u32))
    requires rising { Rising pairs.old.items }
    requires new { All (λ p. p.0 ≢ pair.0) pairs.old.items }
    requires room { array_vec_len pairs.old < 8 }
    ensures rising { Rising pairs.new.items }
    ensures permuted { IsPermutation (pair ∷ pairs.old.items) pairs.new.items }
{
    let at = place_of(pairs.as_slice(), pair.0);
    pairs.insert(at, pair);
}

/// The ids of a tag.
fn pair_for<R: Rows + Drop>(
    names: &mut Uids<R>,
    alloc: Global,
    rule: &UidRule,
    config: &Config,
    tag: &(Name, Name),
) -> Result<(u32, u32), PutFault>
    ensures asked { NamesAsked (admission config.now rule.now.patterns) (tag_names (tag.now ∷ [])) (R.seen names.old.rows) result (R.seen names.new.rows) }
    ensures ids { IfOk result (IdsShown (R.seen names.new.rows) tag.now) }
    ensures leaves { Leaves is_stop result (R.seen names.new.rows) (R.stops names.old.rows) (R.stops names.new.rows) }
{
    let key = id_for(names, alloc, rule, config, Kind::TagKey, &tag.0)?;
    let value = id_for(names, alloc, rule, config, Kind::TagValue, &tag.1)?;
    Ok((key, value))
}

/// The ids of tags, rising by those of their keys.
fn pairs_for<R: Rows + Drop>(
    names: &mut Uids<R>,
    alloc: Global,
    rule: &UidRule,
    config: &Config,
    tags: &[(Name, Name)],
) -> Result<ArrayVec<(u32, u32), 8>, PutFault>
    requires tags { IsTags tags.now }
    requires possible { IsPossible (R.seen names.old.rows) }
    ensures asked { NamesAsked (admission config.now rule.now.patterns) (tag_names tags.now) (R.seen names.old.rows) result (R.seen names.new.rows) }
    ensures pairs { IfOk result (λ pairs. PairsShown (R.seen names.new.rows) tags.now pairs.items) }
    ensures leaves { Leaves is_stop result (R.seen names.new.rows) (R.stops names.old.rows) (R.stops names.new.rows) }
{
    let mut pairs = ArrayVec::new();
    for tag in tags {
        let pair = pair_for(names, alloc, rule, config, tag)?;
        add_pair(&mut pairs, pair);
    }
    Ok(pairs)
}

/// The key of the row of a point, whose names are resolved, or given ids, in their order.
pub fn key_for<R: Rows + Drop>(
    names: &mut Uids<R>,
    alloc: Global,
    rule: &UidRule,
    config: &Config,
    point: &Point,
) -> Result<RowKey, PutFault>
    ensures asked { NamesAsked (admission config.now rule.now.patterns) (names_of (data_point point.now)) (R.seen names.old.rows) result (R.seen names.new.rows) }
    ensures key { IfOk result (KeyShown (R.seen names.new.rows) (data_point point.now)) }
    ensures leaves { Leaves is_stop result (R.seen names.new.rows) (R.stops names.old.rows) (R.stops names.new.rows) }
{
    let metric = id_for(names, alloc, rule, config, Kind::Metric, &point.metric)?;
    let pairs = pairs_for(names, alloc, rule, config, point.tags.pairs())?;
    Ok(RowKey {
        metric,
        base: base_of(point.time),
        pairs,
    })
}
