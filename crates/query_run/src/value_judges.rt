//! Judging the values of rows' tags by their names, for the filters that are of text.
ghost use Rattle.std.specs.Prelude.{◌≡◌, length, IfOk};
ghost use Rattle.tsd_base.specs.declared.kinds.Kind.TheVariants.{TagValue};
ghost use Rattle.metric_scan.specs.RowNames.{HasName, known};
ghost use Rattle.query_run.specs.ValueJudges.{AreFresh, HasJudged, HaveJudged, HaveValues, filters_of, pair_passes, passes_named, suits, suits_one};

use metric_scan::id_filter::IdFilter;
use metric_scan::row_names::IdNames;
use std::alloc::{AllocError, Global};
use std::collections::BTreeMap;
use tag_match::Judge;

/// What judges by a filter, and what it found of the values so far, by their ids.
#[derive(Drop)]
pub(crate) struct ValueJudge<'b> {
    pub(crate) judge: Judge<'b>,
    pub(crate) judged: BTreeMap<u32, bool>,
}

/// What judges by each of the filters, with nothing found yet. It fails only for want of memory.
pub(crate) fn value_judges<'b>(
    alloc: Global,
    judges: Vec<Judge<'b>>,
) -> Result<Vec<ValueJudge<'b>>, AllocError>
    ensures { IfOk result (λ list. AreFresh judges.entry.items list.items) }
{
    let mut list = Vec::with_capacity(alloc, judges.len())?;
    for judge in judges {
        list.push(ValueJudge {
            judge,
            judged: BTreeMap::new(alloc),
        })?;
    }
    Ok(list)
}

/// Whether the value of an id passes a filter's test by its name. It fails only for want of memory.
fn passes(judge: &mut ValueJudge<'_>, names: &IdNames, id: u32) -> Result<bool, AllocError>
    requires { HasName (known names.now) (TagValue, id) }
    ensures { IfOk result (λ passes. HasJudged (known names.now) judge.old judge.new passes (λ all. passes_named judge.old.judge.test (all TagValue id))) }
{
    if let Some(passes) = judge.judged.get(&id) {
        return Ok(*passes);
    }
    let Some(name) = names.values.get(&id) else {
        unreachable!()
    };
    let passes = judge.judge.passes(name);
    judge.judged.insert(id, passes)?;
    Ok(passes)
}

/// Whether a pair has the key's id, with a value that passes by its name.
fn passes_pair(
    judge: &mut ValueJudge<'_>,
    names: &IdNames,
    key: u32,
    pair: (u32, u32),
) -> Result<bool, AllocError>
    requires { HasName (known names.now) (TagValue, pair.1) }
    ensures { IfOk result (λ passes. HasJudged (known names.now) judge.old judge.new passes (λ all. pair_passes all key judge.old.judge.test pair)) }
{
    if key != pair.0 {
        return Ok(false);
    }
    passes(judge, names, pair.1)
}

/// Whether a filter isn't of text, or one of the pairs has its key's id with a value that passes by its name.
fn suits_one(
    judge: &mut ValueJudge<'_>,
    names: &IdNames,
    key: u32,
    pairs: &[(u32, u32)],
) -> Result<bool, AllocError>
    requires { HaveValues (known names.now) pairs.now }
    ensures { IfOk result (λ fits. HasJudged (known names.now) judge.old judge.new fits (λ all. suits_one all key judge.old.judge.test pairs.now)) }
{
    if !judge.judge.filter().test.is_of_text() {
        return Ok(true);
    }
    for pair in pairs {
        if passes_pair(judge, names, key, *pair)? {
            return Ok(true);
        }
    }
    Ok(false)
}

/// Whether so it is for each of the filters, with the ids of their keys. Each value is judged once by a filter, however many rows have it.
pub(crate) fn suits(
    judges: &mut Vec<ValueJudge<'_>>,
    names: &IdNames,
    filters: &[IdFilter],
    pairs: &[(u32, u32)],
) -> Result<bool, AllocError>
    requires as_many { length judges.old.items ≡ length filters.now }
    requires named { HaveValues (known names.now) pairs.now }
    ensures { IfOk result (λ fits. HaveJudged (known names.now) judges.old.items judges.new.items fits (λ all. suits all (filters_of judges.old.items) filters.now pairs.now)) }
{
    for index in 0..judges.len() {
        let key = filters[index].key;
        if !suits_one(&mut judges[index], names, key, pairs)? {
            return Ok(false);
        }
    }
    Ok(true)
}
