//! The tags of rows, by the names of their ids.
ghost use Rattle.std.specs.Prelude.{IfOk};
ghost use Rattle.std.specs.List.{AllZip};
ghost use Rattle.tsd_base.specs.declared.kinds.Kind.TheVariants.{TagKey, TagValue};
ghost use Rattle.cell_model.specs.Readings.{IsNamed, Named};
ghost use Rattle.metric_scan.specs.RowNames.{HasName, known};
ghost use Rattle.metric_scan.specs.RowTags.{ArePairs, OneToOne};

use crate::row_names::IdNames;
use std::alloc::{AllocError, Global};
use tsd_base::names::Name;
use tsd_base::tags::{Tags, TagsFault};

/// The names of a pair's ids.
fn pair_names(alloc: Global, names: &IdNames, pair: (u32, u32)) -> Result<(Name, Name), AllocError>
    requires key { HasName (known names.now) (TagKey, pair.0) }
    requires value { HasName (known names.now) (TagValue, pair.1) }
    ensures { IfOk result (IsNamed (known names.now) pair) }
{
    let Some(key) = names.keys.get(&pair.0) else {
        unreachable!()
    };
    let Some(value) = names.values.get(&pair.1) else {
        unreachable!()
    };
    Ok((key.again(alloc)?, value.again(alloc)?))
}

/// The names of the ids of pairs.
fn all_names(
    alloc: Global,
    names: &IdNames,
    pairs: &[(u32, u32)],
) -> Result<Vec<(Name, Name)>, AllocError>
    requires { ArePairs (known names.now) pairs.now }
    ensures { IfOk result (λ list. AllZip (IsNamed (known names.now)) pairs.now list.items) }
{
    let mut list = Vec::with_capacity(alloc, pairs.len())?;
    for pair in pairs {
        list.push(pair_names(alloc, names, *pair)?)?;
    }
    Ok(list)
}

/// The tags whose ids these pairs are.
pub fn tags_of(alloc: Global, names: &IdNames, pairs: &[(u32, u32)]) -> Result<Tags, AllocError>
    requires one { OneToOne (known names.now) }
    requires pairs { ArePairs (known names.now) pairs.now }
    ensures { IfOk result (Named (known names.now) pairs.now) }
{
    let list = all_names(alloc, names, pairs)?;
    match Tags::build(alloc, list) {
        Ok(tags) => Ok(tags),
        Err(fault) => match fault {
            TagsFault::OutOfMemory => Err(AllocError),
            _ => unreachable!(),
        },
    }
}
