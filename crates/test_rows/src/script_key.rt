//! The key of a point's row, by the ids that its names were shown to have.
ghost use Rattle.std.specs.Prelude.{◌≡◌, IfOk, IfSome};
ghost use Rattle.tsd_base.specs.Alphabet.{IsName};
ghost use Rattle.tsd_base.specs.Points.{data_point};
ghost use Rattle.cell_model.specs.IdRows.{name_row};
ghost use Rattle.test_rows.specs.Puts.{ShowsId, ShowsPair, ShowsTags, ShowsKey};

use crate::claim::{id_in, qualifier};
use crate::fact::{Fact, last_value};
use arrayvec::ArrayVec;
use cell_model::Row;
use qual_codec::Bytes;
use row_hours::base_of;
use row_key::{RowKey, Table, Widths};
use std::alloc::{AllocError, Global};
use tsd_base::kinds::Kind;
use tsd_base::names::Name;
use tsd_base::points::Point;

/// The row of a name in the table of ids.
fn row_of_name(alloc: Global, name: &Name) -> Result<Row, AllocError>
    ensures row { IfOk result (λ row. row ≡ name_row name.now) }
    ensures named { IsName name.now }
{
    Ok(Row {
        table: Table::Ids,
        bytes: Bytes::of(alloc, name.bytes())?,
    })
}

/// The id that a name was shown to have.
fn known_id(
    facts: &[Fact],
    alloc: Global,
    kind: Kind,
    name: &Name,
    widths: Widths,
) -> Result<Option<u32>, AllocError>
    ensures { IfOk result (λ found. IfSome found (ShowsId widths facts.now kind name.now)) }
{
    let row = row_of_name(alloc, name)?;
    match last_value(facts, &row, qualifier(kind).list()) {
        Some(value) => Ok(id_in(kind, value, widths)),
        None => Ok(None),
    }
}

/// The ids of a tag.
fn known_pair(
    facts: &[Fact],
    alloc: Global,
    tag: &(Name, Name),
    widths: Widths,
) -> Result<Option<(u32, u32)>, AllocError>
    ensures { IfOk result (λ found. IfSome found (ShowsPair widths facts.now tag.now)) }
{
    let Some(key) = known_id(facts, alloc, Kind::TagKey, &tag.0, widths)? else {
        return Ok(None);
    };
    let Some(value) = known_id(facts, alloc, Kind::TagValue, &tag.1, widths)? else {
        return Ok(None);
    };
    Ok(Some((key, value)))
}

/// The pair of ids of tags that are one tag.
fn known_pairs(
    facts: &[Fact],
    alloc: Global,
    tags: &[(Name, Name)],
    widths: Widths,
) -> Result<Option<ArrayVec<(u32, u32), 8>>, AllocError>
    ensures { IfOk result (λ found. IfSome found (λ pairs. ShowsTags widths facts.now tags.now pairs.items)) }
{
    if tags.len() != 1 {
        return Ok(None);
    }
    let Some(pair) = known_pair(facts, alloc, &tags[0], widths)? else {
        return Ok(None);
    };
    let mut pairs = ArrayVec::new();
    pairs.push(pair);
    Ok(Some(pairs))
}

/// The key of the row of a point of one tag, if each of its names was shown to have an id.
pub fn known_key(
    facts: &[Fact],
    alloc: Global,
    point: &Point,
    widths: Widths,
) -> Result<Option<RowKey>, AllocError>
    ensures { IfOk result (λ found. IfSome found (ShowsKey widths facts.now (data_point point.now))) }
{
    let _ = point.metric.bytes();
    let Some(metric) = known_id(facts, alloc, Kind::Metric, &point.metric, widths)? else {
        return Ok(None);
    };
    let Some(pairs) = known_pairs(facts, alloc, point.tags.pairs(), widths)? else {
        return Ok(None);
    };
    Ok(Some(RowKey {
        metric,
        base: base_of(point.time),
        pairs,
    }))
}
