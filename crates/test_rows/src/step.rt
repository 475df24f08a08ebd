//! One step of a caller, where the facts show that it is allowed.
ghost use Rattle.std.specs.Prelude.{◌≡◌, ◌++◌, IfOk, IsTrue};
ghost use Rattle.cell_model.specs.Ranges.{SameMetric};
ghost use Rattle.tsd_base.specs.Points.{data_point};
ghost use Rattle.cell_solo.specs.Turns.{sight};
ghost use Rattle.test_rows.specs.Puts.{ShowsKey};
ghost use Rattle.test_rows.specs.Sharing.{IsOneStep};

use crate::act::Acted;
use crate::claim::may_claim;
use crate::drops::may_drop;
use crate::merge_step::may_merge;
use crate::script_key::known_key;
use crate::sharing::Shared;
use cell_model::Row;
use point_put::point_cell::{qualifier_of, row_of, value_of};
use qual_codec::Bytes;
use row_key::{RowKey, Table, Widths};
use std::alloc::{AllocError, Global};
use tsd_base::kinds::Kind;
use tsd_base::points::Point;

/// Reads a row.
pub fn read(shared: &mut Shared, alloc: Global, row: &Row) -> Result<Acted, AllocError>
    ensures { IsOneStep shared.old.solo shared.new.solo }
{
    match shared.read(alloc, row) {
        Ok(cells) => Ok(Acted::Cells { cells }),
        Err(_) => Err(AllocError),
    }
}

/// Looks for the next row of points of one metric.
pub fn find(
    shared: &mut Shared,
    alloc: Global,
    from: &Bytes,
    to: &Bytes,
) -> Result<Acted, AllocError>
    ensures { IsOneStep shared.old.solo shared.new.solo }
{
    if !is_one_metric(from.list(), to.list(), shared.widths()) {
        return Ok(Acted::NotAllowed);
    }
    match shared.next_row(alloc, Table::Points, from, to) {
        Ok(found) => Ok(Acted::Found { found }),
        Err(_) => Err(AllocError),
    }
}

/// Whether both begin with the bytes of one metric's id.
fn is_one_metric(from: &[u8], to: &[u8], widths: Widths) -> bool
    ensures { IsTrue result → SameMetric widths from.now to.now }
{
    let len = widths.metric as usize;
    len <= from.len() && len <= to.len() && from[..len] == to[..len]
}

/// Asks for an id.
pub fn bump(shared: &mut Shared, kind: Kind) -> Acted
    ensures { IsOneStep shared.old.solo shared.new.solo }
{
    if !shared.has_room() {
        return Acted::NoRoom;
    }
    match shared.bump(kind) {
        Ok(bumped) => Acted::Bumped { bumped },
        Err(_) => Acted::NoRoom,
    }
}

/// Claims a cell.
pub fn claim(
    shared: &mut Shared,
    alloc: Global,
    row: &Row,
    qual: &Bytes,
    value: &Bytes,
) -> Result<Acted, AllocError>
    ensures { IsOneStep shared.old.solo shared.new.solo }
{
    let caller = shared.caller();
    let widths = shared.widths();
    if !may_claim(
        shared.facts(),
        alloc,
        caller,
        row,
        qual.list(),
        value,
        widths,
    ) {
        return Ok(Acted::NotAllowed);
    }
    match shared.claim(alloc, row, qual, value) {
        Ok(claimed) => Ok(Acted::Claimed { claimed }),
        Err(_) => Err(AllocError),
    }
}

/// Puts a point of one tag.
pub fn put(shared: &mut Shared, alloc: Global, point: &Point) -> Result<Acted, AllocError>
    ensures { IsOneStep shared.old.solo shared.new.solo }
{
    let widths = shared.widths();
    match known_key(shared.facts(), alloc, point, widths)? {
        Some(key) => store(shared, alloc, point, &key),
        None => Ok(Acted::NotAllowed),
    }
}

/// Puts a point in the row of its key.
fn store(
    shared: &mut Shared,
    alloc: Global,
    point: &Point,
    key: &RowKey,
) -> Result<Acted, AllocError>
    requires key { ShowsKey (sight shared.old.solo).base.widths shared.old.facts (data_point point.now) key.now }
    ensures { IsOneStep shared.old.solo shared.new.solo }
{
    // For the proof: the facts hold.
    let _ = shared.facts();
    let row = row_of(alloc, key, shared.widths())?;
    let value = value_of(point);
    let qual = qualifier_of(point, value.list());
    match shared.put_point(alloc, point, &row, &qual, &value) {
        Ok(()) => Ok(Acted::Written),
        Err(_) => Err(AllocError),
    }
}

/// Appends a point of one tag.
pub fn append(shared: &mut Shared, alloc: Global, point: &Point) -> Result<Acted, AllocError>
    ensures { IsOneStep shared.old.solo shared.new.solo }
{
    let widths = shared.widths();
    match known_key(shared.facts(), alloc, point, widths)? {
        Some(key) => add(shared, alloc, point, &key),
        None => Ok(Acted::NotAllowed),
    }
}

/// Appends a point in the row of its key.
fn add(shared: &mut Shared, alloc: Global, point: &Point, key: &RowKey) -> Result<Acted, AllocError>
    requires key { ShowsKey (sight shared.old.solo).base.widths shared.old.facts (data_point point.now) key.now }
    ensures { IsOneStep shared.old.solo shared.new.solo }
{
    // For the proof: the facts hold.
    let _ = shared.facts();
    let row = row_of(alloc, key, shared.widths())?;
    let value = value_of(point);
    let qual = qualifier_of(point, value.list());
    let piece = joined(alloc, qual.list(), value.list())?;
    match shared.append_point(alloc, point, &row, &piece) {
        Ok(()) => Ok(Acted::Written),
        Err(_) => Err(AllocError),
    }
}

/// A qualifier, and behind it a value.
fn joined(alloc: Global, qual: &[u8], value: &[u8]) -> Result<Bytes, AllocError>
    ensures { IfOk result (λ piece. piece ≡ qual.now ++ value.now) }
{
    let mut bytes = Vec::from_slice(alloc, qual)?;
    bytes.extend_from_slice(value)?;
    Bytes::of(alloc, bytes.as_slice())
}

/// Writes a cell that merges others.
pub fn merge(
    shared: &mut Shared,
    alloc: Global,
    row: &Row,
    qual: &Bytes,
    value: &Bytes,
) -> Result<Acted, AllocError>
    ensures { IsOneStep shared.old.solo shared.new.solo }
{
    if !may_merge(shared.facts(), alloc, row, qual.list(), value.list()) {
        return Ok(Acted::NotAllowed);
    }
    match shared.put_merged(alloc, row, qual, value) {
        Ok(()) => Ok(Acted::Written),
        Err(_) => Err(AllocError),
    }
}

/// Drops cells.
pub fn drop_cells(
    shared: &mut Shared,
    alloc: Global,
    row: &Row,
    quals: &[Bytes],
) -> Result<Acted, AllocError>
    ensures { IsOneStep shared.old.solo shared.new.solo }
{
    let Some(which) = may_drop(shared.facts(), alloc, row, quals)? else {
        return Ok(Acted::NotAllowed);
    };
    if !shared.has_room() {
        return Ok(Acted::NoRoom);
    }
    match shared.drop_cells(row.again(alloc)?, which) {
        Ok(count) => Ok(Acted::Dropped { count }),
        Err(_) => Ok(Acted::NoRoom),
    }
}
