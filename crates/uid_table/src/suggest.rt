//! Suggesting names by a prefix.
ghost use Rattle.std.specs.Prelude.{◌≡◌, ◌≤◌, ◌<◌, ◌∷◌, ◌++◌, [], length, true, false, IfOk, OnOk, Some, None};
ghost use Rattle.tsd_base.specs.Alphabet.{IsName};
ghost use Rattle.row_key.specs.declared.tables.Table.TheVariants.{Ids};
ghost use Rattle.std.specs.Ordering.{is_lt};
ghost use Rattle.std.specs.declared.cmp.Ordering.TheVariants.{Less};
ghost use Rattle.list_lemmas.specs.BytesOrder.{bytes_cmp};
ghost use Rattle.cell_model.specs.Ranges.{InOneRange};
ghost use Rattle.cell_model.specs.Seen.{Seen};
ghost use Rattle.cell_model.specs.Stops.{CountsStops, is_stop};
ghost use Rattle.uid_table.specs.IdSteps.{MadeSo};
ghost use Rattle.uid_table.specs.Suggest.{AllLooks, CanSearch, Gathers, GathersTo, GoesOn, HasPrefix, IsNameRange, StartsAt, Suggests, Takes, TurnsTo};

use crate::id_name::name_from;
use crate::id_reads::qualifier_bytes;
use cell_model::answers::RowsFault;
use cell_model::row::Found;
use cell_model::rows::Rows;
use qual_codec::Bytes;
use row_key::Table;
use std::alloc::{AllocError, Global};
use tsd_base::kinds::Kind;
use tsd_base::names::{LONGEST_NAME, Name};

/// Where names with the prefix are looked for, among those whose first byte is from `low` on and below `high`.
/// None where none of them can have the prefix.
fn start_of(alloc: Global, prefix: &[u8], low: u8, high: u8) -> Result<Option<Bytes>, AllocError>
    requires { IsNameRange low high }
    ensures { IfOk result (StartsAt prefix.now low high) }
{
    if prefix.len() > LONGEST_NAME {
        return Ok(None);
    }
    match prefix.first() {
        None => Ok(Some(Bytes::short(&[low]))),
        Some(&first) => {
            if first < low || high <= first {
                return Ok(None);
            }
            let start = Bytes::of(alloc, prefix)?;
            Ok(Some(start))
        }
    }
}

/// The least row behind one of these bytes.
fn behind(alloc: Global, bytes: &[u8]) -> Result<Bytes, AllocError>
    requires { length bytes.now ≤ 255 }
    ensures { IfOk result (λ next. next ≡ bytes.now ++ 0 ∷ []) }
{
    let mut next = Vec::from_slice(alloc, bytes)?;
    next.push(0)?;
    Bytes::of(alloc, next.as_slice())
}

/// Whether bytes begin with others.
fn has_prefix(bytes: &[u8], prefix: &[u8]) -> bool
    ensures has { result ≡ true → HasPrefix prefix.now bytes.now }
    ensures all { HasPrefix prefix.now bytes.now → result ≡ true }
{
    bytes.starts_with(prefix)
}

/// Adds the name of a row that was found, where it has the prefix and a cell of the kind. The answer is the row behind it, or None
/// where it hasn't the prefix.
fn take(
    alloc: Global,
    kind: Kind,
    prefix: &[u8],
    found: &Found,
    names: &mut Vec<Name>,
) -> Result<Option<Bytes>, RowsFault>
    requires { IsName found.now.row.bytes }
    ensures { Takes kind prefix.now found.now names.old.items result names.new.items }
{
    let bytes = found.row.bytes.list();
    if !has_prefix(bytes, prefix) {
        return Ok(None);
    }
    if found.cells.value_at(qualifier_bytes(kind)).is_some() {
        let name = name_from(alloc, bytes)?;
        names.push(name)?;
    }
    let next = behind(alloc, bytes)?;
    Ok(Some(next))
}

/// Looks for the next row with the prefix from one on and before names that begin with `high`. The answer is the row behind the one
/// that was found, or None where the range has no other with the prefix.
fn turn<R: Rows>(
    rows: &mut R,
    alloc: Global,
    kind: Kind,
    prefix: &[u8],
    from: &Bytes,
    high: u8,
    names: &mut Vec<Name>,
) -> Result<Option<Bytes>, RowsFault>
    requires range { InOneRange (R.seen rows.old).base.widths Ids from.now (high ∷ []) }
    requires on { bytes_cmp (0 ∷ []) from.now ≡ Less }
    requires at { is_lt (bytes_cmp (high ∷ []) from.now) ≡ false }
    requires above { is_lt (bytes_cmp from.now prefix.now) ≡ false }
    ensures turns { TurnsTo kind prefix.now from.now high names.old.items (R.seen rows.old) result names.new.items (R.seen rows.new) }
    ensures made { MadeSo (R.seen rows.old) AllLooks (R.seen rows.new) }
    ensures stops { CountsStops is_stop result (R.stops rows.old) (R.stops rows.new) }
{
    let to = Bytes::short(&[high]);
    let found = rows.next_row(alloc, Table::Ids, from, &to)?;
    match found {
        None => Ok(None),
        Some(found) => take(alloc, kind, prefix, &found, names),
    }
}

/// Gathers names with the prefix from one row on and before names that begin with `high`, until there are `max`.
fn look_from<R: Rows>(
    rows: &mut R,
    alloc: Global,
    kind: Kind,
    prefix: &[u8],
    max: usize,
    start: Bytes,
    low: u8,
    high: u8,
    names: &mut Vec<Name>,
) -> Result<(), RowsFault>
    requires range { IsNameRange low high }
    requires search { CanSearch prefix.now low high start }
    ensures gathers { OnOk result ((s : Seen) → Gathers s kind prefix.now max start names.old.items (R.seen rows.old) → GathersTo s kind prefix.now max (high ∷ []) names.new.items (R.seen rows.new)) }
    ensures made { MadeSo (R.seen rows.old) AllLooks (R.seen rows.new) }
    ensures stops { CountsStops is_stop result (R.stops rows.old) (R.stops rows.new) }
{
    let mut from = start;
    'search: while names.len() < max {
        let next = turn(rows, alloc, kind, prefix, &from, high, names)?;
        match next {
            None => return Ok(()),
            Some(next) => from = next,
        }
    }
    Ok(())
}

/// Gathers names with the prefix among those whose first byte is from `low` on and below `high`, until there are `max`.
fn look_through<R: Rows>(
    rows: &mut R,
    alloc: Global,
    kind: Kind,
    prefix: &[u8],
    max: usize,
    low: u8,
    high: u8,
    names: &mut Vec<Name>,
) -> Result<(), RowsFault>
    requires { IsNameRange low high }
    ensures gathers { OnOk result (GoesOn kind prefix.now max (low ∷ []) names.old.items (R.seen rows.old) (high ∷ []) names.new.items (R.seen rows.new)) }
    ensures made { MadeSo (R.seen rows.old) AllLooks (R.seen rows.new) }
    ensures stops { CountsStops is_stop result (R.stops rows.old) (R.stops rows.new) }
{
    if names.len() >= max {
        return Ok(());
    }
    match start_of(alloc, prefix, low, high)? {
        Some(start) => look_from(rows, alloc, kind, prefix, max, start, low, high, names),
        None => Ok(()),
    }
}

/// The first names of a kind with a prefix, in byte order, at most `max`.
pub fn suggest_in<R: Rows>(
    rows: &mut R,
    alloc: Global,
    kind: Kind,
    prefix: &[u8],
    max: u32,
) -> Result<Vec<Name>, RowsFault>
    ensures names { IfOk result (λ names. Suggests (R.seen rows.old) kind prefix.now max names.items (R.seen rows.new)) }
    ensures made { MadeSo (R.seen rows.old) AllLooks (R.seen rows.new) }
    ensures stops { CountsStops is_stop result (R.stops rows.old) (R.stops rows.new) }
{
    let mut names = Vec::new(alloc);
    let most = max as usize;
    look_through(rows, alloc, kind, prefix, most, 0x01, 0x41, &mut names)?;
    look_through(rows, alloc, kind, prefix, most, 0x41, 0x61, &mut names)?;
    look_through(rows, alloc, kind, prefix, most, 0x61, 0x6e, &mut names)?;
    look_through(rows, alloc, kind, prefix, most, 0x6e, 0x7b, &mut names)?;
    Ok(names)
}
