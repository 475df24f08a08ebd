//! What the entries of a history showed.
ghost use Rattle.std.specs.Prelude.{◌≡◌, IfSome, IsTrue, Contains};
ghost use Rattle.cell_model.specs.Seen.{Seen, KnowsCell};
ghost use Rattle.test_rows.specs.declared.fact.Fact.TheVariants.{Claim, Given};
ghost use Rattle.test_rows.specs.Facts.{AllHold, Holds, IsShown, ShowsValue, ShowsAll, ShowsBump, ShowsClaim, ShowsFound};

use cell_model::{Bumped, Cells, Claimed, Found, Row};
use qual_codec::Bytes;
use std::alloc::Global;
use tsd_base::kinds::Kind;

/// What an entry of the history showed, whoever made it.
#[derive(Drop)]
pub enum Fact {
    /// The row had a cell of this qualifier with this value; where it was read, with this version.
    Cell {
        row: Row,
        qual: Bytes,
        value: Bytes,
        version: Option<u64>,
    },
    /// The cell was absent, and was claimed with this value.
    Claim {
        row: Row,
        qual: Bytes,
        value: Bytes,
    },
    /// The caller was given this id.
    Given {
        caller: u8,
        kind: Kind,
        id: u32,
    },
}

/// The value that a fact shows at a qualifier of a row.
fn value_in<'a>(fact: &'a Fact, row: &Row, qual: &[u8]) -> Option<&'a [u8]>
    ensures { IfSome result (λ value. ShowsValue fact.now row.now qual.now value.now) }
{
    match fact {
        Fact::Cell {
            row: of,
            qual: at,
            value,
            ..
        } if *of == *row && at.list() == qual => Some(value.list()),
        _ => None,
    }
}

/// The value that was last shown at a qualifier of a row.
pub fn last_value<'a>(facts: &'a [Fact], row: &Row, qual: &[u8]) -> Option<&'a [u8]>
    ensures { IfSome result (λ value. IsShown facts.now row.now qual.now value.now) }
{
    for fact in facts.iter().rev() {
        if let Some(value) = value_in(fact, row, qual) {
            return Some(value);
        }
    }
    None
}

/// The version that was last read at a qualifier of a row.
pub fn last_version(facts: &[Fact], row: &Row, qual: &[u8]) -> Option<u64> {
    for fact in facts.iter().rev() {
        if let Fact::Cell {
            row: of,
            qual: at,
            version: Some(version),
            ..
        } = fact
        {
            if *of == *row && at.list() == qual {
                return Some(*version);
            }
        }
    }
    None
}

/// Whether the caller was given the id.
pub fn was_given(facts: &[Fact], caller: u8, kind: Kind, id: u32) -> bool
    ensures { IsTrue result → Contains facts.now (Given caller kind id) }
{
    for fact in facts {
        if let Fact::Given {
            caller: to,
            kind: of,
            id: number,
        } = fact
        {
            if *to == caller && *of == kind && *number == id {
                return true;
            }
        }
    }
    false
}

/// Whether the cell was claimed with this value.
pub fn was_claimed(facts: &[Fact], row: &Row, qual: &[u8], value: &[u8]) -> bool
    ensures { IsTrue result → Contains facts.now (Claim row.now qual.now value.now) }
{
    for fact in facts {
        if let Fact::Claim {
            row: of,
            qual: at,
            value: with,
        } = fact
        {
            if *of == *row && at.list() == qual && with.list() == value {
                return true;
            }
        }
    }
    false
}

/// Notes a fact, where there is memory for it.
fn note(facts: &mut Vec<Fact>, fact: Fact)
    ensures { (s : Seen) → AllHold s facts.old.items → Holds s fact → AllHold s facts.new.items }
{
    let _ = facts.push(fact);
}

/// Notes a cell of a row, where there is memory for it.
pub fn note_cell(
    facts: &mut Vec<Fact>,
    alloc: Global,
    row: &Row,
    qual: &[u8],
    value: &[u8],
    version: Option<u64>,
)
    ensures { (s : Seen) → AllHold s facts.old.items → KnowsCell s row.now qual.now value.now → AllHold s facts.new.items }
{
    let (Ok(row), Ok(qual), Ok(value)) = (
        row.again(alloc),
        Bytes::of(alloc, qual),
        Bytes::of(alloc, value),
    ) else {
        return;
    };
    note(
        facts,
        Fact::Cell {
            row,
            qual,
            value,
            version,
        },
    );
}

/// Notes the cells that a row was read with, where there is memory for them.
pub fn note_cells(facts: &mut Vec<Fact>, alloc: Global, row: &Row, cells: &Cells)
    ensures { (s : Seen) → AllHold s facts.old.items → ShowsAll s row.now cells.now → AllHold s facts.new.items }
{
    for i in 0..cells.len() {
        let cell = cells.cell(i);
        if let Some(value) = cells.value_at(cell.qual) {
            note_cell(facts, alloc, row, cell.qual, value, Some(cell.version));
        }
    }
}

/// Notes the row that was found, if any, where there is memory for its cells.
pub fn note_found(facts: &mut Vec<Fact>, alloc: Global, found: &Option<Found>)
    ensures { (s : Seen) → AllHold s facts.old.items → ShowsFound s found.now → AllHold s facts.new.items }
{
    if let Some(found) = found {
        note_cells(facts, alloc, &found.row, &found.cells);
    }
}

/// Notes the id that a caller was given, if any, where there is memory for that.
pub fn note_bump(facts: &mut Vec<Fact>, caller: u8, kind: Kind, bumped: Bumped)
    ensures { (s : Seen) → AllHold s facts.old.items → ShowsBump s caller kind bumped → AllHold s facts.new.items }
{
    if let Bumped::Given { id } = bumped {
        note(facts, Fact::Given { caller, kind, id });
    }
}

/// Notes what a claim showed, where there is memory for it.
pub fn note_claim(
    facts: &mut Vec<Fact>,
    alloc: Global,
    row: &Row,
    qual: &Bytes,
    value: &Bytes,
    claimed: &Claimed,
)
    ensures { (s : Seen) → AllHold s facts.old.items → ShowsClaim s row.now qual.now value.now claimed.now → AllHold s facts.new.items }
{
    match claimed {
        Claimed::Held { value: held } => note_cell(
            facts,
            alloc,
            row,
            qual.list(),
            held.list(),
            None,
        ),
        Claimed::Done => {
            note_done(facts, alloc, row, qual, value);
            note_cell(facts, alloc, row, qual.list(), value.list(), None);
        }
    }
}

/// Notes that a cell was claimed, where there is memory for it.
fn note_done(facts: &mut Vec<Fact>, alloc: Global, row: &Row, qual: &Bytes, value: &Bytes)
    ensures { (s : Seen) → AllHold s facts.old.items → Holds s (Claim row.now qual.now value.now) → AllHold s facts.new.items }
{
    let (Ok(row), Ok(qual), Ok(value)) = (row.again(alloc), qual.again(alloc), value.again(alloc))
    else {
        return;
    };
    note(facts, Fact::Claim { row, qual, value });
}
