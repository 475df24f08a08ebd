//! Ids that were given and that no name has.
ghost use Rattle.std.specs.Prelude.{◌≡◌, ◌≤◌, ◌^◌, ◌<◌};
ghost use Rattle.std.specs.List.{list_any};
ghost use Rattle.cell_model.specs.Machine.{kind_qual};
ghost use Rattle.weave_script.specs.WovenCounts.{has_id, wasted_of};

use cell_model::{ListLine, width_of};
use row_key::{Table, Widths, id_bytes};
use tsd_base::kinds::Kind;

/// The bytes of the qualifier of a kind's cells.
fn qualifier(kind: Kind) -> &'static [u8]
    ensures { result.now ≡ kind_qual kind }
{
    match kind {
        Kind::Metric => b"metrics",
        Kind::TagKey => b"tagk",
        Kind::TagValue => b"tagv",
    }
}

/// Whether a line gives the id of these bytes to a name, by a cell of this qualifier.
fn has_id(line: &ListLine, qual: &[u8], id: &[u8]) -> bool
    ensures { result ≡ has_id qual.now id.now line.now }
{
    match line.table {
        Table::Ids => line.qual.list() == qual && line.value.list() == id,
        _ => false,
    }
}

/// Whether one of the lines does.
fn is_named(lines: &[ListLine], qual: &[u8], id: &[u8]) -> bool
    ensures { result ≡ list_any (has_id qual.now id.now) lines.now }
{
    lines.iter().any(|line| has_id(line, qual, id))
}

/// How many of the ids of a kind from 1 up to its counter no name has.
pub(crate) fn wasted_of(lines: &[ListLine], widths: Widths, kind: Kind, counter: u64) -> u64
    requires { counter < 2 ^ 32 }
    ensures count { result ≡ wasted_of lines.now widths kind counter }
    ensures most { result ≤ counter }
{
    let qual = qualifier(kind);
    let width = width_of(kind, widths);
    let mut wasted = 0;
    for earlier in 0..counter {
        let id = id_bytes(earlier as u32 + 1, width);
        if !is_named(lines, qual, id.as_slice()) {
            wasted += 1;
        }
    }
    wasted
}
