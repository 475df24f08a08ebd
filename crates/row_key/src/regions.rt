//! Which region of the store has a row.
ghost use Rattle.std.specs.Prelude.{◌≡◌, ◌≤◌};
ghost use Rattle.row_key.specs.Regions.{ids_region, last_byte, metric_byte, name_region, region_number};

use crate::tables::Table;
use crate::widths::Widths;

/// How many regions have counters, names and ids. The data regions are numbered from here on.
pub const NAME_REGIONS: u32 = 9;

/// The most data regions.
pub const MOST_DATA_REGIONS: u32 = 16;

/// The region of a row: 0 for the counters, 1 to 4 for the other rows of `Ids` by the name's first byte, 5 to 8 for `Names` by the id's last
/// byte, and from [`NAME_REGIONS`] on for `Points` by the last byte of the metric's id. A byte that the row doesn't have counts as 0. There
/// are 1 to [`MOST_DATA_REGIONS`] data regions.
pub fn region_of(table: Table, row: &[u8], data_regions: u32, widths: Widths) -> u32
    requires least { 1 ≤ data_regions }
    requires most { data_regions ≤ MOST_DATA_REGIONS }
    ensures { result ≡ region_number widths data_regions table row.now }
{
    match table {
        Table::Ids => ids_region(row),
        Table::Names => 5 + u32::from(last_byte(row)) % 4,
        Table::Points => NAME_REGIONS + u32::from(metric_byte(row, widths)) % data_regions,
    }
}

/// The region of a name with this first byte.
fn name_region(first: u8) -> u32
    ensures { result ≡ name_region first }
{
    match first {
        0..b'A' => 1,
        b'A'..b'a' => 2,
        b'a'..b'n' => 3,
        _ => 4,
    }
}

fn ids_region(row: &[u8]) -> u32
    ensures { result ≡ ids_region row.now }
{
    match row {
        [] => 1,
        [first] => { if *first == 0 { 0 } else { name_region(*first) } }
        [first, _, ..] => name_region(*first),
    }
}

fn last_byte(row: &[u8]) -> u8
    ensures { result ≡ last_byte row.now }
{
    match row {
        [] => 0,
        [.., last] => *last,
    }
}

fn metric_byte(row: &[u8], widths: Widths) -> u8
    ensures { result ≡ metric_byte widths row.now }
{
    let at = widths.metric as usize - 1;
    if at < row.len() { row[at] } else { 0 }
}
