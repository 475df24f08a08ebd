//! How many ids of metrics were given.
ghost use Rattle.std.specs.Prelude.{◌≡◌, ℕ, ◌^◌, ◌<◌, List, length, true, None, Some, IfOk};
ghost use Rattle.std.specs.Int.{w64, from_be_bytes};
ghost use Rattle.tsd_base.specs.declared.kinds.Kind.TheVariants.{Metric};
ghost use Rattle.cell_model.specs.Calls.{Leaves};
ghost use Rattle.cell_model.specs.Machine.{counter_row, kind_qual};
ghost use Rattle.cell_model.specs.Store.{value_among};
ghost use Rattle.cell_model.specs.Stops.{is_stop};
ghost use Rattle.import_job.specs.Changes.{Changes, CountsMetrics};

use cell_model::answers::RowsFault;
use cell_model::row::{Cells, Row};
use cell_model::rows::Rows;
use qual_codec::Bytes;
use row_key::Table;
use std::alloc::Global;

/// How many ids of metrics were given: the number in their counter.
pub(crate) fn metric_count<R: Rows>(alloc: Global, rows: &mut R) -> Result<u32, RowsFault>
    requires alone { (R.seen rows.old).alone ≡ true }
    ensures counts { IfOk result (λ count. Changes (CountsMetrics count) (R.seen rows.old) (R.seen rows.new)) }
    ensures leaves { Leaves is_stop result (R.seen rows.new) (R.stops rows.old) (R.stops rows.new) }
{
    let row = counters();
    let cells = rows.read(alloc, &row)?;
    Ok(count_in(&cells))
}

/// The row of the counters.
fn counters() -> Row
    ensures { result ≡ counter_row }
{
    Row {
        table: Table::Ids,
        bytes: Bytes::short([0].as_slice()),
    }
}

/// The number in the counter of metrics among the cells of the counters' row, 0 where there is none.
fn count_in(cells: &Cells) -> u32
    ensures some { (value : List ℕ) → value_among cells.now (kind_qual Metric) ≡ Some value → length value ≡ 8 → from_be_bytes w64 value < 2 ^ 32 → result ≡ from_be_bytes w64 value }
    ensures none { value_among cells.now (kind_qual Metric) ≡ None → result ≡ 0 }
{
    match cells.value_at(b"metrics".as_slice()) {
        Some(value) => number_of(value),
        None => 0,
    }
}

/// The number of eight bytes, the highest first, where it has four.
fn number_of(value: &[u8]) -> u32
    ensures { length value.now ≡ 8 → from_be_bytes w64 value.now < 2 ^ 32 → result ≡ from_be_bytes w64 value.now }
{
    let [a, b, c, d, e, f, g, h] = value else {
        return 0;
    };
    u32::try_from(u64::from_be_bytes([*a, *b, *c, *d, *e, *f, *g, *h])).unwrap_or(u32::MAX)
}
