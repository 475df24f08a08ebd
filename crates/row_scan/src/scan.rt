//! Scans over the rows of one metric.
ghost use Rattle.std.specs.Prelude.{◌≡◌, ◌++◌, ◌∷◌, [], ◌≤◌, false, length, OnOk, OnErr};
ghost use Rattle.std.specs.Ordering.{is_lt};
ghost use Rattle.row_key.specs.Key.{IsKey, hour_bytes, key_bytes, most_ids};
ghost use Rattle.cell_model.specs.Ranges.{SameMetric};
ghost use Rattle.cell_model.specs.Seen.{IsPossible};
ghost use Rattle.cell_model.specs.Stops.{is_stop};
ghost use Rattle.cell_model.specs.Calls.{Leaves};
ghost use Rattle.list_lemmas.specs.BytesOrder.{bytes_cmp};
ghost use Rattle.row_scan.specs.Scans.{IsStart, Left, MadeSo, TurnMade, after_turn, left_at};

use arrayvec::ArrayVec;
use cell_model::{Found, Rows, RowsFault};
use qual_codec::Bytes;
use row_key::{RowKey, Table, Widths, id_bytes, write_key};
use std::alloc::Global;
use std::marker::Model;

/// The longest key of a point row has 72 bytes, and a scan goes on one byte behind it.
const LONGEST_START: usize = 73;

/// What is left of a scan over the rows of one metric, in a range of hours.
///
/// Contracts see it as the widths of the rows' ids, and the bytes at which the rows that are left begin and end.
#[derive(Drop)]
pub struct Scan {
    widths: Widths,
    from: ArrayVec<u8, LONGEST_START>,
    to: Bytes,
}

impl Model for Scan {
    ghost use Rattle.row_scan.specs.Scans.{Left};
    ghost use Rattle.cell_model.specs.Ranges.{SameMetric};

    ghost Value = { Left };

    ghost view = { λ s. record { widths = s.widths; from = s.from.items; to = s.to } };

    ghost invariant = { λ s. SameMetric s.widths s.from.items s.to };
}

/// These bytes, which fit.
fn held(bytes: &[u8]) -> ArrayVec<u8, LONGEST_START>
    requires { length bytes.now ≤ 73 }
    ensures { result.items ≡ bytes.now }
{
    let mut held = ArrayVec::new();
    let _ = held.try_extend_from_slice(bytes);
    held
}

/// The bytes with which the rows of a metric and an hour begin.
fn hour_start(metric: u32, base: u32, widths: Widths) -> ArrayVec<u8, LONGEST_START>
    ensures bytes { result.items ≡ hour_bytes widths metric base }
    ensures short { length result.items ≤ 8 }
{
    let id = id_bytes(metric, widths.metric);
    let mut start = held(id.as_slice());
    let _ = start.try_extend_from_slice(base.to_be_bytes().as_slice());
    start
}

impl Scan {
    /// A scan over the rows of a metric in the hours that begin at the seconds from `first_base` to `last_base`, both included, in a
    /// store whose ids have these widths.
    pub fn start(metric: u32, first_base: u32, last_base: u32, widths: Widths) -> Scan
        ensures widths { result.widths ≡ widths }
        ensures starts { metric ≤ most_ids widths.metric → IsStart widths metric first_base last_base result }
    {
        // A second behind the last hour will do: the next hour may have no number.
        let end = last_base.saturating_add(1);
        let end_row = hour_start(metric, end, widths);
        Scan {
            widths,
            from: hour_start(metric, first_base, widths),
            to: Bytes::short(end_row.as_slice()),
        }
    }

    /// How many bytes the ids of each kind have in the rows.
    pub fn widths(&self) -> Widths
        ensures { result ≡ self.now.widths }
    {
        self.widths
    }

    /// Goes on behind a row of the same metric.
    fn go_behind(&mut self, row: &[u8])
        requires short { length row.now ≤ 72 }
        requires metric { SameMetric self.old.widths row.now self.old.to }
        ensures { self.new ≡ left_at self.old (row.now ++ 0 ∷ []) }
    {
        self.from = held(row);
        self.from.push(0);
    }

    /// Goes on at the row of this key, of the same metric and not before what is left: the rows in between are passed over. It makes no
    /// step.
    pub fn skip_to(&mut self, key: &RowKey)
        requires key { IsKey self.old.widths key.now }
        requires metric { SameMetric self.old.widths (key_bytes self.old.widths key.now) self.old.from }
        requires forward { is_lt (bytes_cmp (key_bytes self.old.widths key.now) self.old.from) ≡ false }
        ensures { self.new ≡ left_at self.old (key_bytes self.old.widths key.now) }
    {
        let row = write_key(key, self.widths);
        self.from = held(row.as_slice());
    }

    /// The next row with its cells, or None where no more is left. It makes one `next_row`. The ids of the rows have the widths that the
    /// scan was started with.
    ///
    /// After a fault nothing was made, and the scan may go on: `OutOfMemory` for want of memory, `Stopped` where the step was stopped.
    pub fn turn<R: Rows>(&mut self, alloc: Global, rows: &mut R) -> Result<Option<Found>, RowsFault>
        requires { self.old.widths ≡ (R.seen rows.old).base.widths }
        ensures made { MadeSo (R.seen rows.old) (TurnMade self.old result) (R.seen rows.new) }
        ensures left { self.new ≡ after_turn self.old result }
        ensures lives { OnErr result (IsPossible (R.seen rows.old) → IsPossible (R.seen rows.new)) }
        ensures leaves { Leaves is_stop result (R.seen rows.new) (R.stops rows.old) (R.stops rows.new) }
        ensures spare { OnOk result (2 ≤ R.spare rows.new) }
    {
        let from = Bytes::of(alloc, self.from.as_slice())?;
        let found = rows.next_row(alloc, Table::Points, &from, &self.to)?;
        if let Some(found) = &found {
            self.go_behind(found.row.bytes.list());
        }
        Ok(found)
    }
}
