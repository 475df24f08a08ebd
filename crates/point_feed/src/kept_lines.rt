//! The lines that a feed keeps.
ghost use Rattle.std.specs.Prelude.{◌≡◌, ◌+◌, ◌++◌, ◌≤◌, length, IfOk, OnOk, OnErr};
ghost use Rattle.std.specs.Vec.{vec_capacity};
ghost use Rattle.tsd_base.specs.Points.{data_point};
ghost use Rattle.point_feed.specs.KeptLines.{IsLineUnder, line_count, line_text};

use crate::feed_parts::{PrintsPoints, SelectsPoints};
use cell_model::answers::RowsFault;
use std::alloc::AllocError;
use tsd_base::points::Point;

/// The line of a point, if it passes the rule, with room for it behind the lines that are kept. It fails only for want of memory.
pub fn line_for<G: SelectsPoints, F: PrintsPoints>(
    rule: &G,
    printer: &F,
    point: &Point,
    text: &mut Vec<u8>,
) -> Result<Option<Vec<u8>>, AllocError>
    ensures line { IfOk result (IsLineUnder (G.prefix rule.now) (data_point point.now)) }
    ensures room { IfOk result (λ line. length text.new.items + length (line_text line) ≤ vec_capacity text.new) }
    ensures kept { text.new.items ≡ text.old.items }
{
    if !rule.passes(point) {
        return Ok(None);
    }
    let line = printer.print(point)?;
    text.reserve(line.len())?;
    Ok(Some(line))
}

/// Keeps a line for which there is room, if its step was made.
pub fn keep_made(
    text: &mut Vec<u8>,
    count: &mut u64,
    line: Option<Vec<u8>>,
    made: &Result<(), RowsFault>,
)
    requires room { length text.old.items + length (line_text line) ≤ vec_capacity text.old }
    requires some { line_count line ≤ length (line_text line) }
    requires few { count.old ≤ length text.old.items }
    ensures text { OnOk made.now (text.new.items ≡ text.old.items ++ line_text line) }
    ensures count { OnOk made.now (count.new ≡ count.old + line_count line) }
    ensures text_stays { OnErr made.now (text.new.items ≡ text.old.items) }
    ensures count_stays { OnErr made.now (count.new ≡ count.old) }
{
    if made.is_err() {
        return;
    }
    if let Some(line) = line {
        push_line(text, count, &line);
    }
}

/// Keeps a line for which there is room.
fn push_line(text: &mut Vec<u8>, count: &mut u64, line: &[u8])
    requires room { length text.old.items + length line.now ≤ vec_capacity text.old }
    requires some { 1 ≤ length line.now }
    requires few { count.old ≤ length text.old.items }
    ensures text { text.new.items ≡ text.old.items ++ line.now }
    ensures count { count.new ≡ count.old + 1 }
{
    if text.extend_from_slice(line).is_err() {
        unreachable!();
    }
    *count += 1;
}
