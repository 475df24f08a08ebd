//! The lines of a row, given to a sink or waiting to be given together.
ghost use Rattle.std.specs.Prelude.{◌≡◌, ◌++◌, [], OnErr, OnOk};
ghost use Rattle.listing_dump.specs.Gifts.{Gives, GivesSome, IsCaused};
ghost use Rattle.listing_dump.specs.RowPoints.{dot_text, row_text};

use crate::dump::DumpFault;
use crate::point_text::push_dot;
use qual_codec::Dot;
use tsd_io::give_all::give_all;
use tsd_io::ports::Sink;

/// From so many bytes on they are given.
const MOST_WAITING: usize = 65_536;

/// Gives all that waits.
pub fn give_waiting<K: Sink>(output: &mut K, waiting: &mut Vec<u8>) -> Result<(), DumpFault>
    ensures ok { OnOk result (Gives (K.held output.old) (K.held output.new) waiting.old.items waiting.new.items) }
    ensures none { OnOk result (waiting.new.items ≡ []) }
    ensures err { OnErr result (GivesSome (K.held output.old) (K.held output.new) waiting.old.items) }
    ensures caused { IsCaused (K.faults output.old) (K.faults output.new) result }
{
    give_all(output, waiting.as_slice())?;
    waiting.clear();
    Ok(())
}

/// Gives what waits, if it is much.
fn give_much<K: Sink>(output: &mut K, waiting: &mut Vec<u8>) -> Result<(), DumpFault>
    ensures ok { OnOk result (Gives (K.held output.old) (K.held output.new) waiting.old.items waiting.new.items) }
    ensures err { OnErr result (GivesSome (K.held output.old) (K.held output.new) waiting.old.items) }
    ensures caused { IsCaused (K.faults output.old) (K.faults output.new) result }
{
    if waiting.len() < MOST_WAITING {
        return Ok(());
    }
    give_waiting(output, waiting)
}

/// Gives the line of a data point behind what waits, or lets it wait.
fn give_dot<K: Sink>(
    output: &mut K,
    waiting: &mut Vec<u8>,
    metric: &[u8],
    base: u32,
    tail: &[u8],
    dot: &Dot,
) -> Result<(), DumpFault>
    ensures ok { OnOk result (Gives (K.held output.old) (K.held output.new) (waiting.old.items ++ dot_text metric.now base tail.now dot.now) waiting.new.items) }
    ensures err { OnErr result (GivesSome (K.held output.old) (K.held output.new) (waiting.old.items ++ dot_text metric.now base tail.now dot.now)) }
    ensures caused { IsCaused (K.faults output.old) (K.faults output.new) result }
{
    push_dot(waiting, metric, base, tail, dot)?;
    give_much(output, waiting)
}

/// Gives the lines of a row's data points behind what waits; the last ones may wait.
pub fn give_row<K: Sink>(
    output: &mut K,
    waiting: &mut Vec<u8>,
    metric: &[u8],
    base: u32,
    tail: &[u8],
    dots: &[Dot],
) -> Result<(), DumpFault>
    ensures ok { OnOk result (Gives (K.held output.old) (K.held output.new) (waiting.old.items ++ row_text metric.now base tail.now dots.now) waiting.new.items) }
    ensures err { OnErr result (GivesSome (K.held output.old) (K.held output.new) (waiting.old.items ++ row_text metric.now base tail.now dots.now)) }
    ensures caused { IsCaused (K.faults output.old) (K.faults output.new) result }
{
    for dot in dots {
        give_dot(output, waiting, metric, base, tail, dot)?;
    }
    Ok(())
}
