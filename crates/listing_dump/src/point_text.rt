//! Points as lines of text.
ghost use Rattle.std.specs.Prelude.{◌≡◌, ◌∷◌, ◌++◌, ◌<◌, ◌≤◌, length, replicate, OnOk, All};
ghost use Rattle.tsd_hooks.specs.PointText.{padded, time_text};
ghost use Rattle.listing_dump.specs.RowPoints.{dot_text, row_at, tail_of};

use cell_model::ListLine;
use itoa::Buffer;
use qual_codec::Dot;
use std::alloc::AllocError;
use tsd_base::decimals::{write_number, write_signed};

/// Adds so many zeros. It fails only for want of memory.
fn push_zeros(text: &mut Vec<u8>, count: usize) -> Result<(), AllocError>
    requires { count ≤ 10 }
    ensures { OnOk result (text.new.items ≡ text.old.items ++ replicate count 48) }
{
    let len = text.len() + count;
    text.resize(len, b'0')
}

/// Adds a number in so many digits, with zeros in front. It fails only for want of memory.
fn push_padded(text: &mut Vec<u8>, count: usize, number: u64) -> Result<(), AllocError>
    requires { count ≤ 10 }
    ensures { OnOk result (text.new.items ≡ text.old.items ++ padded count number) }
{
    let mut buffer = Buffer::new();
    let digits = buffer.format(number).as_bytes();
    push_zeros(text, count.saturating_sub(digits.len()))?;
    text.extend_from_slice(digits)
}

/// Adds a time: its seconds, or ten digits of seconds and three of milliseconds. It fails only for want of memory.
pub(crate) fn push_time(text: &mut Vec<u8>, time: u64, fine: bool) -> Result<(), AllocError>
    ensures { OnOk result (text.new.items ≡ text.old.items ++ time_text time fine) }
{
    if !fine {
        return write_number(time / 1000, text);
    }
    push_padded(text, 10, time / 1000)?;
    text.push(b'.')?;
    push_padded(text, 3, time % 1000)
}

/// Adds the line of a data point, of a row with this metric and this hour; the tail has the tags and LF. It fails only for want of memory.
pub fn push_dot(
    text: &mut Vec<u8>,
    metric: &[u8],
    base: u32,
    tail: &[u8],
    dot: &Dot,
) -> Result<(), AllocError>
    ensures { OnOk result (text.new.items ≡ text.old.items ++ dot_text metric.now base tail.now dot.now) }
{
    text.extend_from_slice(metric)?;
    text.push(b' ')?;
    push_time(
        text,
        base as u64 * 1000 + dot.item.offset as u64,
        dot.item.fine,
    )?;
    text.push(b' ')?;
    write_signed(dot.value, text)?;
    text.extend_from_slice(tail)
}

/// Adds a tag behind a space. It fails only for want of memory.
pub(crate) fn push_tag(text: &mut Vec<u8>, key: &[u8], value: &[u8]) -> Result<(), AllocError>
    ensures { OnOk result (text.new.items ≡ text.old.items ++ 32 ∷ (key.now ++ 61 ∷ value.now)) }
{
    text.push(b' ')?;
    text.extend_from_slice(key)?;
    text.push(b'=')?;
    text.extend_from_slice(value)
}

/// The row of a line, which of a line of ids is a name.
pub fn row_at(cells: &[ListLine], line: u32) -> &[u8]
    requires { line < length cells.now }
    ensures { result.now ≡ row_at cells.now line }
{
    cells[line as usize].row.list()
}

/// Adds tags, whose names stand on these lines, and LF. It fails only for want of memory.
pub fn push_tail(
    text: &mut Vec<u8>,
    cells: &[ListLine],
    tags: &[(u32, u32)],
) -> Result<(), AllocError>
    requires { All (λ r. (r.0 < length cells.now) × (r.1 < length cells.now)) tags.now }
    ensures { OnOk result (text.new.items ≡ text.old.items ++ tail_of cells.now tags.now) }
{
    for tag in tags {
        push_tag(text, row_at(cells, tag.0), row_at(cells, tag.1))?;
    }
    text.push(b'\n')?;
    Ok(())
}
