//! The line of a point.
ghost use Rattle.std.specs.Prelude.{◌≡◌, ◌∷◌, ◌++◌, IfOk, OnOk};
ghost use Rattle.std.specs.Fmt.{signed_decimal};
ghost use Rattle.tsd_base.specs.Points.{data_point};
ghost use Rattle.tsd_hooks.specs.PointText.{point_text, tags_text, time_text};

use crate::point_text::{push_tag, push_time};
use std::alloc::{AllocError, Global};
use tsd_base::decimals::write_signed;
use tsd_base::names::Name;
use tsd_base::points::Point;

/// The most bytes that a time, a value, the spaces before them and LF take.
const READING: usize = 48;

/// For how many bytes there is to be room, so that a point's line fits.
fn room_for(point: &Point) -> usize {
    let mut room = point.metric.bytes().len().saturating_add(READING);
    for pair in point.tags.pairs() {
        let tag = pair.0.bytes().len().saturating_add(pair.1.bytes().len());
        room = room.saturating_add(tag).saturating_add(2);
    }
    room
}

/// The line of a point, with LF, as a dump has it. It fails only for want of memory.
pub fn point_line(alloc: Global, point: &Point) -> Result<Vec<u8>, AllocError>
    ensures { IfOk result (λ text. text.items ≡ point_text (data_point point.now)) }
{
    let mut text = Vec::with_capacity(alloc, room_for(point))?;
    text.extend_from_slice(point.metric.bytes())?;
    push_reading(&mut text, point.time, point.fine, point.value)?;
    push_tags(&mut text, point.tags.pairs())?;
    text.push(b'\n')?;
    Ok(text)
}

/// Adds a time and a value, each behind a space. It fails only for want of memory.
fn push_reading(text: &mut Vec<u8>, time: u64, fine: bool, value: i64) -> Result<(), AllocError>
    ensures { OnOk result (text.new.items ≡ text.old.items ++ 32 ∷ (time_text time fine ++ 32 ∷ signed_decimal value)) }
{
    text.push(b' ')?;
    push_time(text, time, fine)?;
    text.push(b' ')?;
    write_signed(value, text)
}

/// Adds tags, each behind a space. It fails only for want of memory.
fn push_tags(text: &mut Vec<u8>, pairs: &[(Name, Name)]) -> Result<(), AllocError>
    ensures { OnOk result (text.new.items ≡ text.old.items ++ tags_text pairs.now) }
{
    for pair in pairs {
        push_tag(text, pair.0.bytes(), pair.1.bytes())?;
    }
    Ok(())
}
