//! The parts of a text that may be a point.
ghost use Rattle.std.specs.Prelude.{IfSome};
ghost use Rattle.tsd_base.specs.TextParts.{HasTextParts};

use crate::times::read_time;
use crate::values::read_value;
use crate::words::next_word;

/// The parts of a text whose second word is a time and whose third one is a value.
#[derive(Clone, Copy)]
pub struct TextParts<'a> {
    /// The first word.
    pub metric: &'a [u8],

    /// What stands behind the value.
    pub tags: &'a [u8],

    /// In milliseconds since 1970.
    pub time: u64,

    /// Whether the time was given in milliseconds.
    pub fine: bool,

    /// The value.
    pub value: i64,
}

/// The parts of a text, where its second word is a time and its third one a value. No name in it is read.
#[inline(always)]
pub fn parts_of(text: &[u8]) -> Option<TextParts<'_>>
    ensures { IfSome result (HasTextParts text.now) }
{
    let (metric, rest) = next_word(text)?;
    let (time, rest) = next_word(rest)?;
    let (value, tags) = next_word(rest)?;
    let Ok(moment) = read_time(time) else {
        return None;
    };
    let Ok(value) = read_value(value) else {
        return None;
    };
    Some(TextParts {
        metric,
        tags,
        time: moment.0,
        fine: moment.1,
        value,
    })
}
