//! The texts of times, and values by them.
ghost use Rattle.std.specs.Prelude.{◌≡◌, IfOk};
ghost use Rattle.json_reply.specs.Texts.{keyed, time_text};

use itoa::Buffer;
use short_bytes::short::Bytes;
use std::alloc::{AllocError, Global};
use std::collections::BTreeMap;

/// The text of a time of milliseconds, in milliseconds or in seconds.
#[inline]
pub fn time_text(alloc: Global, ms: bool, time: u64) -> Result<Bytes, AllocError>
    ensures { IfOk result (λ text. text ≡ time_text ms time) }
{
    let number = if ms { time } else { time / 1000 };
    Bytes::of(alloc, Buffer::new().format(number).as_bytes())
}

/// The values by the texts of their times. Of two with one text the first is kept.
pub fn keyed(
    alloc: Global,
    ms: bool,
    dots: &[(u64, i64)],
) -> Result<BTreeMap<Bytes, i64>, AllocError>
    ensures { IfOk result (λ map. map.entries ≡ keyed ms dots.now) }
{
    let mut keyed = BTreeMap::new(alloc);
    for (time, value) in dots.iter().rev() {
        keyed.insert(time_text(alloc, ms, *time)?, *value)?;
    }
    Ok(keyed)
}
