//! The text by which a series came.
ghost use Rattle.std.specs.Prelude.{◌≡◌, true, IfOk, IfSome};
ghost use Rattle.batch_job.specs.SeriesTexts.{IsTextOf};

use guess_table::hash_bytes;
use short_bytes::same_bytes::is_same;
use short_bytes::short::Bytes;
use std::alloc::{AllocError, Global};
use tsd_base::text_parts::TextParts;

/// What tells a series in the text of its points: the metric, what stands behind the value, and the form of the time.
#[derive(Drop)]
pub struct SeriesText {
    metric: Bytes,
    tags: Bytes,
    fine: bool,
}

impl SeriesText {
    /// That of the parts of a text. It fails only for want of memory.
    fn make(alloc: Global, parts: &TextParts<'_>) -> Result<SeriesText, AllocError>
        ensures { IfOk result (IsTextOf parts.now) }
    {
        Ok(SeriesText {
            metric: Bytes::of(alloc, parts.metric)?,
            tags: Bytes::of(alloc, parts.tags)?,
            fine: parts.fine,
        })
    }

    /// Whether it is that of the parts of a text.
    #[inline]
    pub fn is_of(&self, parts: &TextParts<'_>) -> bool
        ensures { result ≡ true → IsTextOf parts.now self.now }
    {
        self.fine == parts.fine
            && is_same(self.tags.list(), parts.tags)
            && is_same(self.metric.list(), parts.metric)
    }
}

/// That of the parts of a text, or nothing for want of memory.
pub fn text_of(alloc: Global, parts: &TextParts<'_>) -> Option<SeriesText>
    ensures { IfSome result (IsTextOf parts.now) }
{
    match SeriesText::make(alloc, parts) {
        Ok(text) => Some(text),
        Err(AllocError) => None,
    }
}

/// A hash of what tells the series in the parts of a text.
#[inline]
pub fn hash_parts(parts: &TextParts<'_>) -> u64 {
    let hash = hash_bytes(parts.metric).rotate_left(23) ^ hash_bytes(parts.tags);
    if parts.fine { !hash } else { hash }
}
