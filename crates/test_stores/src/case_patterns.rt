//! Which new names a case allows.

use short_bytes::short::Bytes;
use std::alloc::Global;
use test_readers::case_lines::Line;
use test_readers::text::{Bad, bytes, first_word, kind};
use tsd_base::kinds::Kind;
use tsd_hooks::Patterns;

/// The pattern for names of a kind: what the last line `allow KIND PATTERN` of this kind says, if there is one.
fn pattern_of(alloc: Global, lines: &[Line<'_>], of: Kind) -> Result<Option<Bytes>, Bad> {
    let mut pattern = None;
    for line in lines {
        if line.verb == "allow" {
            let (word, text) = first_word(line.rest);
            if kind(word)? == of {
                let text = bytes(alloc, text)?;
                pattern = Some(Bytes::of(alloc, text.as_slice())?);
            }
        }
    }
    Ok(pattern)
}

/// The patterns of a case, by its lines `allow KIND PATTERN`.
pub fn patterns_of(alloc: Global, lines: &[Line<'_>]) -> Result<Patterns, Bad> {
    Ok(Patterns {
        metric: pattern_of(alloc, lines, Kind::Metric)?,
        tag_key: pattern_of(alloc, lines, Kind::TagKey)?,
        tag_value: pattern_of(alloc, lines, Kind::TagValue)?,
    })
}
