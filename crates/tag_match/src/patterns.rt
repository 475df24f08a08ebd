//! Building one pattern.
ghost use Rattle.std.specs.Prelude.{◌≡◌, ◌<◌, false, All, MatchOption, IfOk};
ghost use Rattle.tag_match.specs.Patterns.{is_read, IsRegexOf};

use query_text::queries::PatternText;
use regex::{Error, Regex};
use std::alloc::{AllocError, Global};
use tsd_base::names::Name;

/// The regular expression that a text is, or None where the engine answers a syntax error. One above the engine's limit of memory is
/// want of memory.
#[tactic(auto, using(crate::proofs::Reading::regex_of))]
pub(crate) fn build_pattern(alloc: Global, text: &PatternText) -> Result<Option<Regex>, AllocError>
    ensures { IfOk result (λ made. MatchOption made (is_read text.now ≡ false) (IsRegexOf text.now)) }
{
    match Regex::new(alloc, text.text()) {
        Ok(regex) => Ok(Some(regex)),
        Err(fault) => match fault {
            Error::Syntax(_) => Ok(None),
            _ => Err(AllocError),
        },
    }
}

/// The bytes of a name as text.
#[tactic(auto, using(crate::proofs::AsciiNames::name_is_utf8, crate::proofs::AsciiNames::name_bytes))]
pub(crate) fn name_text(name: &Name) -> &str
    ensures text { result.now ≡ name.now }
    ensures bytes { All (λ b. b < 256) name.now }
{
    match std::str::from_utf8(name.bytes()) {
        Ok(text) => text,
        Err(_) => unreachable!(),
    }
}
