//! The texts of `wildcard(..)` and `regexp(..)`.
ghost use Rattle.std.specs.Prelude.{◌≡◌, true};
ghost use Rattle.std.specs.List.{list_all, list_any};
ghost use Rattle.query_text.specs.TestTexts.{is_pattern_byte, is_pattern_text, is_star, is_wild_byte, is_wild_text};

use tsd_base::names::LONGEST_NAME;

/// Whether these are 1 to 255 bytes of the alphabet of names and `*`, with at least one `*`.
pub(crate) fn is_wild_text(text: &[u8]) -> bool
    ensures { result ≡ is_wild_text text.now }
{
    text.len() <= LONGEST_NAME && are_wild_bytes(text) && has_star(text)
}

fn are_wild_bytes(text: &[u8]) -> bool
    ensures { result ≡ list_all is_wild_byte text.now }
{
    text.iter().all(|b| is_wild_byte(*b))
}

fn has_star(text: &[u8]) -> bool
    ensures { result ≡ list_any is_star text.now }
{
    text.iter().any(|b| *b == b'*')
}

fn is_wild_byte(b: u8) -> bool
    ensures { result ≡ is_wild_byte b }
{
    matches!(b, b'a'..=b'z' | b'A'..=b'Z' | b'0'..=b'9' | b'-' | b'_' | b'.' | b'/' | b'*')
}

/// Whether these are 1 to 255 bytes from a space to `~`, without `,`, `{` and `}`.
pub(crate) fn is_pattern_text(text: &[u8]) -> bool
    ensures { result ≡ is_pattern_text text.now }
{
    1 <= text.len() && text.len() <= LONGEST_NAME && are_pattern_bytes(text)
}

fn are_pattern_bytes(text: &[u8]) -> bool
    ensures { result ≡ list_all is_pattern_byte text.now }
{
    text.iter().all(|b| is_pattern_byte(*b))
}

fn is_pattern_byte(b: u8) -> bool
    ensures { result ≡ is_pattern_byte b }
{
    matches!(b, b' '..=b'~') && !matches!(b, b',' | b'{' | b'}')
}

/// Bytes below 128 as text.
#[tactic(auto, using(crate::proofs::AsciiTexts::pattern_is_utf8))]
pub(crate) fn ascii_text(bytes: &[u8]) -> &str
    requires { list_all is_pattern_byte bytes.now ≡ true }
    ensures { result.now ≡ bytes.now }
{
    match std::str::from_utf8(bytes) {
        Ok(text) => text,
        Err(_) => unreachable!(),
    }
}
