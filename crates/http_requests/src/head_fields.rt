//! The fields of the head of a request.
ghost use Rattle.std.specs.Prelude.{◌≡◌, ◌<◌, map, length, reverse, position, All, IfSome, option_map};
ghost use Rattle.httparse.specs.Spans.{IsHeaderWithin, header_bytes};
ghost use Rattle.httparse.specs.Grammar.{trim_ows, skip_ows, is_ows};
ghost use Rattle.http_requests.specs.HeadFields.{has_field, value_of, all_have, asks_close, has_close, is_alike, is_word_end, FirstWord};

use httparse::spans::HeaderSpan;

/// Whether two texts are the same but for the case of letters.
fn is_alike(a: &[u8], b: &[u8]) -> bool
    ensures { result ≡ is_alike a.now b.now }
{
    a.eq_ignore_ascii_case(b)
}

/// Whether a field has this name.
pub fn has_field(bytes: &[u8], headers: &[HeaderSpan], name: &[u8]) -> bool
    requires { All (IsHeaderWithin (length bytes.now)) headers.now }
    ensures { result ≡ has_field name.now (map (header_bytes bytes.now) headers.now) }
{
    for header in headers {
        if is_alike(header.name.of(bytes), name) {
            return true;
        }
    }
    false
}

/// The value of the first field of this name.
pub fn value_of<'b>(bytes: &'b [u8], headers: &[HeaderSpan], name: &[u8]) -> Option<&'b [u8]>
    requires { All (IsHeaderWithin (length bytes.now)) headers.now }
    ensures { option_map (λ value. value.now) result ≡ value_of name.now (map (header_bytes bytes.now) headers.now) }
{
    for header in headers {
        if is_alike(header.name.of(bytes), name) {
            return Some(header.value.of(bytes));
        }
    }
    None
}

/// Whether every field of this name has this value.
pub fn all_have(bytes: &[u8], headers: &[HeaderSpan], name: &[u8], value: &[u8]) -> bool
    requires { All (IsHeaderWithin (length bytes.now)) headers.now }
    ensures { result ≡ all_have name.now value.now (map (header_bytes bytes.now) headers.now) }
{
    for header in headers {
        if is_alike(header.name.of(bytes), name) && header.value.of(bytes) != value {
            return false;
        }
    }
    true
}

/// Whether a Connection field has the word `close`.
pub fn asks_close(bytes: &[u8], headers: &[HeaderSpan]) -> bool
    requires { All (IsHeaderWithin (length bytes.now)) headers.now }
    ensures { result ≡ asks_close (map (header_bytes bytes.now) headers.now) }
{
    for header in headers {
        if is_alike(header.name.of(bytes), b"connection") && has_close(header.value.of(bytes)) {
            return true;
        }
    }
    false
}

/// Whether a word between the commas is `close`.
fn has_close(value: &[u8]) -> bool
    ensures { result ≡ has_close value.now }
{
    let mut rest = value;
    loop {
        let (word, behind) = first_word(rest);
        if is_alike(trimmed(word), b"close") {
            return true;
        }
        match behind {
            Some(more) => rest = more,
            None => return false,
        }
    }
}

/// What stands before the first comma, or all, and what stands behind it, if there is one.
fn first_word(text: &[u8]) -> (&[u8], Option<&[u8]>)
    ensures words { FirstWord text.now result.0.now (option_map (λ rest. rest.now) result.1) }
    ensures shorter { IfSome result.1 (λ rest. length rest.now < length text.now) }
{
    match comma_place(text) {
        Some(at) => (&text[..at], Some(&text[at + 1..])),
        None => (text, None),
    }
}

/// The place of the first comma.
fn comma_place(text: &[u8]) -> Option<usize>
    ensures { result ≡ position is_word_end text.now }
{
    text.iter().position(|b| *b == b',')
}

/// Without spaces and tabs at both ends.
#[tactic(auto, unfolding(httparse::specs::Grammar::trim_ows))]
fn trimmed(word: &[u8]) -> &[u8]
    ensures { result.now ≡ trim_ows word.now }
{
    ended(begun(word))
}

/// Without spaces and tabs at the front.
fn begun(word: &[u8]) -> &[u8]
    ensures { result.now ≡ skip_ows word.now }
{
    let mut rest = word;
    while let Some((first, behind)) = rest.split_first() {
        if !is_blank(*first) {
            return rest;
        }
        rest = behind;
    }
    rest
}

/// Without spaces and tabs at the end.
fn ended(word: &[u8]) -> &[u8]
    ensures { result.now ≡ reverse (skip_ows (reverse word.now)) }
{
    let mut rest = word;
    while let Some((last, front)) = rest.split_last() {
        if !is_blank(*last) {
            return rest;
        }
        rest = front;
    }
    rest
}

fn is_blank(byte: u8) -> bool
    ensures { result ≡ is_ows byte }
{
    byte == b' ' || byte == b'\t'
}
