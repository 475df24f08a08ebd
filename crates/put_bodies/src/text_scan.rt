//! What stands at the front of a text of JSON, and what stands behind it.
ghost use Rattle.std.specs.Prelude.{◌≡◌, ◌<◌, ◌≤◌, ◌∷◌, length, position, true, IfSome};
ghost use Rattle.std.specs.List.{position_or_len};
ghost use Rattle.json.specs.Token.{string};
ghost use Rattle.json.specs.Lex.{Lexeme, token};
ghost use Rattle.json.specs.Word.{is_space};
ghost use Rattle.put_bodies.specs.TextScans.{IsLexeme, begins_blank, is_stop, lexemes};

/// The text without the blanks at its front.
#[inline(always)]
pub fn behind_blanks(text: &[u8]) -> &[u8]
    ensures same { lexemes result.now ≡ lexemes text.now }
    ensures shorter { length result.now ≤ length text.now }
{
    if begins_blank(text) {
        behind_more(text)
    } else {
        text
    }
}

#[inline(never)]
fn behind_more(text: &[u8]) -> &[u8]
    ensures same { lexemes result.now ≡ lexemes text.now }
    ensures shorter { length result.now ≤ length text.now }
{
    let mut rest = text;
    while begins_blank(rest) {
        rest = behind_first(rest);
    }
    rest
}

/// The text without the blank at its front.
#[inline(always)]
#[tactic(auto, using(crate::proofs::ScanLemmas::blank_behind))]
fn behind_first(text: &[u8]) -> &[u8]
    requires { begins_blank text.now ≡ true }
    ensures same { lexemes result.now ≡ lexemes text.now }
    ensures shorter { length result.now < length text.now }
{
    &text[1..]
}

#[inline(always)]
fn begins_blank(text: &[u8]) -> bool
    ensures { result ≡ begins_blank text.now }
{
    match text {
        [] => false,
        [first, ..] => is_blank(*first),
    }
}

#[inline(always)]
pub fn is_blank(b: u8) -> bool
    ensures { result ≡ is_space b }
{
    b == b' ' || b == b'\t' || b == b'\n' || b == b'\r'
}

/// The first byte that is no blank, and what stands behind it.
#[inline(always)]
pub fn next_byte(text: &[u8]) -> Option<(u8, &[u8])>
    ensures same { IfSome result (λ found. lexemes (found.0 ∷ found.1.now) ≡ lexemes text.now) }
    ensures shorter { IfSome result (λ found. length found.1.now < length text.now) }
{
    let (first, rest) = behind_blanks(text).split_first()?;
    Some((*first, rest))
}

/// What stands behind a byte of punctuation, where it comes next.
#[inline(always)]
pub fn behind_byte(text: &[u8], mark: u8) -> Option<&[u8]>
    ensures lexeme { (l : Lexeme) → IsLexeme mark l → IfSome result (λ rest. lexemes text.now ≡ l ∷ lexemes rest.now) }
    ensures shorter { IfSome result (λ rest. length rest.now < length text.now) }
{
    let (first, rest) = next_byte(text)?;
    if first == mark { Some(rest) } else { None }
}

/// A string without escapes, and what stands behind it.
#[inline(always)]
pub fn next_string(text: &[u8]) -> Option<(&[u8], &[u8])>
    ensures lexeme { IfSome result (λ found. lexemes text.now ≡ token (string found.0.now) ∷ lexemes found.1.now) }
    ensures shorter { IfSome result (λ found. length found.1.now < length text.now) }
{
    let (first, inside) = next_byte(text)?;
    if first != b'"' {
        return None;
    }
    string_inside(inside)
}

/// The text of a string up to its closing quote, and what stands behind it.
#[inline(always)]
fn string_inside(inside: &[u8]) -> Option<(&[u8], &[u8])>
    ensures lexeme { IfSome result (λ found. lexemes (34 ∷ inside.now) ≡ token (string found.0.now) ∷ lexemes found.1.now) }
    ensures shorter { IfSome result (λ found. length found.1.now < length inside.now) }
{
    let (text, behind) = inside.split_at(string_len(inside));
    let (end, rest) = behind.split_first()?;
    if *end == b'"' {
        Some((text, rest))
    } else {
        None
    }
}

/// How many bytes of a string stand for themselves.
#[tactic(auto, using(crate::proofs::ScanLemmas::position_or_whole, crate::proofs::ScanLemmas::position_within))]
fn string_len(inside: &[u8]) -> usize
    ensures place { result ≡ position_or_len is_stop inside.now }
    ensures bound { result ≤ length inside.now }
{
    string_end(inside).unwrap_or(inside.len())
}

fn string_end(inside: &[u8]) -> Option<usize>
    ensures { result ≡ position is_stop inside.now }
{
    inside
        .iter()
        .position(|b| *b == b'"' || *b == b'\\' || *b < b' ')
}
