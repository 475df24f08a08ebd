//! An element, read from a text of JSON.
ghost use Rattle.std.specs.Prelude.{◌≡◌, ◌<◌, ◌∷◌, ◌++◌, ℕ, [], List, true, false, Some, codes, length, IfSome, OnOk};
ghost use Rattle.std.specs.Str.{bytes_eq};
ghost use Rattle.json.specs.Json.{Json, object, no_members, string};
ghost use Rattle.serde_json.specs.Data.{Data};
ghost use Rattle.serde_json.specs.Read.{of_json};
ghost use Rattle.put_bodies.specs.LineWords.{IsTagText, IsWord, tag_text, words_text};
ghost use Rattle.put_bodies.specs.ElementLines.{IsLineOf};
ghost use Rattle.put_bodies.specs.ElementParts.{ElementStands, HasParts, IsNumberOf, IsOf, IsTimeWord, IsValueWord, MemberStands, MembersStand, Named, PairStands, TagsStand, ValueStands, in_front};
ghost use Rattle.put_bodies.specs.TextScans.{lexemes};

use crate::put_words::{NoLine, is_word, write_pair};
use crate::text_numbers::{NumberKind, next_number};
use crate::text_scan::{behind_blanks, behind_byte, next_byte, next_string};
use std::alloc::Global;

/// The value of a member, but for tags.
#[derive(Clone, Copy)]
pub enum PlainValue<'a> {
    /// A string without escapes.
    Text { text: &'a [u8] },
    /// A number.
    Number { kind: NumberKind, text: &'a [u8] },
}

/// What the members of an element say of it.
#[derive(Clone, Copy)]
pub struct ElementParts<'a> {
    /// The string `metric`.
    metric: Option<&'a [u8]>,
    /// A word that is read as `timestamp` is.
    time: Option<&'a [u8]>,
    /// A word that is read as `value` is.
    value: Option<&'a [u8]>,
    /// Whether the words of the strings in `tags` were written.
    tags: bool,
}

/// Reads an element, and writes its line in place of what `line` had. The answer is what stands behind it.
///
/// Where it has no line, as one with a space in a name, an empty one is written, which is no point.
pub fn next_element<'a>(
    alloc: Global,
    text: &'a [u8],
    words: &mut Vec<u8>,
    line: &mut Vec<u8>,
) -> Option<&'a [u8]>
    ensures stands { IfSome result (λ rest. ElementStands (lexemes text.now) line.new.items (lexemes rest.now)) }
    ensures shorter { IfSome result (λ rest. length rest.now < length text.now) }
{
    let (parts, rest) = next_members(alloc, text, words)?;
    write_line(&parts, words.as_slice(), line);
    Some(rest)
}

/// Writes the line of the parts, or an empty one.
fn write_line(parts: &ElementParts<'_>, words: &[u8], line: &mut Vec<u8>)
    ensures { (front : List Named) (d : Data) → HasParts front parts.now words.now → of_json (object (in_front front no_members)) ≡ Some d → IsLineOf line.new.items d }
{
    line.clear();
    match write_parts(parts, words, line) {
        Ok(()) => {}
        Err(_) => line.clear(),
    }
}

/// Adds the words of the parts to a line.
fn write_parts(parts: &ElementParts<'_>, words: &[u8], line: &mut Vec<u8>) -> Result<(), NoLine>
    ensures { (front : List Named) (d : Data) → HasParts front parts.now words.now → of_json (object (in_front front no_members)) ≡ Some d → line.old.items ≡ [] → OnOk result (IsLineOf line.new.items d) }
{
    let Some(metric) = parts.metric else {
        return Err(NoLine);
    };
    let Some(time) = parts.time else {
        return Err(NoLine);
    };
    let Some(value) = parts.value else {
        return Err(NoLine);
    };
    if parts.tags && is_full(metric) {
        write_words(metric, time, value, words, line)
    } else {
        Err(NoLine)
    }
}

/// Adds words to a line, with a space between, and the words of tags.
fn write_words(
    metric: &[u8],
    time: &[u8],
    value: &[u8],
    tags: &[u8],
    line: &mut Vec<u8>,
) -> Result<(), NoLine>
    ensures { OnOk result (line.new.items ≡ line.old.items ++ words_text metric.now time.now value.now ++ tags.now) }
{
    write_three(metric, time, value, line)?;
    line.extend_from_slice(tags)?;
    Ok(())
}

#[tactic(auto, using(std::proofs::lemmas::List::append_assoc))]
fn write_three(metric: &[u8], time: &[u8], value: &[u8], line: &mut Vec<u8>) -> Result<(), NoLine>
    ensures { OnOk result (line.new.items ≡ line.old.items ++ words_text metric.now time.now value.now) }
{
    line.extend_from_slice(metric)?;
    line.push(b' ')?;
    line.extend_from_slice(time)?;
    line.push(b' ')?;
    line.extend_from_slice(value)?;
    Ok(())
}

/// Reads an object of plain members, and what they say.
fn next_members<'a>(
    alloc: Global,
    text: &'a [u8],
    words: &mut Vec<u8>,
) -> Option<(ElementParts<'a>, &'a [u8])>
    ensures stands { IfSome result (λ found. MembersStand (lexemes text.now) found.0 words.new.items (lexemes found.1.now)) }
    ensures shorter { IfSome result (λ found. length found.1.now < length text.now) }
{
    let mut rest = behind_byte(text, b'{')?;
    let mut parts = no_parts();
    'turns: loop {
        let (now, behind) = next_member(alloc, rest, parts, words)?;
        parts = now;
        let (mark, behind) = next_byte(behind)?;
        if mark == b'}' {
            return Some((parts, behind));
        }
        if mark != b',' {
            return None;
        }
        rest = behind;
    }
}

fn no_parts<'a>() -> ElementParts<'a>
    ensures { (words : List ℕ) → HasParts [] result words }
{
    ElementParts {
        metric: None,
        time: None,
        value: None,
        tags: false,
    }
}

/// Reads a member, and what is known behind it.
fn next_member<'a>(
    alloc: Global,
    text: &'a [u8],
    parts: ElementParts<'a>,
    words: &mut Vec<u8>,
) -> Option<(ElementParts<'a>, &'a [u8])>
    ensures stands { IfSome result (λ found. MemberStands (lexemes text.now) parts.entry words.old.items found.0 words.new.items (lexemes found.1.now)) }
    ensures shorter { IfSome result (λ found. length found.1.now < length text.now) }
{
    let (key, behind) = next_string(text)?;
    let inside = behind_byte(behind, b':')?;
    if key == b"tags".as_slice() {
        let (tags, rest) = next_tags(inside, words)?;
        Some((ElementParts { tags, ..parts }, rest))
    } else {
        let (value, rest) = next_value(alloc, inside)?;
        Some((with_value(parts, key, &value), rest))
    }
}

/// The parts, with a value at a name other than `tags`.
fn with_value<'a>(parts: ElementParts<'a>, key: &[u8], value: &PlainValue<'a>) -> ElementParts<'a>
    requires { bytes_eq key.now (codes "tags") ≡ false }
    ensures { (front : List Named) (words : List ℕ) (j : Json) → IsOf value.now j → HasParts front parts.entry words → HasParts (front ++ (key.now, j) ∷ []) result words }
{
    if key == b"metric".as_slice() {
        let metric = text_of(value);
        ElementParts { metric, ..parts }
    } else if key == b"timestamp".as_slice() {
        let time = time_word(value);
        ElementParts { time, ..parts }
    } else if key == b"value".as_slice() {
        let value = value_word(value);
        ElementParts { value, ..parts }
    } else {
        parts
    }
}

/// The text of a string.
fn text_of<'a>(value: &PlainValue<'a>) -> Option<&'a [u8]>
    ensures { (j : Json) → IsOf value.now j → IfSome result (λ text. j ≡ string text.now) }
{
    match value {
        PlainValue::Text { text } => Some(text),
        PlainValue::Number { .. } => None,
    }
}

/// The word of a timestamp.
fn time_word<'a>(value: &PlainValue<'a>) -> Option<&'a [u8]>
    ensures { (j : Json) → IsOf value.now j → IfSome result (λ word. IsTimeWord j word.now) }
{
    match value {
        PlainValue::Text { text } => full_word(text),
        PlainValue::Number { kind, text } => time_number(*kind, text),
    }
}

/// The word of a timestamp that is a number.
fn time_number(kind: NumberKind, text: &[u8]) -> Option<&[u8]>
    ensures { (j : Json) → IsNumberOf kind text.now j → IfSome result (λ word. IsTimeWord j word.now) }
{
    match kind {
        NumberKind::Whole => Some(text),
        NumberKind::Negative | NumberKind::Fraction => None,
    }
}

/// The word of a value. A fraction has one that is refused as it is.
fn value_word<'a>(value: &PlainValue<'a>) -> Option<&'a [u8]>
    ensures { (j : Json) → IsOf value.now j → IfSome result (λ word. IsValueWord j word.now) }
{
    match value {
        PlainValue::Text { text } => full_word(text),
        PlainValue::Number { kind, text } => Some(value_number(*kind, text)),
    }
}

/// The word of a value that is a number.
fn value_number(kind: NumberKind, text: &[u8]) -> &[u8]
    ensures { (j : Json) → IsNumberOf kind text.now j → IsValueWord j result.now }
{
    match kind {
        NumberKind::Whole | NumberKind::Negative => text,
        NumberKind::Fraction => b"0.".as_slice(),
    }
}

fn full_word(text: &[u8]) -> Option<&[u8]>
    ensures { IfSome result (λ word. (word.now ≡ text.now) × IsWord text.now) }
{
    if is_full(text) { Some(text) } else { None }
}

fn is_full(text: &[u8]) -> bool
    ensures { result ≡ true → IsWord text.now }
{
    !text.is_empty() && is_word(text)
}

/// A string or a number, and what stands behind it.
fn next_value(alloc: Global, text: &[u8]) -> Option<(PlainValue<'_>, &[u8])>
    ensures stands { IfSome result (λ found. ValueStands found.0 (lexemes text.now) (lexemes found.1.now)) }
    ensures shorter { IfSome result (λ found. length found.1.now < length text.now) }
{
    match next_string(text) {
        Some((text, rest)) => Some((PlainValue::Text { text }, rest)),
        None => number_value(alloc, behind_blanks(text)),
    }
}

/// A number, and what stands behind it.
fn number_value(alloc: Global, text: &[u8]) -> Option<(PlainValue<'_>, &[u8])>
    ensures stands { IfSome result (λ found. ValueStands found.0 (lexemes text.now) (lexemes found.1.now)) }
    ensures shorter { IfSome result (λ found. length found.1.now < length text.now) }
{
    let (kind, text, rest) = next_number(alloc, text)?;
    Some((PlainValue::Number { kind, text }, rest))
}

/// Reads an object of strings, and writes the word of each in place of what `words` had. It tells whether each has a word.
fn next_tags<'a>(text: &'a [u8], words: &mut Vec<u8>) -> Option<(bool, &'a [u8])>
    ensures stands { IfSome result (λ found. TagsStand (lexemes text.now) found.0 words.new.items (lexemes found.1.now)) }
    ensures shorter { IfSome result (λ found. length found.1.now < length text.now) }
{
    let mut rest = behind_byte(text, b'{')?;
    let mut worded = true;
    words.clear();
    'turns: loop {
        let (still, behind) = next_pair(rest, worded, words)?;
        worded = still;
        let (mark, behind) = next_byte(behind)?;
        if mark == b'}' {
            return Some((worded, behind));
        }
        if mark != b',' {
            return None;
        }
        rest = behind;
    }
}

/// Reads a pair of strings, and adds its word where all before it have one.
fn next_pair<'a>(text: &'a [u8], worded: bool, words: &mut Vec<u8>) -> Option<(bool, &'a [u8])>
    ensures stands { IfSome result (λ found. PairStands (lexemes text.now) worded words.old.items found.0 words.new.items (lexemes found.1.now)) }
    ensures shorter { IfSome result (λ found. length found.1.now < length text.now) }
{
    let (key, behind) = next_string(text)?;
    let inside = behind_byte(behind, b':')?;
    let (value, rest) = next_string(inside)?;
    let still = add_pair(key, value, worded, words);
    Some((still, rest))
}

/// Adds the word of a pair, where all before it have one, and tells whether it did.
fn add_pair(key: &[u8], value: &[u8], worded: bool, words: &mut Vec<u8>) -> bool
    ensures { result ≡ true → (worded ≡ true) × IsTagText (key.now, value.now) × (words.new.items ≡ words.old.items ++ tag_text (key.now, value.now)) }
{
    if !worded {
        return false;
    }
    match write_pair(key, value, words) {
        Ok(()) => true,
        Err(_) => false,
    }
}
