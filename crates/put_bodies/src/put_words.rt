//! The words of a line.
ghost use Rattle.std.specs.Prelude.{◌≡◌, ◌++◌, OnOk};
ghost use Rattle.std.specs.List.{list_all};
ghost use Rattle.json.specs.Json as spec;
ghost use Rattle.json.specs.Find.{BeginsWith, InMembers};
ghost use Rattle.put_bodies.specs.LineWords.{IsTagOf, HasTagsOf, IsWord, is_word_byte, words_text, IsTagText, tag_text};

use json::{Element, Members};
use std::alloc::{AllocError, AllocFailed};

/// An element has no line, or there was no memory for it.
#[derive(Clone, Copy, Debug)]
pub struct NoLine;

/// Writes the metric, the time and the value.
#[tactic(auto, using(std::proofs::lemmas::List::append_assoc))]
pub fn write_words(metric: &str, time: &str, value: &str, line: &mut Vec<u8>) -> Result<(), NoLine>
    ensures { OnOk result (IsWord metric.now × (line.new.items ≡ line.old.items ++ words_text metric.now time.now value.now)) }
{
    let metric = metric.as_bytes();
    if metric.is_empty() || !is_word(metric) {
        return Err(NoLine);
    }
    line.extend_from_slice(metric)?;
    line.push(b' ')?;
    line.extend_from_slice(time.as_bytes())?;
    line.push(b' ')?;
    line.extend_from_slice(value.as_bytes())?;
    Ok(())
}

/// Writes a word `KEY=VALUE` for each tag.
pub fn write_tags(members: Members<'_, '_>, line: &mut Vec<u8>) -> Result<(), NoLine>
    ensures { (ms : spec.Members) → InMembers members.entry ms → OnOk result (HasTagsOf ms line.old.items line.new.items) }
{
    let mut rest = members;
    while let Some((key, member)) = rest.next() {
        write_tag(key.as_bytes(), &member, line)?;
    }
    Ok(())
}

fn write_tag(key: &[u8], member: &Element<'_, '_>, line: &mut Vec<u8>) -> Result<(), NoLine>
    ensures { (j : spec.Json) → BeginsWith member.now j → OnOk result (IsTagOf key.now j line.old.items line.new.items) }
{
    let Some(text) = member.as_str() else {
        return Err(NoLine);
    };
    write_pair(key, text.as_bytes(), line)
}

#[tactic(auto, using(std::proofs::lemmas::List::append_assoc))]
pub fn write_pair(key: &[u8], text: &[u8], line: &mut Vec<u8>) -> Result<(), NoLine>
    ensures { OnOk result (IsTagText (key.now, text.now) × (line.new.items ≡ line.old.items ++ tag_text (key.now, text.now))) }
{
    if !is_word(key) || !is_word(text) {
        return Err(NoLine);
    }
    line.push(b' ')?;
    line.extend_from_slice(key)?;
    line.push(b'=')?;
    line.extend_from_slice(text)?;
    Ok(())
}

/// Whether bytes stay one word, and one side of a pair.
pub fn is_word(bytes: &[u8]) -> bool
    ensures { result ≡ list_all is_word_byte bytes.now }
{
    bytes.iter().all(|b| *b != b' ' && *b != b'=')
}

impl<T: Drop> From<AllocFailed<T>> for NoLine {
    ghost from_gives = { λ _ _. Unit {0} };

    fn from(_failed: AllocFailed<T>) -> NoLine {
        NoLine
    }
}

impl From<AllocError> for NoLine {
    ghost from_gives = { λ _ _. Unit {0} };

    fn from(_failed: AllocError) -> NoLine {
        NoLine
    }
}
