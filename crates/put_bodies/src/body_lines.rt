//! The lines of the elements of a body.
ghost use Rattle.std.specs.Prelude.{List, ◌≡◌, ◌<◌, ◌≤◌, ◌++◌, ◌∷◌, [], length, get_or, true, IfSome, MatchOption};
ghost use Rattle.serde_json.specs.Data.{Data};
ghost use Rattle.put_bodies.specs.BodyLines.{AreLinesOf, HasLines, IsTurn, Rise, lines_in, start_of};
ghost use Rattle.put_bodies.specs.BodyTapes.{GoesOnWith};
ghost use Rattle.put_bodies.specs.TextScans.{lexemes};

use crate::body_tape::{body_tape, tape_elements};
use crate::element_line::{LineRead, next_line};
use crate::element_scan::next_element;
use crate::text_scan::{behind_blanks, behind_byte, next_byte};
use json::{Items, Scratch};
use std::alloc::Global;
use std::marker::Model;

/// Lines, one behind the other in one text.
#[derive(Drop)]
pub struct BodyLines {
    text: Vec<u8>,
    ends: Vec<usize>,
}

impl Model for BodyLines {
    ghost use Rattle.std.specs.Prelude.{ℕ, List, length};
    ghost use Rattle.std.specs.Coded.{coded_list, coded_ℕ};
    ghost use Rattle.put_bodies.specs.BodyLines.{Rise, lines_in};

    ghost Value = { List (List ℕ) };

    ghost coded = { coded_list (coded_list coded_ℕ) };

    ghost view = { λ a. lines_in 0 a.ends.items a.text.items };

    ghost invariant = { λ a. Rise 0 a.ends.items (length a.text.items) };
}

impl BodyLines {
    /// No lines.
    fn none(alloc: Global) -> BodyLines
        ensures { result ≡ [] }
    {
        BodyLines {
            text: Vec::new(alloc),
            ends: Vec::new(alloc),
        }
    }

    /// These lines, and one behind them.
    fn with(self, line: &[u8]) -> Option<BodyLines>
        ensures { IfSome result (λ lines. lines ≡ self ++ line.now ∷ []) }
    {
        let BodyLines { mut text, mut ends } = self;
        text.extend_from_slice(line).ok()?;
        ends.push(text.len()).ok()?;
        Some(BodyLines { text, ends })
    }

    /// The line at a place, where there is one.
    pub fn line(&self, at: usize) -> Option<&[u8]>
        ensures { MatchOption result (length self.now ≤ at) (λ line. (at < length self.now) × (line.now ≡ get_or self.now at [])) }
    {
        piece(self.ends.as_slice(), self.text.as_slice(), at)
    }
}

/// The piece of a text at a place, between ends.
fn piece<'a>(ends: &[usize], text: &'a [u8], at: usize) -> Option<&'a [u8]>
    requires { Rise 0 ends.now (length text.now) }
    ensures { MatchOption result (length ends.now ≤ at) (λ line. (at < length ends.now) × (line.now ≡ get_or (lines_in 0 ends.now text.now) at [])) }
{
    if at >= ends.len() {
        return None;
    }
    Some(&text[start(ends, at)..ends[at]])
}

/// Where the piece at a place begins.
fn start(ends: &[usize], at: usize) -> usize
    requires { at < length ends.now }
    ensures { result ≡ start_of 0 ends.now at }
{
    if at == 0 { 0 } else { ends[at - 1] }
}

/// The lines of the elements of a text that is a list of plain elements, or `None`, which says nothing: there may have been no memory.
///
/// A plain element is an object of strings, of numbers, and of objects of such. So the whole text is known to be JSON before any line is
/// used. An element that has no line, as one with a space in a name, has an empty one, which is no point.
pub fn body_lines(alloc: Global, text: &str) -> Option<BodyLines>
    ensures { IfSome result (HasLines text.now) }
{
    match scanned_lines(alloc, text.as_bytes()) {
        Some(lines) => Some(lines),
        None => tape_lines(alloc, text),
    }
}

/// The lines of elements whose strings have no escapes, read byte by byte.
fn scanned_lines(alloc: Global, text: &[u8]) -> Option<BodyLines>
    ensures { IfSome result (HasLines text.now) }
{
    let mut rest = behind_byte(text, b'[')?;
    let mut lines = BodyLines::none(alloc);
    let mut words = Vec::new(alloc);
    let mut line = Vec::new(alloc);
    'turns: loop {
        let behind = next_element(alloc, rest, &mut words, &mut line)?;
        lines = lines.with(line.as_slice())?;
        let (mark, behind) = next_byte(behind)?;
        if mark == b']' {
            return ended(lines, behind);
        }
        if mark != b',' {
            return None;
        }
        rest = behind;
    }
}

/// The lines, where nothing stands behind the list.
fn ended(lines: BodyLines, rest: &[u8]) -> Option<BodyLines>
    ensures { IfSome result (λ found. (found ≡ lines) × (lexemes rest.now ≡ [])) }
{
    if behind_blanks(rest).is_empty() {
        Some(lines)
    } else {
        None
    }
}

/// The lines of elements of which a tape is made first.
fn tape_lines(alloc: Global, text: &str) -> Option<BodyLines>
    ensures { IfSome result (HasLines text.now) }
{
    let mut scratch = Scratch::new(alloc);
    let tape = body_tape(alloc, &mut scratch, text)?;
    let items = tape_elements(&tape)?;
    lines_of(alloc, items)
}

/// The lines of the elements that a tape goes on with.
fn lines_of(alloc: Global, list: Items<'_, '_>) -> Option<BodyLines>
    ensures { (elements : List Data) → GoesOnWith list.entry elements → IfSome result (λ lines. AreLinesOf lines elements) }
{
    let mut items = list;
    let mut lines = BodyLines::none(alloc);
    let mut line = Vec::new(alloc);
    'turns: while next_turn(&mut items, &mut line) {
        lines = lines.with(line.as_slice())?;
    }
    Some(lines)
}

/// Takes the next element, where there is one, and writes its line in place of what `line` had, or an empty one.
fn next_turn(items: &mut Items<'_, '_>, line: &mut Vec<u8>) -> bool
    ensures turn { (elements : List Data) → GoesOnWith items.old elements → IsTurn elements result line.new.items items.new }
    ensures shorter { result ≡ true → length items.new < length items.old }
{
    match next_line(items, line) {
        LineRead::Line => true,
        LineRead::Other => {
            line.clear();
            true
        }
        LineRead::End => false,
    }
}
