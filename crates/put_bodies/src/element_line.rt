//! The line of an element.
ghost use Rattle.std.specs.Prelude.{◌≡◌, ◌<◌, List, Some, length, OnOk};
ghost use Rattle.json.specs.Json.{Json};
ghost use Rattle.json.specs.Find.{BeginsWith};
ghost use Rattle.serde_json.specs.Data.{Data};
ghost use Rattle.serde_json.specs.Read.{of_json};
ghost use Rattle.put_bodies.specs.PlainBodies.{IsElement};
ghost use Rattle.put_bodies.specs.BodyTapes.{GoesOnWith};
ghost use Rattle.put_bodies.specs.ElementLines.{IsLineOf, IsNext};
ghost use Rattle.put_bodies.specs.declared.element_line.LineRead.TheVariants.{Line, Other};

use crate::element_members::members_of;
use crate::put_words::{NoLine, write_tags, write_words};
use json::{Element, Items};

/// What was found of the next element.
#[derive(Clone, Copy, PartialEq, Eq, Debug)]
pub enum LineRead {
    /// Its line was written.
    Line,
    /// It has no line, or there was no memory for it.
    Other,
    /// There is no element more.
    End,
}

/// Takes the next element, and writes its line in place of what `line` had.
///
/// Where the line reads as a point, the element is that point.
pub fn next_line(items: &mut Items<'_, '_>, line: &mut Vec<u8>) -> LineRead
    ensures next { (elements : List Data) → GoesOnWith items.old elements → IsNext elements result line.new.items items.new }
    ensures shorter { result ≡ Line → length items.new < length items.old }
    ensures passed { result ≡ Other → length items.new < length items.old }
{
    let Some(element) = items.next() else {
        return LineRead::End;
    };
    match write_line(&element, line) {
        Ok(()) => LineRead::Line,
        Err(_) => LineRead::Other,
    }
}

/// Writes the line of an element.
fn write_line(element: &Element<'_, '_>, line: &mut Vec<u8>) -> Result<(), NoLine>
    ensures { (j : Json) (d : Data) → BeginsWith element.now j → IsElement j → of_json j ≡ Some d → OnOk result (IsLineOf line.new.items d) }
{
    let Some(members) = members_of(element) else {
        return Err(NoLine);
    };
    line.clear();
    write_words(members.metric, members.time, members.value, line)?;
    write_tags(members.tags, line)
}
