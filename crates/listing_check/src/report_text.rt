//! The text of a report.
ghost use Rattle.std.specs.Prelude.{◌≡◌, ◌+◌, ◌≤◌, ◌++◌, List, drop, length, IfOk, OnOk};
ghost use Rattle.std.specs.List.{flat_map};
ghost use Rattle.listing_check.specs.Faults.{noted_line};
ghost use Rattle.listing_check.specs.ReportText.{AddsNotes, fault_line, note_line, report_lines, report_text, verdict};

use crate::report::{Flaw, Hint, Report};
use std::alloc::{AllocError, Global};
use tsd_base::decimals::write_number;

/// Adds what is told of a line.
fn push_line(text: &mut Vec<u8>, number: u64, told: &[u8]) -> Result<(), AllocError>
    ensures { OnOk result (text.new.items ≡ text.old.items ++ noted_line number told.now) }
{
    text.extend_from_slice(b"line ")?;
    write_number(number, text)?;
    text.extend_from_slice(b": ")?;
    text.extend_from_slice(told)?;
    text.extend_from_slice(b"\n")?;
    Ok(())
}

/// Adds the line of a fault. It fails only for want of memory.
pub fn push_fault(text: &mut Vec<u8>, fault: &(u64, Flaw)) -> Result<(), AllocError>
    ensures { OnOk result (text.new.items ≡ text.old.items ++ fault_line fault.now) }
{
    push_line(text, fault.0, fault.1.text())
}

/// Adds the line of a note.
fn push_note(text: &mut Vec<u8>, note: &(u64, Hint)) -> Result<(), AllocError>
    ensures { OnOk result (text.new.items ≡ text.old.items ++ note_line note.now) }
{
    push_line(text, note.0, note.1.text())
}

/// Adds the notes of lines before this one, from one on, and answers how many were added so far.
fn push_notes(
    text: &mut Vec<u8>,
    notes: &[(u64, Hint)],
    from: usize,
    number: u64,
) -> Result<usize, AllocError>
    requires { from ≤ length notes.now }
    ensures { IfOk result (λ next. AddsNotes number notes.now from next text.old.items text.new.items) }
{
    for at in from..notes.len() {
        if notes[at].0 >= number {
            return Ok(at);
        }
        push_note(text, &notes[at])?;
    }
    Ok(notes.len())
}

/// Adds the notes from one on.
fn push_rest(text: &mut Vec<u8>, notes: &[(u64, Hint)], from: usize) -> Result<(), AllocError>
    requires { from ≤ length notes.now }
    ensures { OnOk result (text.new.items ≡ text.old.items ++ flat_map note_line (drop from notes.now)) }
{
    for at in from..notes.len() {
        push_note(text, &notes[at])?;
    }
    Ok(())
}

/// Adds the faults and the notes, in order of lines.
fn push_lines(
    text: &mut Vec<u8>,
    faults: &[(u64, Flaw)],
    notes: &[(u64, Hint)],
) -> Result<(), AllocError>
    ensures { OnOk result (text.new.items ≡ text.old.items ++ report_lines faults.now notes.now) }
{
    let mut next = 0;
    for at in 0..faults.len() {
        next = push_notes(text, notes, next, faults[at].0)?;
        push_fault(text, &faults[at])?;
    }
    push_rest(text, notes, next)?;
    Ok(())
}

/// Adds the verdict on a listing with so many faults.
fn push_verdict(text: &mut Vec<u8>, count: usize) -> Result<(), AllocError>
    ensures { OnOk result (text.new.items ≡ text.old.items ++ verdict count) }
{
    if count == 0 {
        text.extend_from_slice(b"sound\n")?;
        return Ok(());
    }
    text.extend_from_slice(b"unsound ")?;
    write_number(count as u64, text)?;
    text.extend_from_slice(b"\n")?;
    Ok(())
}

/// The text of a report: a line for each fault and each note in order of lines, then `sound`, or `unsound` and the number of faults.
/// It fails only for want of memory.
pub fn report_text(alloc: Global, report: &Report) -> Result<Vec<u8>, AllocError>
    ensures { IfOk result (λ text. text.items ≡ report_text report.now) }
{
    let mut text = Vec::new(alloc);
    push_lines(&mut text, &report.faults, &report.notes)?;
    push_verdict(&mut text, report.faults.len())?;
    Ok(text)
}
