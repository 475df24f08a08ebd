//! Reading all points of an input.
ghost use Rattle.std.specs.Prelude.{◌≡◌, ◌≤◌, [], codes, length, IfOk, IfErr};
ghost use Rattle.line_stream.specs.declared.line.TheConstants.{LONGEST_LINE};
ghost use Rattle.point_lines.specs.OpenRules.{AllowsAll};
ghost use Rattle.batch_job.specs.Pending.{Gathers, so_far};
ghost use Rattle.batch_job.specs.NotedIds.{exhausted_text};
ghost use Rattle.batch_run.specs.Inputs.{ReadsLine, ReadsInputTo};
ghost use Rattle.batch_run.specs.RunFaults.{LineCause, RunCause};

use crate::run_fault::RunFault;
use batch_job::pending::Gathered;
use batch_job::point_line::LineOutcome;
use cell_model::Rows;
use line_stream::line::{LONGEST_LINE, text_of};
use line_stream::reader::{LineReader, NextLine};
use std::alloc::{AllocError, Global};
use tsd_base::kinds::Kind;
use tsd_hooks::UidRule;
use tsd_io::ports::Source;
use uid_table::Uids;

/// A line that is refused: its number, from 1, and what is wrong with it.
#[derive(Drop)]
pub struct BadLine {
    pub number: u64,
    pub text: Vec<u8>,
}

/// Reads lines to the end of the input, or to the first line that is refused, which is the answer. The rule for new names is one
/// that allows each of them.
pub fn read_points<S: Source, R: Rows + Drop>(
    alloc: Global,
    source: &mut S,
    store: &mut Uids<R>,
    rule: &UidRule,
    gathered: &mut Gathered,
) -> Result<Option<BadLine>, RunFault>
    requires allows { AllowsAll rule.now.patterns }
    requires empty { Gathers [] (so_far (R.seen store.old.rows) gathered.old) }
    ensures reads { ReadsInputTo (S.taken source.old) (S.taken source.new) (S.left source.old) (S.left source.new) (so_far (R.seen store.new.rows) gathered.new) result }
    ensures later { S.faults source.old ≤ S.faults source.new }
    ensures grows { R.stops store.old.rows ≤ R.stops store.new.rows }
    ensures cause { IfErr result (RunCause (S.faults source.old) (S.faults source.new) (R.stops store.old.rows) (R.stops store.new.rows)) }
{
    let mut reader = LineReader::make(alloc, LONGEST_LINE)?;
    loop {
        match reader.next_line(source)? {
            NextLine::Whole { end } => {
                let line = &reader.bytes()[..end];
                if let Some(bad) = read_line(
                    alloc,
                    line,
                    true,
                    reader.number(),
                    store,
                    rule,
                    gathered,
                )? {
                    return Ok(Some(bad));
                }
                reader.skip_line(end);
            }
            NextLine::Last => {
                return read_line(
                    alloc,
                    reader.bytes(),
                    false,
                    reader.number(),
                    store,
                    rule,
                    gathered,
                );
            }
            NextLine::TooLong => return Ok(Some(too_long(alloc, reader.number())?)),
        }
    }
}

/// The refusal of a line that is too long.
fn too_long(alloc: Global, number: u64) -> Result<BadLine, AllocError>
    ensures { IfOk result (λ bad. (bad.text.items ≡ codes "line too long") × (bad.number ≡ number)) }
{
    let text = Vec::from_slice(alloc, b"line too long")?;
    Ok(BadLine { number, text })
}

/// Reads one line of these bytes, which isn't too long, and of which an LF followed or not. A line that is refused is the answer.
fn read_line<R: Rows + Drop>(
    alloc: Global,
    bytes: &[u8],
    ended: bool,
    number: u64,
    store: &mut Uids<R>,
    rule: &UidRule,
    gathered: &mut Gathered,
) -> Result<Option<BadLine>, RunFault>
    requires short { length bytes.now ≤ LONGEST_LINE }
    requires allows { AllowsAll rule.now.patterns }
    ensures reads { IfOk result (ReadsLine (record { bytes = bytes.now; ended = ended }) number (so_far (R.seen store.old.rows) gathered.old) (so_far (R.seen store.new.rows) gathered.new)) }
    ensures grows { R.stops store.old.rows ≤ R.stops store.new.rows }
    ensures cause { IfErr result (LineCause (R.stops store.old.rows) (R.stops store.new.rows)) }
{
    match gathered.add_text(alloc, store, rule, text_of(bytes, ended))? {
        LineOutcome::Blank => Ok(None),
        LineOutcome::Taken => Ok(None),
        LineOutcome::Full { kind } => Ok(Some(exhausted(alloc, kind, number)?)),
        LineOutcome::Refused { text } => Ok(Some(BadLine { number, text })),
    }
}

/// The refusal of a line for one of whose names there is no id.
fn exhausted(alloc: Global, kind: Kind, number: u64) -> Result<BadLine, AllocError>
    ensures { IfOk result (λ bad. (bad.text.items ≡ exhausted_text kind) × (bad.number ≡ number)) }
{
    let mut text = Vec::from_slice(alloc, b"ids of ")?;
    text.extend_from_slice(kind.text().as_bytes())?;
    text.extend_from_slice(b" are exhausted")?;
    Ok(BadLine { number, text })
}
