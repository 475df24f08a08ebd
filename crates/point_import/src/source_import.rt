//! Importing the points of a source.
ghost use Rattle.std.specs.Prelude.{◌≡◌, ◌≤◌, true, IfErr};
ghost use Rattle.point_lines.specs.OpenRules.{AllowsAll};
ghost use Rattle.point_import.specs.ImportFaults.{ImportCause};
ghost use Rattle.point_import.specs.ImportedLines.{Imports};
ghost use Rattle.point_import.specs.PutPoints.{no_patterns};

use crate::import_fault::{ImportFault, LineFault};
use crate::import_line::import_line;
use cell_model::Rows;
use line_stream::line::LONGEST_LINE;
use line_stream::reader::{LineReader, NextLine};
use std::alloc::Global;
use tsd_base::kinds::Kind;
use tsd_base::names::Name;
use tsd_hooks::{Patterns, UidRule};
use tsd_io::ports::Source;
use uid_table::Uids;

/// Puts the points of a source's lines, to its end or to the first line that is refused. The answer is how many points were put; one that
/// comes again counts again.
///
/// A line is a point, or blank. One CR before its LF is dropped, and a last line without LF counts. Each name that has no id is given one,
/// and each point gets a cell of its own. Others may step in between. After a fault the points of the lines before are put, and
/// names keep the ids that they were given.
pub fn import<R: Rows + Drop, S: Source>(
    alloc: Global,
    names: &mut Uids<R>,
    source: &mut S,
) -> Result<u64, ImportFault>
    ensures imports { Imports no_patterns (S.taken source.old) (S.taken source.new) (S.left source.old) (S.left source.new) (R.seen names.old.rows) result (R.seen names.new.rows) }
    ensures later { S.faults source.old ≤ S.faults source.new }
    ensures grows { R.stops names.old.rows ≤ R.stops names.new.rows }
    ensures cause { IfErr result (ImportCause (S.faults source.old) (S.faults source.new) (R.stops names.old.rows) (R.stops names.new.rows)) }
{
    let Ok(test) = Box::new(
        alloc,
        |_kind: Kind, _name: &Name|
            ensures { result ≡ true }
        { true },
    ) else {
        return Err(ImportFault::OutOfMemory);
    };
    let rule = UidRule::keep(Patterns::none(), test);
    import_by(alloc, names, &rule, source)
}

/// The same by a rule that allows each name.
fn import_by<R: Rows + Drop, S: Source>(
    alloc: Global,
    names: &mut Uids<R>,
    rule: &UidRule,
    source: &mut S,
) -> Result<u64, ImportFault>
    requires allows { AllowsAll rule.now.patterns }
    ensures imports { Imports rule.now.patterns (S.taken source.old) (S.taken source.new) (S.left source.old) (S.left source.new) (R.seen names.old.rows) result (R.seen names.new.rows) }
    ensures later { S.faults source.old ≤ S.faults source.new }
    ensures grows { R.stops names.old.rows ≤ R.stops names.new.rows }
    ensures cause { IfErr result (ImportCause (S.faults source.old) (S.faults source.new) (R.stops names.old.rows) (R.stops names.new.rows)) }
{
    let mut reader = LineReader::make(alloc, LONGEST_LINE)?;
    let mut count: u64 = 0;
    loop {
        match reader.next_line(source)? {
            NextLine::Whole { end } => {
                let line = &reader.bytes()[..end];
                match import_line(alloc, names, rule, line, true, reader.number()) {
                    Ok(more) => count += more,
                    Err(fault) => return Err(fault),
                }
                reader.skip_line(end);
            }
            NextLine::Last => {
                return match import_line(
                    alloc,
                    names,
                    rule,
                    reader.bytes(),
                    false,
                    reader.number(),
                ) {
                    Ok(more) => Ok(count + more),
                    Err(fault) => Err(fault),
                };
            }
            NextLine::TooLong => {
                return Err(ImportFault::Line {
                    number: reader.number(),
                    fault: LineFault::TooLong,
                });
            }
        }
    }
}
