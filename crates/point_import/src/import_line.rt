//! One line of an import.
ghost use Rattle.std.specs.Prelude.{◌≤◌, length, IfErr, IfOk};
ghost use Rattle.line_stream.specs.declared.line.TheConstants.{LONGEST_LINE};
ghost use Rattle.point_lines.specs.OpenRules.{AllowsAll};
ghost use Rattle.point_import.specs.ImportFaults.{LineCause};
ghost use Rattle.point_import.specs.ImportedLines.{PutsLine};

use crate::import_fault::{ImportFault, LineFault};
use crate::import_point::{TextOutcome, import_text};
use cell_model::Rows;
use cell_model::answers::RowsFault;
use line_stream::line::{is_blank, text_of};
use std::alloc::Global;
use tsd_hooks::UidRule;
use uid_table::Uids;

/// Puts the point of one line of these bytes, which isn't too long, and of which an LF followed or not. The answer is how many points it
/// has: none where it is blank.
pub(crate) fn import_line<R: Rows + Drop>(
    alloc: Global,
    names: &mut Uids<R>,
    rule: &UidRule,
    bytes: &[u8],
    ended: bool,
    number: u64,
) -> Result<u64, ImportFault>
    requires short { length bytes.now ≤ LONGEST_LINE }
    requires allows { AllowsAll rule.now.patterns }
    ensures puts { PutsLine rule.now.patterns (record { bytes = bytes.now; ended = ended }) number (R.seen names.old.rows) result (R.seen names.new.rows) }
    ensures few { IfOk result (λ count. count ≤ 1) }
    ensures grows { R.stops names.old.rows ≤ R.stops names.new.rows }
    ensures cause { IfErr result (LineCause (R.stops names.old.rows) (R.stops names.new.rows)) }
{
    let text = text_of(bytes, ended);
    if is_blank(text) {
        return Ok(0);
    }
    match import_text(alloc, names, rule, text) {
        Ok(TextOutcome::Taken) => Ok(1),
        Ok(TextOutcome::Full { kind }) => Err(ImportFault::Line {
            number,
            fault: LineFault::Exhausted { kind },
        }),
        Ok(TextOutcome::Unread { fault }) => Err(ImportFault::Line {
            number,
            fault: LineFault::Point { fault },
        }),
        Err(RowsFault::OutOfMemory) => Err(ImportFault::OutOfMemory),
        Err(RowsFault::Stopped) => Err(ImportFault::Stopped),
    }
}
