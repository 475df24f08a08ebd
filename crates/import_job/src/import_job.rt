//! The job of `import`.
ghost use Rattle.std.specs.Prelude.{◌≡◌, ◌≤◌, IfOk};
ghost use Rattle.tsd_io.specs.Causes.{Rose};
ghost use Rattle.cell_solo.specs.Turns.{sight};
ghost use Rattle.lone_store.specs.LoneStores.{IsFresh};
ghost use Rattle.point_import.specs.ImportFaults.{line_fault_text};
ghost use Rattle.import_job.specs.ImportAnswers.{PassesImport, refused_line};
ghost use Rattle.import_job.specs.Refusals.{GivesRefusal, TellsFault};

use crate::import_end::{ImportEnd, Imported};
use crate::store_listing::give_store;
use listing_print::give_text;
use lone_store::{Store, empty, halt_of};
use point_import::import_fault::{ImportFault, LineFault};
use point_import::source_import::import;
use row_key::Widths;
use std::alloc::{AllocError, Global};
use tsd_base::decimals::write_number;
use tsd_io::halt::Halt;
use tsd_io::ports::{Failed, Sink, Source};

/// Imports the points of a source into an empty store whose ids have these widths, and gives the listing of the store, piece by piece. Each step
/// asks the halt first.
///
/// The ids of names come in the order in which the names first come. Of several points with one row and one qualifier the last one
/// counts. With `compact` each row of points with two or more cells gets the one cell that they become, unless they have a conflict. The first
/// line that is refused is told, and then nothing else is given.
pub fn import_alone<S: Source, K: Sink, H: Halt + Drop>(
    alloc: Global,
    widths: Widths,
    compact: bool,
    source: &mut S,
    sink: &mut K,
    halt: H,
) -> Imported<H>
    ensures imports { PassesImport widths compact (S.taken source.old) (S.taken source.new) (S.left source.old) (S.left source.new) (K.held sink.old) (K.held sink.new) result.end }
    ensures reads_later { S.faults source.old ≤ S.faults source.new }
    ensures writes_later { K.faults sink.old ≤ K.faults sink.new }
    ensures stops_later { H.stops halt ≤ H.stops result.halt }
    ensures read_fault { result.end ≡ ImportEnd.ReadFault → Rose (S.faults source.old) (S.faults source.new) }
    ensures write_fault { result.end ≡ ImportEnd.WriteFault → Rose (K.faults sink.old) (K.faults sink.new) }
    ensures stopped { result.end ≡ ImportEnd.Stopped → Rose (H.stops halt) (H.stops result.halt) }
{
    match empty(alloc, widths, halt) {
        Ok(store) => import_into(alloc, widths, store, compact, source, sink),
        Err((_error, halt)) => Imported {
            end: ImportEnd::OutOfMemory,
            halt,
        },
    }
}

/// The same with a store that is empty.
fn import_into<S: Source, K: Sink, H: Halt + Drop>(
    alloc: Global,
    widths: Widths,
    store: Store<H>,
    compact: bool,
    source: &mut S,
    sink: &mut K,
) -> Imported<H>
    requires fresh { IsFresh widths (sight store.rows.rows) }
    ensures imports { PassesImport widths compact (S.taken source.old) (S.taken source.new) (S.left source.old) (S.left source.new) (K.held sink.old) (K.held sink.new) result.end }
    ensures reads_later { S.faults source.old ≤ S.faults source.new }
    ensures writes_later { K.faults sink.old ≤ K.faults sink.new }
    ensures stops_later { H.stops store.rows.halt ≤ H.stops result.halt }
    ensures read_fault { result.end ≡ ImportEnd.ReadFault → Rose (S.faults source.old) (S.faults source.new) }
    ensures write_fault { result.end ≡ ImportEnd.WriteFault → Rose (K.faults sink.old) (K.faults sink.new) }
    ensures stopped { result.end ≡ ImportEnd.Stopped → Rose (H.stops store.rows.halt) (H.stops result.halt) }
{
    let mut store = store;
    match import(alloc, &mut store, source) {
        Ok(_) => give_store(alloc, store, compact, sink),
        Err(fault) => {
            let end = give_fault(alloc, sink, fault);
            let halt = halt_of(store);
            Imported { end, halt }
        }
    }
}

/// Tells of the line that was refused, where one was, and answers how the job ends.
fn give_fault<K: Sink>(alloc: Global, sink: &mut K, fault: ImportFault) -> ImportEnd
    ensures gives { TellsFault fault (K.held sink.old) (K.held sink.new) result }
    ensures later { K.faults sink.old ≤ K.faults sink.new }
    ensures write_fault { result ≡ ImportEnd.WriteFault → Rose (K.faults sink.old) (K.faults sink.new) }
{
    match fault {
        ImportFault::Line { number, fault } => give_refusal(alloc, sink, number, &fault),
        ImportFault::ReadFault => ImportEnd::ReadFault,
        ImportFault::SessionFull => ImportEnd::SessionFull,
        ImportFault::OutOfMemory => ImportEnd::OutOfMemory,
        ImportFault::Stopped => ImportEnd::Stopped,
    }
}

/// Gives the line that tells of a line that was refused.
fn give_refusal<K: Sink>(alloc: Global, sink: &mut K, number: u64, fault: &LineFault) -> ImportEnd
    ensures gives { GivesRefusal number fault.now (K.held sink.old) (K.held sink.new) result }
    ensures later { K.faults sink.old ≤ K.faults sink.new }
    ensures write_fault { result ≡ ImportEnd.WriteFault → Rose (K.faults sink.old) (K.faults sink.new) }
{
    match refusal(alloc, number, fault) {
        Ok(text) => match give_text(sink, &text) {
            Ok(()) => ImportEnd::Refused,
            Err(Failed) => ImportEnd::WriteFault,
        },
        Err(AllocError) => ImportEnd::OutOfMemory,
    }
}

/// The line that tells of a line that was refused. It fails only for want of memory.
fn refusal(alloc: Global, number: u64, fault: &LineFault) -> Result<Vec<u8>, AllocError>
    ensures { IfOk result (λ text. text.items ≡ refused_line number (line_fault_text fault.now)) }
{
    let mut text = Vec::from_slice(alloc, b"line ")?;
    write_number(number, &mut text)?;
    text.extend_from_slice(b": ")?;
    fault.write_text(&mut text)?;
    text.extend_from_slice(b"\n")?;
    Ok(text)
}
