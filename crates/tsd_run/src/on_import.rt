//! The command `import`.
ghost use Rattle.std.specs.Prelude.{◌≡◌, ◌≢◌, ◌≤◌};
ghost use Rattle.tsd_io.specs.Causes.{Rose};
ghost use Rattle.command_words.specs.PlainAsked.{plain_import};
ghost use Rattle.tsd_run.specs.Runs.{RunsImport, import_status};

use batch_run::{Ended, Status};
use command_words::Import;
use import_job::{ImportEnd, Imported, import_alone};
use std::alloc::Global;
use tsd_io::halt::Halt;
use tsd_io::ports::{Sink, Source};

/// Imports the points of the input into an empty store, and prints its listing, or the first line that is refused.
pub(crate) fn run_import<S: Source, K: Sink, H: Halt + Drop>(
    alloc: Global,
    asked: Import,
    input: &mut S,
    output: &mut K,
    halt: H,
) -> Ended<H>
    ensures runs { RunsImport (plain_import asked) (S.taken input.old) (S.taken input.new) (S.left input.old) (S.left input.new) (K.held output.old) (K.held output.new) result.status }
    ensures reads_later { S.faults input.old ≤ S.faults input.new }
    ensures writes_later { K.faults output.old ≤ K.faults output.new }
    ensures stops_later { H.stops halt ≤ H.stops result.halt }
    ensures read_fault { result.status ≡ Status.ReadFault → Rose (S.faults input.old) (S.faults input.new) }
    ensures write_fault { result.status ≡ Status.WriteFault → Rose (K.faults output.old) (K.faults output.new) }
    ensures stopped { result.status ≡ Status.Stopped → Rose (H.stops halt) (H.stops result.halt) }
    ensures no_clock { result.status ≢ Status.ClockFault }
    ensures no_door { result.status ≢ Status.DoorFault }
{
    let Imported { end, halt } = import_alone(
        alloc,
        asked.widths,
        asked.compact,
        input,
        output,
        halt,
    );
    let status = status_of(end);
    Ended { status, halt }
}

/// The status of how an import ended.
fn status_of(end: ImportEnd) -> Status
    ensures status { result ≡ import_status end }
    ensures read_fault { result ≡ Status.ReadFault → end ≡ ImportEnd.ReadFault }
    ensures write_fault { result ≡ Status.WriteFault → end ≡ ImportEnd.WriteFault }
    ensures stopped { result ≡ Status.Stopped → end ≡ ImportEnd.Stopped }
    ensures no_clock { result ≢ Status.ClockFault }
    ensures no_door { result ≢ Status.DoorFault }
{
    match end {
        ImportEnd::Done => Status::Done,
        ImportEnd::Refused => Status::Refused,
        ImportEnd::ReadFault => Status::ReadFault,
        ImportEnd::WriteFault => Status::WriteFault,
        ImportEnd::OutOfMemory => Status::Memory,
        ImportEnd::Stopped => Status::Stopped,
        ImportEnd::SessionFull => Status::SessionFull,
    }
}
