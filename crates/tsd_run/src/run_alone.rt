//! Every command that waits for nobody.
ghost use Rattle.std.specs.Prelude.{◌≡◌, false, map, string_bytes, Some, IfSome};
ghost use Rattle.tsd_hooks.specs.AllowedNames.{allowed};
ghost use Rattle.command_words.specs.CommandWords.{asked_of};
ghost use Rattle.command_words.specs.PlainAsked.{InRange, plain_patterns, plain_stdio, what_asked};
ghost use Rattle.tsd_daemon.specs.ServedConns.{Passes};
ghost use Rattle.tsd_run.specs.RunCauses.{HasLoneCauses};
ghost use Rattle.tsd_run.specs.RunHeadlines.{LoneHeadline};
ghost use Rattle.tsd_run.specs.RunPromises.{RanAlone};
ghost use Rattle.tsd_run.specs.Runs.{HasStatus, ServesStdio, is_stdio};

use crate::new_names::{config_of, patterns_of};
use crate::on_image::{pack, unpack};
use crate::on_import::run_import;
use crate::on_listing::{dump, fix, fsck};
use crate::weaving::run_weave;
use batch_run::{Ended, Status, print};
use command_words::{Asked, Stdio, read_words};
use std::alloc::{AllocError, Global};
use stdio_job::{Finished, serve_alone};
use tsd_base::kinds::Kind;
use tsd_base::names::Name;
use tsd_daemon::Served;
use tsd_hooks::UidRule;
use tsd_io::clock::Clock;
use tsd_io::halt::Halt;
use tsd_io::ports::{Sink, Source};

/// Runs the command that the words ask for, over an input and an output. Each step of its store asks the halt first.
///
/// `batch START END M [--ms]` reads points, one a line, to the end of the input, and prints the answer of the sub query M
/// from START to END, both included, as one JSON array, with times in seconds, or in milliseconds with `--ms`. START and END
/// are times as `query_requests::query_times::read_fixed_time` reads them. The first thing that is wrong is told: the query,
/// then the first line that is refused, then too many buckets, a name that no point has, two values of one series at one
/// time, or a sum outside `i64`.
///
/// `stdio [--auto-metric] [--no-auto-tagk] [--no-auto-tagv] [--allow-metric P] [--allow-tagk P] [--allow-tagv P] [--appends]
/// [--widths M,K,V] [--publish P]` serves one connection over an empty store, whose requests come from the input and whose replies go to the
/// output. Where it ends by itself, with `--publish` the points that were accepted and whose metric begins with P follow behind the replies. A
/// name that has no id is given one only where it begins with the P of its kind, if there is one. With `--appends` a point is added to the
/// column of its row, and else it gets a cell. The ids of metrics have M bytes, those of tag keys K and those of tag values V, each 2 to 4,
/// and three where nothing is said.
///
/// `import [--compact] [--widths M,K,V]` reads points, one a line, to the end of the input, and prints the listing of the store that has them.
/// The first line that is refused is told, and then nothing else is printed. With `--compact` each row without a conflict becomes one cell,
/// whose line may be longer than a listing may have.
///
/// `dump`, `fsck` and `fix`, each with `[--widths M,K,V]`, read the listing of a store, whose ids have these widths, to its end. `dump`
/// prints its points, or the first thing that is wrong with it. `fsck` prints what is wrong with it, and `fix` prints it mended.
///
/// `pack [--widths M,K,V]` reads the listing of a store to its end, and prints its image, or the first thing that is wrong with it. `unpack`
/// reads an image, and prints its listing, or the first thing that is wrong with it.
///
/// `weave SEED N` runs the script of SEED, in which three daemons put, compact and ask over one store, N operations of the first, and prints
/// five lines: the operations, the points accepted, the ids given of each kind, those that no name has, and the cells of points. It takes
/// nothing of the input and asks no halt.
///
/// Words that are no command print the usage line, and so does `serve`, which waits for connections. No command but `stdio` asks the clock.
pub fn run_alone<S: Source, K: Sink, C: Clock, H: Halt + Drop>(
    alloc: Global,
    words: &[String],
    input: &mut S,
    output: &mut K,
    clock: &mut C,
    halt: H,
) -> Ended<H>
    // What a batch prints is the plain aggregation of its points, and so is each reply to a query of a connection.
    ensures headline { LoneHeadline (asked_of (map string_bytes words.now))
        (record {
          input = record { taken = S.taken input.old; left = S.left input.old; faults = S.faults input.old };
          output = record { held = K.held output.old; faults = K.faults output.old };
          clock = record { moments = C.moments clock.old; faults = C.faults clock.old };
          stops = H.stops halt;
        })
        (record {
          input = record { taken = S.taken input.new; left = S.left input.new; faults = S.faults input.new };
          output = record { held = K.held output.new; faults = K.faults output.new };
          clock = record { moments = C.moments clock.new; faults = C.faults clock.new };
          stops = H.stops result.halt;
        }) result.status }

    // The status, the bytes taken and given, and the moments of the clock, and the causes of faults.
    ensures ran { RanAlone (asked_of (map string_bytes words.now))
        (record {
          input = record { taken = S.taken input.old; left = S.left input.old; faults = S.faults input.old };
          output = record { held = K.held output.old; faults = K.faults output.old };
          clock = record { moments = C.moments clock.old; faults = C.faults clock.old };
          stops = H.stops halt;
        })
        (record {
          input = record { taken = S.taken input.new; left = S.left input.new; faults = S.faults input.new };
          output = record { held = K.held output.new; faults = K.faults output.new };
          clock = record { moments = C.moments clock.new; faults = C.faults clock.new };
          stops = H.stops result.halt;
        }) result.status }

    // No command but `stdio` asks the clock.
    ensures clock { is_stdio (asked_of (map string_bytes words.now)) ≡ false → clock.new ≡ clock.old }
{
    match read_words(alloc, words) {
        Ok(asked) => act(alloc, asked, input, output, clock, halt),
        Err(AllocError) => no_memory(halt),
    }
}

/// No memory was there for the words: nothing is done.
pub(crate) fn no_memory<H: Halt + Drop>(halt: H) -> Ended<H>
    ensures status { result.status ≡ Status.Memory }
    ensures halt { result.halt ≡ halt }
{
    Ended {
        status: Status::Memory,
        halt,
    }
}

/// Does what words ask for.
fn act<S: Source, K: Sink, C: Clock, H: Halt + Drop>(
    alloc: Global,
    asked: Option<Asked<'_>>,
    input: &mut S,
    output: &mut K,
    clock: &mut C,
    halt: H,
) -> Ended<H>
    requires range { IfSome asked InRange }
    ensures ran { RanAlone (what_asked asked.entry)
        (record {
          input = record { taken = S.taken input.old; left = S.left input.old; faults = S.faults input.old };
          output = record { held = K.held output.old; faults = K.faults output.old };
          clock = record { moments = C.moments clock.old; faults = C.faults clock.old };
          stops = H.stops halt;
        })
        (record {
          input = record { taken = S.taken input.new; left = S.left input.new; faults = S.faults input.new };
          output = record { held = K.held output.new; faults = K.faults output.new };
          clock = record { moments = C.moments clock.new; faults = C.faults clock.new };
          stops = H.stops result.halt;
        }) result.status }
    ensures clock { is_stdio (what_asked asked.entry) ≡ false → clock.new ≡ clock.old }
{
    match asked {
        Some(Asked::Stdio { stdio }) => serve(alloc, &stdio, input, output, clock, halt),
        Some(Asked::Batch { batch }) => print(alloc, Some(batch), input, output, halt),
        Some(Asked::Dump { widths }) => Ended {
            status: dump(alloc, widths, input, output),
            halt,
        },
        Some(Asked::Fsck { widths }) => Ended {
            status: fsck(alloc, widths, input, output),
            halt,
        },
        Some(Asked::Fix { widths }) => Ended {
            status: fix(alloc, widths, input, output),
            halt,
        },
        Some(Asked::Weave { weave }) => Ended {
            status: run_weave(alloc, weave.seed, weave.count, output),
            halt,
        },
        Some(Asked::Pack { widths }) => Ended {
            status: pack(alloc, widths, input, output),
            halt,
        },
        Some(Asked::Unpack) => Ended {
            status: unpack(alloc, input, output),
            halt,
        },
        Some(Asked::Import { import }) => run_import(alloc, import, input, output, halt),
        Some(Asked::Serve { .. }) | None => print(alloc, None, input, output, halt),
    }
}

/// Serves one connection over the input and the output.
fn serve<S: Source, K: Sink, C: Clock, H: Halt + Drop>(
    alloc: Global,
    stdio: &Stdio<'_>,
    input: &mut S,
    output: &mut K,
    clock: &mut C,
    halt: H,
) -> Ended<H>
    ensures serves { Passes (record { taken = S.taken input.old; left = S.left input.old; held = K.held output.old; moments = C.moments clock.old })
        (record { taken = S.taken input.new; left = S.left input.new; held = K.held output.new; moments = C.moments clock.new })
        (ServesStdio (plain_stdio stdio.now) result.status) }
    ensures causes { HasLoneCauses
        (record {
          input = record { taken = S.taken input.old; left = S.left input.old; faults = S.faults input.old };
          output = record { held = K.held output.old; faults = K.faults output.old };
          clock = record { moments = C.moments clock.old; faults = C.faults clock.old };
          stops = H.stops halt;
        })
        (record {
          input = record { taken = S.taken input.new; left = S.left input.new; faults = S.faults input.new };
          output = record { held = K.held output.new; faults = K.faults output.new };
          clock = record { moments = C.moments clock.new; faults = C.faults clock.new };
          stops = H.stops result.halt;
        }) result.status }
{
    let Ok(patterns) = patterns_of(alloc, &stdio.names.patterns) else {
        return no_memory(halt);
    };
    let Ok(kept) = patterns.again(alloc) else {
        return no_memory(halt);
    };
    let Ok(test) = Box::new(
        alloc,
        move |kind: Kind, name: &Name|
            ensures { result ≡ allowed patterns kind name.now }
        { patterns.allow(kind, name) },
    ) else {
        return no_memory(halt);
    };
    let rule = UidRule::keep(kept, test);
    serve_by(alloc, &rule, stdio, input, output, clock, halt)
}

/// Serves one connection over the input and the output, with the rule for new names.
fn serve_by<S: Source, K: Sink, C: Clock, H: Halt + Drop>(
    alloc: Global,
    rule: &UidRule,
    stdio: &Stdio<'_>,
    input: &mut S,
    output: &mut K,
    clock: &mut C,
    halt: H,
) -> Ended<H>
    requires rule { rule.now.patterns ≡ plain_patterns stdio.now.names.patterns }
    ensures serves { Passes (record { taken = S.taken input.old; left = S.left input.old; held = K.held output.old; moments = C.moments clock.old })
        (record { taken = S.taken input.new; left = S.left input.new; held = K.held output.new; moments = C.moments clock.new })
        (ServesStdio (plain_stdio stdio.now) result.status) }
    ensures causes { HasLoneCauses
        (record {
          input = record { taken = S.taken input.old; left = S.left input.old; faults = S.faults input.old };
          output = record { held = K.held output.old; faults = K.faults output.old };
          clock = record { moments = C.moments clock.old; faults = C.faults clock.old };
          stops = H.stops halt;
        })
        (record {
          input = record { taken = S.taken input.new; left = S.left input.new; faults = S.faults input.new };
          output = record { held = K.held output.new; faults = K.faults output.new };
          clock = record { moments = C.moments clock.new; faults = C.faults clock.new };
          stops = H.stops result.halt;
        }) result.status }
{
    let config = config_of(&stdio.names, stdio.appends);
    let Finished { served, halt } = serve_alone(
        alloc,
        stdio.widths,
        rule,
        &config,
        stdio.publish,
        input,
        output,
        clock,
        halt,
    );
    let status = status_of(served);
    Ended { status, halt }
}

/// The status of how the serving of a connection ended.
fn status_of(served: Served) -> Status
    ensures { HasStatus served result }
{
    match served {
        Served::End | Served::Exit | Served::Die | Served::Closed => Status::Done,
        Served::ReadFault => Status::ReadFault,
        Served::WriteFault => Status::WriteFault,
        Served::ClockFault => Status::ClockFault,
        Served::Stopped => Status::Stopped,
        Served::SessionFull => Status::SessionFull,
        Served::OutOfMemory => Status::Memory,
    }
}
