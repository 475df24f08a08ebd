//! What a batch prints, or the usage line.
ghost use Rattle.std.specs.Prelude.{◌≡◌, ◌≢◌, ◌≤◌, true, Some, IfErr, IfOk, IfSome};
ghost use Rattle.tsd_base.specs.declared.times.TheConstants.{LAST_TIME};
ghost use Rattle.query_text.specs.QueryFaultTexts.{query_fault_text};
ghost use Rattle.tsd_io.specs.Causes.{Rose};
ghost use Rattle.batch_job.specs.JobAnswers.{CanAsk};
ghost use Rattle.point_lines.specs.OpenRules.{AllowsAll};
ghost use Rattle.point_lines.specs.NameIds.{no_names};
ghost use Rattle.batch_job.specs.Storing.{IsNaming};
ghost use Rattle.command_words.specs.CommandWords as plain;
ghost use Rattle.command_words.specs.PlainAsked.{batch_of, plain_batch};
ghost use Rattle.batch_run.specs.Outcomes.{refused_line, refused_query as plain_refusal, usage_line};
ghost use Rattle.batch_run.specs.OutputText.{outcome_of};
ghost use Rattle.batch_run.specs.BatchQueries.{IsQueryOf};
ghost use Rattle.batch_run.specs.RunFaults.{RunCause};
ghost use Rattle.batch_run.specs.BatchRuns.{RunsPrinted, Works};

use crate::input::{BadLine, read_points};
use crate::output_text::Printed;
use crate::query::read_query;
use crate::refusal::bad_query;
use crate::reply_line::printed_answer;
use crate::run_fault::RunFault;
use crate::status::{Ended, Status};
use batch_job::answer::answer;
use batch_job::pending::Gathered;
use cell_model::Rows;
use command_words::Batch;
use lone_store::{empty, halt_of};
use query_text::queries::{Query, QueryFault};
use row_key::Widths;
use std::alloc::{AllocError, Global};
use tsd_base::decimals::write_number;
use tsd_base::kinds::Kind;
use tsd_base::names::Name;
use tsd_hooks::{Patterns, UidRule};
use tsd_io::give_all::give_all;
use tsd_io::halt::Halt;
use tsd_io::ports::{Failed, Sink, Source};
use uid_table::Uids;

/// The line that is printed where the words are no command.
const USAGE: &[u8] =
    b"usage: tsd batch START END M | stdio | serve PORT | import | dump | fsck | fix | weave SEED N | pack | unpack\n";

/// What is to be printed, or why nothing is, and the halt.
#[derive(Drop)]
struct Decided<H> {
    printed: Result<Printed, RunFault>,
    halt: H,
}

/// Prints the answer of a batch over the points of the input, or the usage line where there is none. Each step of its store asks the halt first.
///
/// The first thing that is wrong is told in place of the answer: the query, then the first line that is refused, then what the query finds. A
/// halt that refuses a step, a source that fails and want of memory leave nothing printed.
pub fn print<S: Source, K: Sink, H: Halt + Drop>(
    alloc: Global,
    batch: Option<Batch<'_>>,
    input: &mut S,
    output: &mut K,
    halt: H,
) -> Ended<H>
    requires range { IfSome batch (λ b. (b.start ≤ b.end) × (b.end ≤ LAST_TIME)) }
    ensures runs { RunsPrinted (batch_of batch.entry) (S.taken input.old) (S.taken input.new) (S.left input.old) (S.left input.new) (K.held output.old) (K.held output.new) result.status }
    ensures reads_later { S.faults input.old ≤ S.faults input.new }
    ensures writes_later { K.faults output.old ≤ K.faults output.new }
    ensures stops_later { H.stops halt ≤ H.stops result.halt }
    ensures read_fault { result.status ≡ Status.ReadFault → Rose (S.faults input.old) (S.faults input.new) }
    ensures write_fault { result.status ≡ Status.WriteFault → Rose (K.faults output.old) (K.faults output.new) }
    ensures stopped { result.status ≡ Status.Stopped → Rose (H.stops halt) (H.stops result.halt) }
{
    let Decided { printed, halt } = decide(alloc, batch, input, halt);
    match printed {
        Ok(printed) => match give_all(output, &printed.text) {
            Ok(()) => Ended {
                status: printed.status,
                halt,
            },
            Err(Failed) => Ended {
                status: Status::WriteFault,
                halt,
            },
        },
        Err(RunFault::Failed) => Ended {
            status: Status::ReadFault,
            halt,
        },
        Err(RunFault::Full) => Ended {
            status: Status::SessionFull,
            halt,
        },
        Err(RunFault::OutOfMemory) => Ended {
            status: Status::Memory,
            halt,
        },
        Err(RunFault::Stopped) => Ended {
            status: Status::Stopped,
            halt,
        },
    }
}

/// What is to be printed.
fn decide<S: Source, H: Halt + Drop>(
    alloc: Global,
    batch: Option<Batch<'_>>,
    input: &mut S,
    halt: H,
) -> Decided<H>
    requires range { IfSome batch (λ b. (b.start ≤ b.end) × (b.end ≤ LAST_TIME)) }
    ensures works { Works (batch_of batch.entry) (S.taken input.old) (S.taken input.new) (S.left input.old) (S.left input.new) result.printed }
    ensures later { S.faults input.old ≤ S.faults input.new }
    ensures grows { H.stops halt ≤ H.stops result.halt }
    ensures cause { IfErr result.printed (RunCause (S.faults input.old) (S.faults input.new) (H.stops halt) (H.stops result.halt)) }
{
    match batch {
        Some(batch) => run_batch(alloc, &batch, input, halt),
        None => Decided {
            printed: usage(alloc),
            halt,
        },
    }
}

/// The usage line. It fails only for want of memory.
fn usage(alloc: Global) -> Result<Printed, RunFault>
    ensures shown { IfOk result (λ printed. outcome_of printed ≡ record { status = Status.Usage; text = usage_line }) }
    ensures fails { IfErr result (λ fault. fault ≡ RunFault.OutOfMemory) }
{
    let text = Vec::from_slice(alloc, USAGE)?;
    Ok(Printed {
        status: Status::Usage,
        text,
    })
}

/// Does what `batch` is asked.
fn run_batch<S: Source, H: Halt + Drop>(
    alloc: Global,
    batch: &Batch<'_>,
    input: &mut S,
    halt: H,
) -> Decided<H>
    requires range { batch.now.start ≤ batch.now.end }
    requires end { batch.now.end ≤ LAST_TIME }
    ensures works { Works (Some (plain_batch batch.now)) (S.taken input.old) (S.taken input.new) (S.left input.old) (S.left input.new) result.printed }
    ensures later { S.faults input.old ≤ S.faults input.new }
    ensures grows { H.stops halt ≤ H.stops result.halt }
    ensures cause { IfErr result.printed (RunCause (S.faults input.old) (S.faults input.new) (H.stops halt) (H.stops result.halt)) }
{
    match read_query(alloc, batch) {
        Ok(query) => run_query(alloc, &query, input, halt),
        Err(fault) => Decided {
            printed: refused_query(alloc, fault),
            halt,
        },
    }
}

/// What is printed of a text that is no query. Want of memory is no refusal, and fails.
fn refused_query(alloc: Global, fault: QueryFault) -> Result<Printed, RunFault>
    ensures refused { IfOk result (λ printed. (outcome_of printed ≡ plain_refusal (query_fault_text fault)) × (fault ≢ QueryFault.OutOfMemory)) }
    ensures fails { IfErr result (λ fault. fault ≡ RunFault.OutOfMemory) }
{
    let printed = bad_query(alloc, fault)?;
    Ok(printed)
}

/// Makes the rule that allows each new name, and answers the query of a batch over the points of the input.
fn run_query<S: Source, H: Halt + Drop>(
    alloc: Global,
    query: &Query,
    input: &mut S,
    halt: H,
) -> Decided<H>
    requires can { CanAsk query.now }
    ensures works { (batch : plain.Batch) → IsQueryOf query.now batch → Works (Some batch) (S.taken input.old) (S.taken input.new) (S.left input.old) (S.left input.new) result.printed }
    ensures later { S.faults input.old ≤ S.faults input.new }
    ensures grows { H.stops halt ≤ H.stops result.halt }
    ensures cause { IfErr result.printed (RunCause (S.faults input.old) (S.faults input.new) (H.stops halt) (H.stops result.halt)) }
{
    let Ok(test) = Box::new(
        alloc,
        |_kind: Kind, _name: &Name|
            ensures { result ≡ true }
        { true },
    ) else {
        return Decided {
            printed: Err(RunFault::OutOfMemory),
            halt,
        };
    };
    let rule = UidRule::keep(Patterns::none(), test);
    run_open(alloc, query, input, &rule, halt)
}

/// Makes a store under the halt, and answers the query of a batch over the points of the input.
fn run_open<S: Source, H: Halt + Drop>(
    alloc: Global,
    query: &Query,
    input: &mut S,
    rule: &UidRule,
    halt: H,
) -> Decided<H>
    requires can { CanAsk query.now }
    requires allows { AllowsAll rule.now.patterns }
    ensures works { (batch : plain.Batch) → IsQueryOf query.now batch → Works (Some batch) (S.taken input.old) (S.taken input.new) (S.left input.old) (S.left input.new) result.printed }
    ensures later { S.faults input.old ≤ S.faults input.new }
    ensures grows { H.stops halt ≤ H.stops result.halt }
    ensures cause { IfErr result.printed (RunCause (S.faults input.old) (S.faults input.new) (H.stops halt) (H.stops result.halt)) }
{
    match empty(alloc, Widths::three(), halt) {
        Ok(store) => {
            let mut store = store;
            let printed = over_store(alloc, query, input, &mut store, rule);
            let halt = halt_of(store);
            Decided { printed, halt }
        }
        Err((_error, halt)) => Decided {
            printed: Err(RunFault::OutOfMemory),
            halt,
        },
    }
}

/// Reads the points of the input into a store that has none, and answers the query of a batch there.
fn over_store<S: Source, R: Rows + Drop>(
    alloc: Global,
    query: &Query,
    input: &mut S,
    store: &mut Uids<R>,
    rule: &UidRule,
) -> Result<Printed, RunFault>
    requires can { CanAsk query.now }
    requires allows { AllowsAll rule.now.patterns }
    requires naming { IsNaming no_names (R.seen store.old.rows) }
    ensures works { (batch : plain.Batch) → IsQueryOf query.now batch → Works (Some batch) (S.taken input.old) (S.taken input.new) (S.left input.old) (S.left input.new) result }
    ensures later { S.faults input.old ≤ S.faults input.new }
    ensures grows { R.stops store.old.rows ≤ R.stops store.new.rows }
    ensures cause { IfErr result (RunCause (S.faults input.old) (S.faults input.new) (R.stops store.old.rows) (R.stops store.new.rows)) }
{
    let mut gathered = Gathered::make(alloc);
    match read_points(alloc, input, store, rule, &mut gathered)? {
        Some(bad) => Ok(bad_line(alloc, &bad)?),
        None => printed_answer(alloc, answer(alloc, query, store, rule, gathered)),
    }
}

/// The refusal of a line.
fn bad_line(alloc: Global, bad: &BadLine) -> Result<Printed, AllocError>
    ensures { IfOk result (λ printed. outcome_of printed ≡ refused_line bad.now.number bad.now.text.items) }
{
    let mut text = Vec::from_slice(alloc, b"line ")?;
    write_number(bad.number, &mut text)?;
    text.extend_from_slice(b": ")?;
    text.extend_from_slice(&bad.text)?;
    Printed::refused(text)
}
