//! The answer of a query as text.
ghost use Rattle.std.specs.Prelude.{◌≡◌, ◌≢◌, ℕ, List, map, true, false, All, IfOk, IfErr, Ok, Err, Result};
ghost use Rattle.json_reply.specs.Replies.{Group, IsReady, plain};
ghost use Rattle.cell_model.specs.Stops.{RoseIf};
ghost use Rattle.metric_scan.specs.AskFaults.{is_stop as stops_ask};
ghost use Rattle.batch_job.specs.JobAnswers.{GivesAnswer};
ghost use Rattle.batch_run.specs.Outcomes.{replied};
ghost use Rattle.batch_run.specs.OutputText.{Tells, outcome_of};
ghost use Rattle.batch_run.specs.RunFaults.{LineCause};

use crate::output_text::Printed;
use crate::refusal::no_answer;
use crate::run_fault::RunFault;
use crate::status::Status;
use json_reply::reply::{Reply, reply_text};
use metric_scan::AskFault;
use std::alloc::{AllocError, Global};

/// What is printed of the answer of a query. Want of memory and a stop aren't, and fail.
pub fn printed_answer(alloc: Global, answer: Result<Reply, AskFault>) -> Result<Printed, RunFault>
    requires { IfOk answer (λ reply. All IsReady reply.groups.items) }
    ensures tells { (told : Result (List Group) AskFault) → GivesAnswer answer told → Tells result told }
    ensures cause { (stops : ℕ) (stops' : ℕ) → IfErr answer (λ fault. RoseIf (stops_ask fault) stops stops') → IfErr result (LineCause stops stops') }
{
    match answer {
        Ok(reply) => Ok(printed_reply(alloc, &reply)?),
        Err(fault) => printed_fault(alloc, fault),
    }
}

/// What is printed of a query that has no answer.
fn printed_fault(alloc: Global, fault: AskFault) -> Result<Printed, RunFault>
    ensures tells { (told : Result (List Group) AskFault) → GivesAnswer (Err fault) told → Tells result told }
    ensures cause { (stops : ℕ) (stops' : ℕ) → RoseIf (stops_ask fault) stops stops' → IfErr result (LineCause stops stops') }
{
    if is_stop(&fault) {
        return Err(RunFault::Stopped);
    }
    Ok(no_answer(alloc, fault)?)
}

/// Whether a query was stopped.
fn is_stop(fault: &AskFault) -> bool
    ensures yes { result ≡ true → fault.now ≡ AskFault.Stopped }
    ensures no { result ≡ false → fault.now ≢ AskFault.Stopped }
{
    match fault {
        AskFault::TooManyBuckets { count: _ } => false,
        AskFault::BadFilter { index: _ } => false,
        AskFault::Unknown { kind: _, name: _ } => false,
        AskFault::Duplicate {
            time: _,
            a: _,
            b: _,
        } => false,
        AskFault::Overflow { time: _ } => false,
        AskFault::OutOfMemory => false,
        AskFault::Stopped => true,
    }
}

/// The array of a reply's groups, as a line. It fails only for want of memory.
fn printed_reply(alloc: Global, reply: &Reply) -> Result<Printed, AllocError>
    requires { All IsReady reply.now.groups.items }
    ensures { IfOk result (λ printed. outcome_of printed ≡ replied (Ok (map plain reply.now.groups.items))) }
{
    let mut text = reply_text(alloc, reply)?;
    text.extend_from_slice(b"\n")?;
    Ok(Printed {
        status: Status::Done,
        text,
    })
}
