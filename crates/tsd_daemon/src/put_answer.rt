//! The answer to a put.
ghost use Rattle.std.specs.Prelude.{◌≡◌, [], None, Err, IfOk, OnErr};
ghost use Rattle.cell_model.specs.Stops.{CountsStops, is_stop};
ghost use Rattle.point_put.specs.Admissions.{admission};
ghost use Rattle.point_put.specs.declared.fault.TextFault.TheVariants.{Unput};
ghost use Rattle.tsd_daemon.specs.declared.counts.Counts.{Counts};
ghost use Rattle.tsd_daemon.specs.declared.counts.Counted.TheVariants as counted;
ghost use Rattle.tsd_daemon.specs.PutAnswers.{IsDenial, IsRefusal, IsUnread, put_of};
ghost use Rattle.tsd_daemon.specs.Talks.{Replied, WasBegun};

use crate::counts::Counted;
use crate::telnet_reply::{refused_line, unread_line};
use cell_model::answers::RowsFault;
use cell_model::rows::Rows;
use compactor::queue::Queue;
use point_put::{Config, PutFault, TextFault, put_text};
use queued_put::queue_stored;
use std::alloc::Global;
use tsd_base::points::PointFault;
use tsd_hooks::UidRule;
use uid_table::uids::Uids;

/// The reply to a request, and how the request counts.
#[derive(Drop)]
pub struct Answer {
    pub reply: Vec<u8>,
    pub counted: Counted,
}

/// Puts the point of a text, and adds the row of one that was accepted to the queue. A put that was accepted is not answered where
/// there is no memory for its row in the queue.
pub fn answer_put<R: Rows + Drop>(
    alloc: Global,
    names: &mut Uids<R>,
    rule: &UidRule,
    config: &Config,
    queue: &mut Queue,
    text: &[u8],
) -> Result<Answer, RowsFault>
    ensures ok { IfOk result (λ answer. (counts : Counts) → Replied (admission config.now rule.now.patterns) counts None (put_of text.now) (R.seen names.old.rows) queue.old answer.reply.items answer.counted (R.seen names.new.rows) queue.new) }
    ensures err { OnErr result (WasBegun (admission config.now rule.now.patterns) None (put_of text.now) (R.seen names.old.rows) queue.old (R.seen names.new.rows) queue.new) }
    ensures stops { CountsStops is_stop result (R.stops names.old.rows) (R.stops names.new.rows) }
{
    match put_text(alloc, names, rule, config, text) {
        Ok(stored) => {
            queue_stored(names, queue, stored)?;
            Ok(accepted(alloc))
        }
        Err(fault) => denied(alloc, &fault),
    }
}

/// The answer to a point that was put.
fn accepted(alloc: Global) -> Answer
    ensures reply { result.reply.items ≡ [] }
    ensures counted { result.counted ≡ counted.Accepted }
{
    Answer {
        reply: Vec::new(alloc),
        counted: Counted::Accepted,
    }
}

/// The answer to a text whose point wasn't put. It stays out of the way of the others.
#[inline(never)]
fn denied(alloc: Global, fault: &TextFault) -> Result<Answer, RowsFault>
    ensures ok { IfOk result (λ answer. IsDenial fault.now answer.reply.items) }
    ensures counted { IfOk result (λ answer. answer.counted ≡ counted.Refused) }
    ensures stopped { result ≡ Err RowsFault.Stopped → fault.now ≡ Unput PutFault.Stopped }
{
    match fault {
        TextFault::Unput { fault } => refused(alloc, fault),
        TextFault::Unread { fault } => unread(alloc, fault),
    }
}

/// The answer to a point that wasn't put.
fn refused(alloc: Global, fault: &PutFault) -> Result<Answer, RowsFault>
    ensures ok { IfOk result (λ answer. IsRefusal fault.now answer.reply.items) }
    ensures counted { IfOk result (λ answer. answer.counted ≡ counted.Refused) }
    ensures stopped { result ≡ Err RowsFault.Stopped → fault.now ≡ PutFault.Stopped }
{
    let line = match fault {
        PutFault::OutOfMemory => return Err(RowsFault::OutOfMemory),
        PutFault::Stopped => return Err(RowsFault::Stopped),
        PutFault::Unknown { .. } | PutFault::Filtered { .. } | PutFault::Exhausted { .. } => {
            refused_line(alloc, fault)
        }
    };
    Ok(Answer {
        reply: line?,
        counted: Counted::Refused,
    })
}

/// The answer to a text that has no point.
fn unread(alloc: Global, fault: &PointFault) -> Result<Answer, RowsFault>
    ensures ok { IfOk result (λ answer. IsUnread fault.now answer.reply.items) }
    ensures counted { IfOk result (λ answer. answer.counted ≡ counted.Refused) }
    ensures stopped { result ≡ Err RowsFault.Stopped → ⊥ }
{
    if let PointFault::OutOfMemory = fault {
        return Err(RowsFault::OutOfMemory);
    }
    let reply = unread_line(alloc, fault)?;
    Ok(Answer {
        reply,
        counted: Counted::Refused,
    })
}
