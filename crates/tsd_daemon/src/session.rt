//! What a session keeps beside its lines.
ghost use Rattle.std.specs.Prelude.{◌≡◌, ℕ, [], ◌++◌, Some, OnOk, OnErr};
ghost use Rattle.tsd_io.specs.Causes.{HasCause};
ghost use Rattle.tsd_daemon.specs.ConnReplies.{counts_with, no_counts};
ghost use Rattle.tsd_daemon.specs.Talks.{Causes, Gives, GivesLast, GivesSome, HasEndCause};

use crate::counts::{Counted, Counts};
use crate::reply_buffer::ReplyBuffer;
use crate::served::Served;
use std::alloc::Global;
use tsd_io::ports::{Failed, Sink};

/// The replies of a session that wait, and the counts of its requests.
#[derive(Drop)]
pub struct Session {
    pub replies: ReplyBuffer,
    pub counts: Counts,
}

impl Session {
    /// Before the first request.
    pub fn make(alloc: Global) -> Session
        ensures replies { result.replies ≡ [] }
        ensures counts { result.counts ≡ no_counts }
    {
        Session {
            replies: ReplyBuffer::make(alloc),
            counts: Counts::none(),
        }
    }

    /// Tells the reply to a request, at once or later, and counts the request.
    pub fn tell<K: Sink>(
        &mut self,
        sink: &mut K,
        reply: &[u8],
        counted: Counted,
    ) -> Result<(), Failed>
        ensures ok { OnOk result (Gives (K.held sink.old) (K.held sink.new) (self.old.replies ++ reply.now) self.new.replies) }
        ensures err { OnErr result (GivesSome (K.held sink.old) (K.held sink.new) (self.old.replies ++ reply.now)) }
        ensures counts { self.new.counts ≡ counts_with self.old.counts counted }
        ensures cause { HasCause (K.faults sink.old) (K.faults sink.new) result }
        ensures number { K.number sink.new ≡ K.number sink.old }
    {
        self.counts.add(counted);
        self.replies.add(sink, reply)
    }
}

/// Tells the last reply, and how the serving ends.
pub fn tell_last<K: Sink>(
    sink: &mut K,
    replies: &mut ReplyBuffer,
    reply: &[u8],
    end: Served,
) -> Served
    requires { HasEndCause 0 0 0 0 (Some end) }
    ensures gives { GivesLast (K.held sink.old) (K.held sink.new) (replies.old ++ reply.now) end result }
    ensures causes { (stops : ℕ) → Causes (K.faults sink.old) (K.faults sink.new) stops stops (Some result) }
    ensures number { K.number sink.new ≡ K.number sink.old }
{
    match replies.add_last(sink, reply) {
        Ok(()) => end,
        Err(_) => Served::WriteFault,
    }
}

/// Gives the replies that wait, where there is no memory for more.
pub fn break_off<K: Sink>(sink: &mut K, replies: &mut ReplyBuffer) -> Served
    ensures gives { GivesLast (K.held sink.old) (K.held sink.new) replies.old Served.OutOfMemory result }
    ensures causes { (stops : ℕ) → Causes (K.faults sink.old) (K.faults sink.new) stops stops (Some result) }
    ensures number { K.number sink.new ≡ K.number sink.old }
{
    match replies.give(sink) {
        Ok(()) => Served::OutOfMemory,
        Err(_) => Served::WriteFault,
    }
}
