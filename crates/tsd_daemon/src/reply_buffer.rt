//! Replies that wait.
ghost use Rattle.std.specs.Prelude.{◌≡◌, ◌++◌, [], OnOk, OnErr};
ghost use Rattle.tsd_io.specs.Causes.{HasCause};
ghost use Rattle.tsd_daemon.specs.Talks.{Gives, GivesSome};

use std::alloc::{AllocError, Global};
use std::marker::Model;
use tsd_io::give_all::give_all;
use tsd_io::ports::{Failed, Sink};

/// The most bytes of replies that wait to be given together.
const MOST_WAITING: usize = 65_536;

/// Replies that wait to be given together, at most 64 KiB of them. Contracts see their bytes.
#[derive(Drop)]
pub struct ReplyBuffer {
    waiting: Vec<u8>,
}

impl Model for ReplyBuffer {
    ghost use Rattle.std.specs.Prelude.{List, ℕ, ◌≤◌, length};

    ghost Value = { List ℕ };

    ghost view = { λ b. b.waiting.items };

    ghost invariant = { λ b. length b.waiting.items ≤ 65536 };
}

impl ReplyBuffer {
    /// None waits.
    pub fn make(alloc: Global) -> ReplyBuffer
        ensures { result ≡ [] }
    {
        ReplyBuffer {
            waiting: Vec::new(alloc),
        }
    }

    /// Adds a reply, which waits where there is room and memory for it. Else all is given.
    #[inline]
    pub fn add<K: Sink>(&mut self, sink: &mut K, reply: &[u8]) -> Result<(), Failed>
        ensures ok { OnOk result (Gives (K.held sink.old) (K.held sink.new) (self.old ++ reply.now) self.new) }
        ensures err { OnErr result (GivesSome (K.held sink.old) (K.held sink.new) (self.old ++ reply.now)) }
        ensures cause { HasCause (K.faults sink.old) (K.faults sink.new) result }
        ensures number { K.number sink.new ≡ K.number sink.old }
    {
        match self.keep(reply) {
            Ok(()) => Ok(()),
            Err(_) => self.give_with(sink, reply),
        }
    }

    /// Gives what waits, and a reply behind it.
    #[inline(never)]
    fn give_with<K: Sink>(&mut self, sink: &mut K, reply: &[u8]) -> Result<(), Failed>
        ensures ok { OnOk result (Gives (K.held sink.old) (K.held sink.new) (self.old ++ reply.now) self.new) }
        ensures err { OnErr result (GivesSome (K.held sink.old) (K.held sink.new) (self.old ++ reply.now)) }
        ensures cause { HasCause (K.faults sink.old) (K.faults sink.new) result }
        ensures number { K.number sink.new ≡ K.number sink.old }
    {
        self.give(sink)?;
        give_all(sink, reply)
    }

    /// Adds a reply that is the last, and gives all.
    pub fn add_last<K: Sink>(&mut self, sink: &mut K, reply: &[u8]) -> Result<(), Failed>
        ensures ok { OnOk result (Gives (K.held sink.old) (K.held sink.new) (self.old ++ reply.now) []) }
        ensures err { OnErr result (GivesSome (K.held sink.old) (K.held sink.new) (self.old ++ reply.now)) }
        ensures cause { HasCause (K.faults sink.old) (K.faults sink.new) result }
        ensures number { K.number sink.new ≡ K.number sink.old }
    {
        self.add(sink, reply)?;
        self.give(sink)
    }

    /// Gives what waits.
    pub fn give<K: Sink>(&mut self, sink: &mut K) -> Result<(), Failed>
        ensures ok { OnOk result (Gives (K.held sink.old) (K.held sink.new) self.old []) }
        ensures none { OnOk result (self.new ≡ []) }
        ensures err { OnErr result (GivesSome (K.held sink.old) (K.held sink.new) self.old) }
        ensures cause { HasCause (K.faults sink.old) (K.faults sink.new) result }
        ensures number { K.number sink.new ≡ K.number sink.old }
    {
        if self.waiting.is_empty() {
            return Ok(());
        }
        give_all(sink, self.waiting.as_slice())?;
        self.waiting.clear();
        Ok(())
    }

    /// Adds a reply where there is room and memory for it, and else nothing.
    #[inline]
    fn keep(&mut self, reply: &[u8]) -> Result<(), AllocError>
        ensures ok { OnOk result (self.new ≡ self.old ++ reply.now) }
        ensures err { OnErr result (self.new ≡ self.old) }
    {
        if reply.is_empty() {
            return Ok(());
        }
        if reply.len() > MOST_WAITING - self.waiting.len() {
            return Err(AllocError);
        }
        self.waiting.extend_from_slice(reply)
    }
}
