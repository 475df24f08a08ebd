//! The next bytes of a connection.
ghost use Rattle.std.specs.Prelude.{◌≡◌, ℕ, ◌≤◌, [], Err, IfErr, OnOk};
ghost use Rattle.std.specs.Io.KnownBytes.{IsAtEnd};
ghost use Rattle.tsd_daemon.specs.ServedConns.{ConnCauses};
ghost use Rattle.tsd_daemon.specs.Talks.{PieceMoves};

use crate::conn_input::ConnInput;
use crate::reply_buffer::ReplyBuffer;
use crate::served::Served;
use tsd_io::ports::{Sink, Source};

/// Gives the replies that wait, and takes the next piece, which has a byte.
pub fn next_piece<S: Source, K: Sink>(
    source: &mut S,
    sink: &mut K,
    replies: &mut ReplyBuffer,
    input: &mut ConnInput,
) -> Result<(), Served>
    ensures moves { PieceMoves (record { taken = S.taken source.old; left = S.left source.old; last = S.last source.old })
        (record { taken = S.taken source.new; left = S.left source.new; last = S.last source.new }) (K.held sink.old) (K.held sink.new) replies.old input.old result input.new }
    ensures none { OnOk result (replies.new ≡ []) }
    ensures end { result ≡ Err Served.End → IsAtEnd (S.left source.new) }
    ensures causes { IfErr result (λ end. (stops ticks : ℕ) → ConnCauses (record { reads = S.faults source.old; writes = K.faults sink.old; stops = stops; ticks = ticks })
        (record { reads = S.faults source.new; writes = K.faults sink.new; stops = stops; ticks = ticks }) end) }
    ensures later { (S.faults source.old ≤ S.faults source.new) × (K.faults sink.old ≤ K.faults sink.new) }
    ensures source { S.number source.new ≡ S.number source.old }
    ensures sink { K.number sink.new ≡ K.number sink.old }
{
    match replies.give(sink) {
        Ok(()) => input.take(source),
        Err(_) => Err(Served::WriteFault),
    }
}
