//! The bytes of a connection, piece by piece.
ghost use Rattle.std.specs.Prelude.{◌≡◌, ◌≤◌, length, IfOk, Err};
ghost use Rattle.std.specs.Io.{ReadsAtMost};
ghost use Rattle.std.specs.Io.KnownBytes.{ReadConsumes, WriteAppends};
ghost use Rattle.tsd_io.specs.Causes.{HasCause, Rose};
ghost use Rattle.tsd_io.specs.Takes.{given_by};
ghost use Rattle.tsd_daemon.specs.ConnPieces.{IsLast, TakesNext, no_piece};

use crate::served::Served;
use line_stream::reader::LONGEST_INPUT;
use std::alloc::{AllocError, Global};
use std::marker::Model;
use tsd_io::ports::{Failed, Source};

/// The most bytes that are taken at once.
const PIECE: usize = 65_536;

/// Takes the bytes of a connection, at most 2^40 of them, and keeps the last piece. Contracts see that piece, and how many bytes
/// were taken.
#[derive(Drop)]
pub struct ConnInput {
    block: Vec<u8>,
    count: usize,
    taken: u64,
}

impl Model for ConnInput {
    ghost use Rattle.std.specs.Prelude.{◌^◌, ◌<◌, ◌≤◌, length, take};
    ghost use Rattle.tsd_daemon.specs.ConnPieces.{PieceTaken};

    ghost Value = { PieceTaken };

    ghost view = { λ i. record { piece = take i.count i.block.items; taken = i.taken } };

    ghost invariant = { λ i. record {
      block : 0 < length i.block.items;
      count : i.count ≤ length i.block.items;
      taken : i.taken ≤ 2 ^ 40;
    } };
}

impl ConnInput {
    /// Nothing was taken.
    pub fn make(alloc: Global) -> Result<ConnInput, AllocError>
        ensures { IfOk result (λ input. input ≡ no_piece) }
    {
        Ok(ConnInput {
            block: vec![in alloc; 0u8; PIECE]?,
            count: 0,
            taken: 0,
        })
    }

    /// The last piece.
    pub fn piece(&self) -> &[u8]
        ensures { result.now ≡ self.now.piece }
    {
        &self.block[..self.count]
    }

    /// Takes the next piece, which has a byte. Else the serving ends: `End`, `ReadFault`, or `SessionFull` where 2^40 bytes were taken.
    pub fn take<S: Source>(&mut self, source: &mut S) -> Result<(), Served>
        ensures takes { TakesNext (record { taken = S.taken source.old; left = S.left source.old; last = S.last source.old })
            (record { taken = S.taken source.new; left = S.left source.new; last = S.last source.new }) self.old result self.new }
        ensures later { S.faults source.old ≤ S.faults source.new }
        ensures failed { result ≡ Err Served.ReadFault → Rose (S.faults source.old) (S.faults source.new) }
        ensures number { S.number source.new ≡ S.number source.old }
    {
        if self.taken == LONGEST_INPUT {
            return Err(Served::SessionFull);
        }
        let room = (LONGEST_INPUT - self.taken).min(PIECE as u64) as usize;
        self.count = 0;
        self.block.truncate(room);
        match take_into(source, &mut self.block) {
            Err(_) => Err(Served::ReadFault),
            Ok(0) => Err(Served::End),
            Ok(count) => {
                self.count = count;
                self.taken += count as u64;
                Ok(())
            }
        }
    }
}

/// Takes bytes of a source into the front of a block.
fn take_into<S: Source>(source: &mut S, block: &mut Vec<u8>) -> Result<usize, Failed>
    ensures size { length block.new.items ≡ length block.old.items }
    ensures bound { ReadsAtMost result block.new.items }
    ensures taken { WriteAppends (S.taken source.old) (S.taken source.new) result block.new.items }
    ensures left { ReadConsumes (S.left source.old) (S.left source.new) result block.new.items }
    ensures last { IsLast (S.last source.new) (given_by result block.new.items) }
    ensures cause { HasCause (S.faults source.old) (S.faults source.new) result }
    ensures number { S.number source.new ≡ S.number source.old }
{
    source.take(block.as_mut_slice())
}
