//! Rows that are to be compacted.
ghost use Rattle.std.specs.Prelude.{◌≡◌, ◌∷◌, [], length, IfOk, OnErr, MatchOption};
ghost use Rattle.row_key.specs.declared.tables.Table.TheVariants.{Points};
ghost use Rattle.cell_model.specs.declared.answers.Stored.{Stored};
ghost use Rattle.cell_model.specs.declared.row.Row.{Row};
ghost use Rattle.compactor.specs.Queues.{AddMade, AreQueued, stored_of, stored_as};
ghost use Rattle.compactor.specs.Drains.{IsNextBelow, NoneBelow};

use crate::known_keys::KnownKeys;
use cell_model::answers::Stored;
use cell_model::row::Row;
use guess_table::{Round, hash_bytes};
use qual_codec::Bytes;
use row_key::Table;
use std::alloc::{AllocError, Global};
use std::collections::BTreeSet;
use std::marker::Model;

/// Point rows that are to be compacted, each once, in order of the second at which their hour begins, and then of their bytes.
///
/// Contracts see it as the list of the rows.
#[derive(Drop)]
pub struct Queue {
    rows: BTreeSet<(u32, Bytes), Global>,
    // Some of `rows`, found by a hash: most that are added are there already.
    known: KnownKeys,
    // Where rows come round in the order in which they are known.
    round: Round,
    alloc: Global,
}

impl Model for Queue {
    ghost use Rattle.std.specs.Prelude.{List, map};
    ghost use Rattle.cell_model.specs.declared.answers.Stored.{Stored};

    ghost Value = { List Stored };

    ghost use Rattle.compactor.specs.Queues.{AreQueued, AreAmong, stored_of};

    ghost view = { λ q. map stored_of q.rows.keys };

    ghost invariant = { λ q. AreQueued (map stored_of q.rows.keys) × AreAmong q.rows.keys q.known };
}

impl Queue {
    /// No rows.
    pub fn make(alloc: Global) -> Queue
        ensures { result ≡ [] }
    {
        Queue {
            rows: BTreeSet::new(alloc),
            known: KnownKeys::make(alloc),
            round: Round::make(),
            alloc,
        }
    }

    /// Adds the row of a base, and answers true; where the same was there it answers false. It fails only for want of memory, and
    /// then nothing changes. The row is copied only where it isn't known to be there.
    #[inline]
    pub fn add(&mut self, row: &Row, base: u32) -> Result<bool, AllocError>
        requires { row.now.table ≡ Points }
        ensures ok { IfOk result (λ added. AddMade self.old (stored_as row.now base) added self.new) }
        ensures rising { AreQueued self.new }
        ensures err { OnErr result (self.new ≡ self.old) }
    {
        let next = self.known.confirm(self.round.guess(), base, &row.bytes);
        if let Some(at) = next {
            self.round.came(at);
            return Ok(false);
        }
        self.add_other(row, base)
    }

    /// Adds a row that isn't the one that is guessed.
    #[inline(never)]
    fn add_other(&mut self, row: &Row, base: u32) -> Result<bool, AllocError>
        requires { row.now.table ≡ Points }
        ensures ok { IfOk result (λ added. AddMade self.old (stored_as row.now base) added self.new) }
        ensures rising { AreQueued self.new }
        ensures err { OnErr result (self.new ≡ self.old) }
    {
        let hash = hash_bytes(row.bytes.list());
        if let Some(at) = self.known.find(hash, base, &row.bytes) {
            self.round.came(at);
            return Ok(false);
        }
        let key = (base, row.bytes.again(self.alloc)?);
        self.insert(hash, key)
    }

    /// Adds the row of a base and bytes, which have this hash.
    fn insert(&mut self, hash: u64, key: (u32, Bytes)) -> Result<bool, AllocError>
        ensures ok { IfOk result (λ added. AddMade self.old (stored_of key) added self.new) }
        ensures rising { AreQueued self.new }
        ensures err { OnErr result (self.new ≡ self.old) }
    {
        let copy = (key.0, key.1.again(self.alloc)?);
        let added = self.rows.insert(key)?;
        let most = self.rows.len().saturating_mul(2).saturating_add(64);
        self.known.keep(hash, copy, most);
        Ok(added)
    }

    /// How many rows there are.
    pub fn len(&self) -> u64
        ensures len { result ≡ length self.now }
        ensures rising { AreQueued self.now }
    {
        self.rows.len() as u64
    }

    /// Takes the first row out, or answers None where there is none. It takes no memory. Each row that stays is searched for once
    /// when it's added again.
    pub fn pop(&mut self) -> Option<Stored>
        ensures first { MatchOption result ((self.old ≡ []) × (self.new ≡ [])) (λ first. self.old ≡ first ∷ self.new) }
        ensures rising { AreQueued self.old }
    {
        let key = self.rows.pop_first()?;
        self.known.clear();
        let (base, bytes) = key;
        Some(Stored {
            row: Row {
                table: Table::Points,
                bytes,
            },
            base,
        })
    }

    /// The first row, where it is below this base. It stays in the queue.
    pub(crate) fn next_below(&self, alloc: Global, before: u32) -> Result<Option<Row>, AllocError>
        ensures next { IfOk result (λ next. MatchOption next (NoneBelow before self.now) (IsNextBelow before self.now)) }
        ensures err { OnErr result ((row : Row) × IsNextBelow before self.now row) }
        ensures rising { AreQueued self.now }
    {
        let Some((base, bytes)) = self.rows.first() else {
            return Ok(None);
        };
        if *base >= before {
            return Ok(None);
        }
        Ok(Some(Row {
            table: Table::Points,
            bytes: bytes.again(alloc)?,
        }))
    }
}
