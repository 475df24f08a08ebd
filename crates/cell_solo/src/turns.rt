//! The steps that callers made, packed.
ghost use Rattle.std.specs.Prelude.{◌≡◌, ◌≤◌, ◌<◌, ◌+◌, ◌%◌, ◌^◌, [], ◌∷◌, ◌++◌, length, count_by, nat_eq, IsTrue, OnOk};
ghost use Rattle.tsd_base.specs.Points.{data_point};
ghost use Rattle.cell_model.specs.declared.events.Step.TheVariants.{Open, Read, NextRow, Bump, Claim, PutMerged, DropCells};
ghost use Rattle.qual_codec.specs.Items.{item_bytes};
ghost use Rattle.qual_codec.specs.Spelling.{IsShortest};
ghost use Rattle.cell_solo.specs.declared.turns.Head.{Head};
ghost use Rattle.cell_solo.specs.PackedTurns.{IsOnlyPut, caller_of};
ghost use Rattle.cell_model.specs.Readings.{store_step};
ghost use Rattle.cell_solo.specs.TurnPlaces.{named_row_of};
ghost use Rattle.cell_solo.specs.Turns.{Turn};

use crate::turn_bytes::{CellLengths, room_of, write, write_cell, write_value};
use crate::turn_places::Places;
use cell_model::row::{Drops, Row};
use qual_codec::Bytes;
use row_hours::HOUR_MILLIS;
use row_key::Table;
use std::alloc::{AllocError, Global};
use std::marker::Model;
use tsd_base::kinds::Kind;
use tsd_base::points::Point;

// The greatest length, in bytes, that the parts of a step have together.
const MOST: usize = 4294967295;

// For how many steps room is made at once: the next one, and 8 that take no memory.
const ROOM: usize = 9;

/// A step without its parts: whose it is, what it is, and how many bytes its parts have.
#[derive(Clone, Copy, Drop)]
enum Head {
    Open {
        caller: u8,
    },
    Read {
        caller: u8,
        table: Table,
        row: u32,
    },
    NextRow {
        caller: u8,
        table: Table,
        from: u32,
        to: u32,
    },
    Bump {
        caller: u8,
        kind: Kind,
    },
    Claim {
        caller: u8,
        table: Table,
        cell: CellLengths,
    },
    // A put or an append, at this place, at this millisecond of its hour.
    PutPoint {
        caller: u8,
        appends: bool,
        fine: bool,
        value: u8,
        place: u32,
        offset: u32,
    },
    PutMerged {
        caller: u8,
        table: Table,
        cell: CellLengths,
    },
    DropCells {
        caller: u8,
    },
}

impl Head {
    /// Whose step it is.
    #[inline]
    fn caller(self) -> u8
        ensures { result ≡ caller_of self }
    {
        match self {
            Head::Open { caller }
            | Head::Read { caller, .. }
            | Head::NextRow { caller, .. }
            | Head::Bump { caller, .. }
            | Head::Claim { caller, .. }
            | Head::PutPoint { caller, .. }
            | Head::PutMerged { caller, .. }
            | Head::DropCells { caller } => caller,
        }
    }
}

/// What a drop named.
#[derive(Drop)]
struct Dropped {
    row: Row,
    which: Drops,
}

/// Steps with their callers, the first one first.
///
/// A step takes a head of 16 bytes, and the bytes of its parts, which are one block. A put or an append of a point has only its
/// value in that block: its qualifier follows from what the head tells, and its names, its hour and its row stand at its place,
/// which it shares with earlier puts and appends where these are the same and the place is found. A drop is kept as it was given. Contracts see
/// the list of turns, and for how much more there is room.
#[derive(Drop)]
pub struct Turns {
    heads: Vec<Head>,
    bytes: Vec<u8>,
    drops: Vec<Dropped>,
    places: Places,
}

/// How many heads are this caller's.
fn count_heads(heads: &[Head], caller: u8) -> usize
    ensures { result ≡ count_by (λ (h : Head). nat_eq (caller_of h) caller) heads.now }
{
    heads.iter().filter(|head| head.caller() == caller).count()
}

impl Model for Turns {
    ghost use Rattle.std.specs.Prelude.{◌-◌, min, vec_len, vec_capacity};
    ghost use Rattle.cell_solo.specs.PackedTurns.{TurnList, unpacked, Fills};

    ghost Value = { TurnList };

    ghost view = { λ t. record { list = unpacked t.heads.items t.bytes.items t.drops.items t.places.list; spare = min (vec_capacity t.heads - vec_len t.heads) (min (vec_capacity t.drops - vec_len t.drops) t.places.spare); room = min (vec_capacity t.bytes - vec_len t.bytes) t.places.room } };

    ghost invariant = { λ t. Fills t.heads.items t.bytes.items t.drops.items t.places.list };
}

/// For how many more steps room is made where there are so many: a list of heads grows by an eighth, since it is the longest.
fn room_for(count: usize) -> usize
    ensures { 9 ≤ result }
{
    (count / 8).max(ROOM)
}

impl Turns {
    /// No steps.
    pub fn make(alloc: Global) -> Turns
        ensures { result.list ≡ [] }
    {
        Turns {
            heads: Vec::new(alloc),
            bytes: Vec::new(alloc),
            drops: Vec::new(alloc),
            places: Places::make(alloc),
        }
    }

    /// How many steps there are.
    #[inline]
    pub fn len(&self) -> u64
        ensures len { result ≡ length self.now.list }
        ensures few { result < 2 ^ 63 }
    {
        self.heads.len() as u64
    }

    /// How many steps are this caller's.
    pub fn count(&self, caller: u8) -> u64
        ensures { result ≡ count_by (λ (t : Turn). nat_eq t.caller caller) self.now.list }
    {
        count_heads(&self.heads, caller) as u64
    }

    /// Makes room for 9 more steps, and for this many bytes of the next one. It fails for want of memory, where these are 4 GiB,
    /// or where 9 more places of points would have no number of 32 bits.
    #[inline(always)]
    pub fn reserve(&mut self, bytes: usize) -> Result<(), AllocError>
        ensures list { self.new.list ≡ self.old.list }
        ensures spare { OnOk result (9 ≤ self.new.spare) }
        ensures room { OnOk result (bytes ≤ self.new.room) }
        ensures fits { OnOk result (bytes < 2 ^ 32) }
    {
        if bytes > MOST {
            return Err(AllocError);
        }
        if self.has_room(bytes) {
            return Ok(());
        }
        self.make_room(bytes)
    }

    /// Whether there is room for 9 more steps, and for this many bytes of the next one.
    #[inline(always)]
    fn has_room(&self, bytes: usize) -> bool
        ensures spare { IsTrue result → 9 ≤ self.now.spare }
        ensures room { IsTrue result → bytes ≤ self.now.room }
    {
        if room_of(&self.heads) < ROOM
            || room_of(&self.drops) < ROOM
            || room_of(&self.bytes) < bytes
        {
            return false;
        }
        self.places.has_room(ROOM, bytes)
    }

    /// Makes that room.
    #[inline(never)]
    fn make_room(&mut self, bytes: usize) -> Result<(), AllocError>
        ensures list { self.new.list ≡ self.old.list }
        ensures spare { OnOk result (9 ≤ self.new.spare) }
        ensures room { OnOk result (bytes ≤ self.new.room) }
    {
        self.places.reserve(ROOM, bytes)?;
        self.heads.reserve_exact(room_for(self.heads.len()))?;
        self.drops.reserve(ROOM)?;
        self.bytes.reserve(bytes)
    }

    /// Adds an opening.
    pub fn add_open(&mut self, caller: u8)
        requires { 1 ≤ self.old.spare }
        ensures list { self.new.list ≡ self.old.list ++ record { caller = caller; step = Open } ∷ [] }
        ensures spare { self.old.spare ≤ self.new.spare + 1 }
    {
        self.heads.push_reserved(Head::Open { caller });
    }

    /// Adds a read.
    pub fn add_read(&mut self, caller: u8, row: &Row)
        requires spare { 1 ≤ self.old.spare }
        requires room { length row.now.bytes ≤ self.old.room }
        requires fits { length row.now.bytes < 2 ^ 32 }
        ensures list { self.new.list ≡ self.old.list ++ record { caller = caller; step = Read row.now } ∷ [] }
        ensures spare { self.old.spare ≤ self.new.spare + 1 }
    {
        let bytes = row.bytes.list();
        write(&mut self.bytes, bytes);
        self.heads.push_reserved(Head::Read {
            caller,
            table: row.table,
            row: bytes.len() as u32,
        });
    }

    /// Adds a search for the next row.
    pub fn add_next_row(&mut self, caller: u8, table: Table, from: &Bytes, to: &Bytes)
        requires spare { 1 ≤ self.old.spare }
        requires room { length from.now + length to.now ≤ self.old.room }
        requires fits { length from.now + length to.now < 2 ^ 32 }
        ensures list { self.new.list ≡ self.old.list ++ record { caller = caller; step = NextRow table from.now to.now } ∷ [] }
        ensures spare { self.old.spare ≤ self.new.spare + 1 }
    {
        write(&mut self.bytes, from.list());
        write(&mut self.bytes, to.list());
        self.heads.push_reserved(Head::NextRow {
            caller,
            table,
            from: from.list().len() as u32,
            to: to.list().len() as u32,
        });
    }

    /// Adds a bump.
    pub fn add_bump(&mut self, caller: u8, kind: Kind)
        requires { 1 ≤ self.old.spare }
        ensures list { self.new.list ≡ self.old.list ++ record { caller = caller; step = Bump kind } ∷ [] }
        ensures spare { self.old.spare ≤ self.new.spare + 1 }
    {
        self.heads.push_reserved(Head::Bump { caller, kind });
    }

    /// Adds a claim.
    pub fn add_claim(&mut self, caller: u8, row: &Row, qual: &Bytes, value: &Bytes)
        requires spare { 1 ≤ self.old.spare }
        requires room { length row.now.bytes + length qual.now + length value.now ≤ self.old.room }
        requires fits { length row.now.bytes + length qual.now + length value.now < 2 ^ 32 }
        ensures list { self.new.list ≡ self.old.list ++ record { caller = caller; step = Claim row.now qual.now value.now } ∷ [] }
        ensures spare { self.old.spare ≤ self.new.spare + 1 }
    {
        let cell = write_cell(&mut self.bytes, row, qual, value);
        self.heads.push_reserved(Head::Claim {
            caller,
            table: row.table,
            cell,
        });
    }

    /// Adds a put or an append of a point in its shortest value, whose qualifier is its one item. The room is that of its row and
    /// its value, and [`crate::turn_bytes::MOST_NAMES`] for its names.
    #[inline(always)]
    pub fn add_point(&mut self, caller: u8, appends: bool, point: &Point, row: &Row, value: &[u8])
        requires spare { 1 ≤ self.old.spare }
        requires room { 4352 + (length row.now.bytes + length value.now) ≤ self.old.room }
        requires fits { 4352 + (length row.now.bytes + length value.now) < 2 ^ 32 }
        requires shortest { IsShortest point.now.value value.now }
        requires only { IsOnlyPut self.old.list (named_row_of (data_point point.now) row.now) }
        ensures list { self.new.list ≡ self.old.list ++ record { caller = caller; step = store_step appends (data_point point.now) row.now (item_bytes (record { offset = point.now.time % HOUR_MILLIS; fine = point.now.fine; len = length value.now })) value.now } ∷ [] }
        ensures spare { self.old.spare ≤ self.new.spare + 1 }
    {
        let place = self.places.find_or_add(point, row);
        write_value(&mut self.bytes, value);
        self.heads.push_reserved(Head::PutPoint {
            caller,
            appends,
            fine: point.fine,
            value: value.len() as u8,
            place,
            offset: (point.time % HOUR_MILLIS) as u32,
        });
    }

    /// Adds a put of a merged cell.
    pub fn add_merged(&mut self, caller: u8, row: &Row, qual: &Bytes, value: &Bytes)
        requires spare { 1 ≤ self.old.spare }
        requires room { length row.now.bytes + length qual.now + length value.now ≤ self.old.room }
        requires fits { length row.now.bytes + length qual.now + length value.now < 2 ^ 32 }
        ensures list { self.new.list ≡ self.old.list ++ record { caller = caller; step = PutMerged row.now qual.now value.now } ∷ [] }
        ensures spare { self.old.spare ≤ self.new.spare + 1 }
    {
        let cell = write_cell(&mut self.bytes, row, qual, value);
        self.heads.push_reserved(Head::PutMerged {
            caller,
            table: row.table,
            cell,
        });
    }

    /// Adds a drop.
    pub fn add_drops(&mut self, caller: u8, row: Row, which: Drops)
        requires { 1 ≤ self.old.spare }
        ensures list { self.new.list ≡ self.old.list ++ record { caller = caller; step = DropCells row which } ∷ [] }
        ensures spare { self.old.spare ≤ self.new.spare + 1 }
    {
        self.drops.push_reserved(Dropped { row, which });
        self.heads.push_reserved(Head::DropCells { caller });
    }
}
