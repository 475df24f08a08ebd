//! Places: the names of points with their hours and rows. Points at one place share it.
ghost use Rattle.std.specs.Prelude.{◌≡◌, ◌≤◌, ◌<◌, ◌+◌, ◌-◌, ◌^◌, [], ◌∷◌, ◌++◌, length, IsTrue, IfSome, OnOk, slice_get};
ghost use Rattle.tsd_base.specs.Points.{data_point};
ghost use Rattle.cell_solo.specs.TurnPlaces.{HasAlso, HasRow, IsOnlyOfRow, IsWithin, AreWithin, named_row_of, places_in, row_at};

use crate::turn_bytes::{room_of, write, write_names};
use cell_model::row::Row;
use guess_table::{Guesses, Round, hash_bytes};
use row_hours::HOUR_MILLIS;
use row_key::Table;
use short_bytes::same_bytes::is_same;
use std::alloc::{AllocError, Global};
use std::marker::Model;
use tsd_base::points::Point;

// How many places can be told apart by 32 bits.
const MOST_PLACES: usize = 4294967296;

/// The hour of a point, counted from 1970, and where in the block its names stand, with a row behind them: how many bytes each
/// has, and how many tags are named.
#[derive(Clone, Copy, Drop)]
struct Place {
    start: usize,
    hour: u64,
    row: u32,
    names: u16,
    table: Table,
    tags: u8,
}

/// Places, numbered from 0.
///
/// The bytes of all are one block; beside them a place takes 24 bytes, and one for each of its names. A table of guesses from rows
/// to places finds the place of a point that comes by turns with others. Contracts see the list of places, and for how much more
/// there is room.
#[derive(Drop)]
pub struct Places {
    list: Vec<Place>,
    bytes: Vec<u8>,
    // The number of the place that a row had last, by the hash of the row's bytes.
    guesses: Guesses<u32>,
    // Where points come round in the order of their places.
    round: Round,
}

impl Model for Places {
    ghost use Rattle.std.specs.Prelude.{◌-◌, ◌^◌, min, vec_len, vec_capacity};
    ghost use Rattle.cell_solo.specs.TurnPlaces.{PlaceList, places_in, AreWithin};

    ghost Value = { PlaceList };

    ghost view = { λ p. record { list = places_in p.list.items p.bytes.items; spare = min (vec_capacity p.list - vec_len p.list) (2 ^ 32 - vec_len p.list); room = vec_capacity p.bytes - vec_len p.bytes } };

    ghost invariant = { λ p. AreWithin p.list.items p.bytes.items };
}

impl Places {
    /// No places.
    pub fn make(alloc: Global) -> Places
        ensures { result.list ≡ [] }
    {
        Places {
            list: Vec::new(alloc),
            bytes: Vec::new(alloc),
            guesses: Guesses::make(alloc),
            round: Round::make(),
        }
    }

    /// Makes room for this many further places, and for this many bytes of the next one. It fails for want of memory, or where
    /// there would be more than 2^32 places.
    pub fn reserve(&mut self, count: usize, bytes: usize) -> Result<(), AllocError>
        ensures list { self.new.list ≡ self.old.list }
        ensures spare { OnOk result (count ≤ self.new.spare) }
        ensures room { OnOk result (bytes ≤ self.new.room) }
    {
        if self.list.len().saturating_add(count) > MOST_PLACES {
            return Err(AllocError);
        }
        self.list.reserve(count)?;
        self.bytes.reserve(bytes)
    }

    /// Whether there is room for this many further places, and for this many bytes of the next one.
    #[inline(always)]
    pub fn has_room(&self, count: usize, bytes: usize) -> bool
        ensures spare { IsTrue result → count ≤ self.now.spare }
        ensures room { IsTrue result → bytes ≤ self.now.room }
    {
        if room_of(&self.list) < count || room_of(&self.bytes) < bytes {
            return false;
        }
        self.list.len().saturating_add(count) <= MOST_PLACES
    }

    /// The number of the place of this point and row: the last one or one that is guessed, where the row is the same, else a new
    /// one. A place of the row has the point's names and hour. The room is that of the row, and
    /// [`crate::turn_bytes::MOST_NAMES`] for the names.
    #[inline(always)]
    pub fn find_or_add(&mut self, point: &Point, row: &Row) -> u32
        requires spare { 1 ≤ self.old.spare }
        requires room { 4352 + length row.now.bytes ≤ self.old.room }
        requires fits { 4352 + length row.now.bytes < 2 ^ 32 }
        requires only { IsOnlyOfRow self.old.list (named_row_of (data_point point.now) row.now) }
        ensures stands { slice_get self.new.list result ≡ Some (named_row_of (data_point point.now) row.now) }
        ensures also { HasAlso self.old.list (named_row_of (data_point point.now) row.now) self.new.list }
        ensures spare { self.old.spare ≤ self.new.spare + 1 }
    {
        let next = self.round.guess();
        if let Some(number) = confirm(&self.list, &self.bytes, next, row) {
            self.round.came(number);
            return number;
        }
        self.look_up(point, row)
    }

    /// The number of the place of this point and row: the last one or the one that is guessed by the row, where the row is the
    /// same, else a new one.
    #[inline(never)]
    fn look_up(&mut self, point: &Point, row: &Row) -> u32
        requires spare { 1 ≤ self.old.spare }
        requires room { 4352 + length row.now.bytes ≤ self.old.room }
        requires fits { 4352 + length row.now.bytes < 2 ^ 32 }
        requires only { IsOnlyOfRow self.old.list (named_row_of (data_point point.now) row.now) }
        ensures stands { slice_get self.new.list result ≡ Some (named_row_of (data_point point.now) row.now) }
        ensures also { HasAlso self.old.list (named_row_of (data_point point.now) row.now) self.new.list }
        ensures spare { self.old.spare ≤ self.new.spare + 1 }
    {
        if let Some(number) = confirm(&self.list, &self.bytes, last_of(&self.list), row) {
            return number;
        }
        let hash = hash_bytes(row.bytes.list());
        let guess = self.guesses.guess(hash);
        if let Some(number) = confirm(&self.list, &self.bytes, guess, row) {
            self.round.came(number);
            return number;
        }
        let number = self.add(point, row);
        self.guesses.grow(self.list.len(), number);
        self.guesses.keep(hash, number);
        number
    }

    /// Adds a place, and answers its number.
    fn add(&mut self, point: &Point, row: &Row) -> u32
        requires spare { 1 ≤ self.old.spare }
        requires room { 4352 + length row.now.bytes ≤ self.old.room }
        requires fits { 4352 + length row.now.bytes < 2 ^ 32 }
        ensures stands { slice_get self.new.list result ≡ Some (named_row_of (data_point point.now) row.now) }
        ensures list { self.new.list ≡ self.old.list ++ named_row_of (data_point point.now) row.now ∷ [] }
        ensures spare { self.old.spare ≤ self.new.spare + 1 }
    {
        let number = self.list.len() as u32;
        let start = self.bytes.len();
        let names = write_names(&mut self.bytes, point);
        let row_bytes = row.bytes.list();
        write(&mut self.bytes, row_bytes);
        self.list.push_reserved(Place {
            start,
            hour: point.time / HOUR_MILLIS,
            row: row_bytes.len() as u32,
            names: names as u16,
            table: row.table,
            tags: point.tags.pairs().len() as u8,
        });
        number
    }
}

/// The number of the last place.
#[inline]
fn last_of(places: &[Place]) -> Option<u32> {
    let last = places.len().checked_sub(1)?;
    u32::try_from(last).ok()
}

/// The number that is guessed, where its place is of this row.
#[inline(always)]
fn confirm(places: &[Place], block: &[u8], guess: Option<u32>, row: &Row) -> Option<u32>
    requires { AreWithin places.now block.now }
    ensures { IfSome result (λ number. HasRow (places_in places.now block.now) number row.now) }
{
    let number = guess?;
    let place = places.get(number as usize)?;
    if is_at(place, block, row) {
        Some(number)
    } else {
        None
    }
}

/// Whether a place is of this row.
#[inline]
fn is_at(place: &Place, block: &[u8], row: &Row) -> bool
    requires { IsWithin block.now place.now }
    ensures table { IsTrue result → place.now.table ≡ row.now.table }
    ensures bytes { IsTrue result → row_at block.now place.now ≡ row.now.bytes }
{
    if place.table != row.table {
        return false;
    }
    let start = place.start + place.names as usize;
    let part = &block[start..start + place.row as usize];
    is_same(part, row.bytes.list())
}
