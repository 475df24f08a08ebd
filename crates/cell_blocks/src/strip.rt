//! Cells of one size, one behind the other.
ghost use Rattle.std.specs.Prelude.{◌≡◌, ◌⊎◌, ◌≤◌, ◌<◌, ◌-◌, ◌↔◌, ℕ, true, [], ◌∷◌, ◌++◌, length, IfOk, IfSome, IsSome, IsTrue, OnOk, OnErr, slice_index_or, slice_set, insert, if◌then◌else◌};
ghost use Rattle.std.specs.List.{remove as without};
ghost use Rattle.std.specs.Int.{w64, from_le_bytes};
ghost use Rattle.cell_blocks.specs.Packed.{stamped_at};
ghost use Rattle.cell_blocks.specs.Seeks.{IsBehindLast, IsCellAt, IsLastStamped};
ghost use Rattle.cell_blocks.specs.Strips.{slot_cell, slot_cells, EndsWith};
ghost use Rattle.qual_codec.specs.declared.cells.Cell.{Cell};

use crate::room::place;
use crate::small_value::SmallValue;
use crate::two_bytes::order_two;
use std::alloc::{AllocError, Global};
use std::marker::Model;

// A cell: its version, with the lowest byte first, its qualifier and its value. All of it are bytes, so that it takes no more
// than these.
#[derive(Clone, Copy, Drop)]
struct Slot<V> {
    version: [u8; 8],
    qual: [u8; 2],
    value: V,
}

/// Cells by index, each with a qualifier of two bytes and a small value. A cell takes 8 bytes beside these, and one for the
/// length of its value.
///
/// The qualifier of the last cell stands beside them too. Most cells are put behind it, and then nothing of the cells is read, whose
/// memory seldom is in the processor's caches.
#[derive(Drop)]
pub struct Strip<V: SmallValue> {
    slots: Vec<Slot<V>>,
    last: [u8; 2],
}

impl<V: SmallValue> Model for Strip<V> {
    ghost use Rattle.std.specs.Prelude.{List};
    ghost use Rattle.qual_codec.specs.declared.cells.Cell.{Cell};
    ghost use Rattle.cell_blocks.specs.Strips.{slot_cells, EndsWith};

    ghost Value = { List Cell };

    ghost view = { λ s. slot_cells V.bytes s.slots.items };

    ghost invariant = { λ s. EndsWith s.last (slot_cells V.bytes s.slots.items) };
}

// A slot for this cell, if it suits.
#[inline]
fn slot_of<V: SmallValue>(qual: &[u8], value: &[u8], version: u64) -> Option<Slot<V>>
    ensures cell { IfSome result (λ s. slot_cell V.bytes s ≡ record { qual = qual.now; value = value.now; version = version }) }
    ensures suits { length qual.now ≡ 2 → V.suits (length value.now) ≡ true → IsSome result }
{
    let qual = *qual.as_array::<2>()?;
    let value = V::of(value)?;
    Some(Slot {
        version: version.to_le_bytes(),
        qual,
        value,
    })
}

// The qualifier of the last slot, if there is one.
fn last_of<V: SmallValue>(slots: &Vec<Slot<V>>) -> [u8; 2]
    ensures { EndsWith result (slot_cells V.bytes slots.now.items) }
{
    match slots.last() {
        Some(slot) => slot.qual,
        None => [0; 2],
    }
}

impl<V: SmallValue> Strip<V> {
    /// No cells.
    pub fn make(alloc: Global) -> Strip<V>
        ensures { result ≡ [] }
    {
        Strip {
            slots: Vec::new(alloc),
            last: [0; 2],
        }
    }

    /// No cells, and room for so many. It fails only for want of memory.
    pub fn with_room(alloc: Global, count: usize) -> Result<Strip<V>, AllocError>
        ensures { IfOk result (λ made. made ≡ []) }
    {
        let mut slots = Vec::new(alloc);
        slots.reserve_exact(count)?;
        Ok(Strip {
            slots,
            last: [0; 2],
        })
    }

    /// Adds a cell behind the last one. It fails only for want of memory.
    #[inline(always)]
    pub fn push(&mut self, version: [u8; 8], qual: [u8; 2], value: V) -> Result<(), AllocError>
        ensures { OnOk result (self.new ≡ self.old ++ (record { qual = qual; value = V.bytes value; version = from_le_bytes w64 version }) ∷ []) }
    {
        self.slots.push(Slot {
            version,
            qual,
            value,
        })?;
        self.last = qual;
        Ok(())
    }

    /// How many cells there are.
    #[inline]
    pub fn len(&self) -> usize
        ensures { result ≡ length self.now }
    {
        self.slots.len()
    }

    /// The same, and that one more can be counted.
    #[inline]
    pub fn count(&self) -> usize
        ensures len { result ≡ length self.now }
        ensures few { result < 9223372036854775808 }
    {
        self.slots.len()
    }

    /// The qualifier of the cell at `i`.
    #[inline]
    pub fn qual(&self, i: usize) -> &[u8]
        requires { i < length self.now }
        ensures qual { (d : Cell) → result.now ≡ (slice_index_or self.now i d).qual }
        ensures two { length result.now ≡ 2 }
    {
        &self.slots[i].qual
    }

    /// The value of the cell at `i`.
    #[inline]
    pub fn value(&self, i: usize) -> &[u8]
        requires { i < length self.now }
        ensures value { (d : Cell) → result.now ≡ (slice_index_or self.now i d).value }
        ensures suits { V.suits (length result.now) ≡ true }
    {
        self.slots[i].value.list()
    }

    /// The version of the cell at `i`.
    #[inline]
    pub fn version(&self, i: usize) -> u64
        requires { i < length self.now }
        ensures { (d : Cell) → result ≡ (slice_index_or self.now i d).version }
    {
        u64::from_le_bytes(self.slots[i].version)
    }

    /// Puts a cell before the one at `i`, or behind the last one, and answers whether it suits: one that doesn't isn't put.
    /// It fails only for want of memory.
    #[inline]
    pub fn insert(
        &mut self,
        i: usize,
        qual: &[u8],
        value: &[u8],
        version: u64,
    ) -> Result<bool, AllocError>
        requires { i ≤ length self.old }
        ensures ok { IfOk result (λ suits. self.new ≡ (if suits then insert self.old i (record { qual = qual.now; value = value.now; version = version }) else self.old)) }
        ensures err { OnErr result (self.new ≡ self.old) }
    {
        let Some(slot) = slot_of(qual, value, version) else {
            return Ok(false);
        };
        place(&mut self.slots, i, slot)?;
        self.last = last_of(&self.slots);
        Ok(true)
    }

    /// Puts a cell behind the last one, where its qualifier is behind that one's, it suits and there is room, and answers whether
    /// it was put.
    #[inline(always)]
    pub fn put_behind(&mut self, qual: &[u8], value: &[u8], version: u64) -> bool
        ensures behind { IsTrue result → IsBehindLast qual.now self.old }
        ensures cells { self.new ≡ (if result then insert self.old (length self.old) (record { qual = qual.now; value = value.now; version = version }) else self.old) }
    {
        let Some(slot) = slot_of(qual, value, version) else {
            return false;
        };
        if self.slots.len() == self.slots.capacity() || !self.ends_before(slot.qual) {
            return false;
        }
        if self.slots.push(slot).is_err() {
            return false;
        }
        self.last = slot.qual;
        true
    }

    // Whether there is a last cell, and its qualifier is before this one.
    #[inline(always)]
    fn ends_before(&self, two: [u8; 2]) -> bool
        ensures { IsTrue result → IsBehindLast two self.now }
    {
        !self.slots.is_empty() && order_two(two, self.last).is_gt()
    }

    /// Writes another cell over the one at `i`, and answers whether it suits: one that doesn't isn't written.
    pub fn set(&mut self, i: usize, qual: &[u8], value: &[u8], version: u64) -> bool
        requires { i < length self.old }
        ensures cells { self.new ≡ (if result then slice_set self.old i (record { qual = qual.now; value = value.now; version = version }) else self.old) }
        ensures in_place { (d : Cell) → length (slice_index_or self.old i d).qual ≡ length qual.now → length (slice_index_or self.old i d).value ≡ length value.now → result ≡ true }
    {
        // What stands there has two bytes and a length that suits.
        let _ = self.qual(i);
        let _ = self.value(i);
        match slot_of(qual, value, version) {
            Some(slot) => {
                self.slots[i] = slot;
                self.last = last_of(&self.slots);
                true
            }
            None => false,
        }
    }

    /// Sets the version of the cell at `i`.
    #[inline(always)]
    pub fn stamp(&mut self, i: usize, version: u64)
        requires { i < length self.old }
        ensures { (d : Cell) → self.new ≡ slice_set self.old i (stamped_at (slice_index_or self.old i d) version) }
    {
        self.slots[i].version = version.to_le_bytes();
    }

    /// Sets the version of the last cell, if it has this qualifier, and answers whether it has.
    #[inline(always)]
    pub fn stamp_last(&mut self, qual: &[u8], version: u64) -> bool
        ensures found { IsTrue result → IsLastStamped qual.now version self.old self.new }
        ensures other { IsTrue result ⊎ (self.new ≡ self.old) }
    {
        let Some(two) = qual.as_array::<2>() else {
            return false;
        };
        if !self.ends_with(*two) {
            return false;
        }
        let last = self.slots.len() - 1;
        self.stamp(last, version);
        true
    }

    // Whether there is a last cell, and it has this qualifier.
    #[inline(always)]
    fn ends_with(&self, two: [u8; 2]) -> bool
        ensures { IsTrue result → IsCellAt two self.now (length self.now - 1) }
    {
        !self.slots.is_empty() && order_two(two, self.last).is_eq()
    }

    /// Takes the cell at `i` out.
    pub fn remove(&mut self, i: usize)
        requires { i < length self.old }
        ensures { self.new ≡ without self.old i }
    {
        let _ = self.slots.remove(i);
        self.last = last_of(&self.slots);
    }

    /// The same cells once more. It fails only for want of memory.
    pub fn again(&self, alloc: Global) -> Result<Strip<V>, AllocError>
        ensures { IfOk result (λ made. made ≡ self.now) }
    {
        Ok(Strip {
            slots: Vec::from_slice(alloc, self.slots.as_slice())?,
            last: self.last,
        })
    }
}
