//! Cells at even steps of time. Their qualifiers follow from their places, so they aren't kept.
ghost use Rattle.std.specs.Prelude.{◌≡◌, ◌+◌, ◌-◌, ◌*◌, ◌/◌, ◌%◌, ◌<◌, ◌≤◌, ℕ, List, None, Some, [], ◌∷◌, ◌++◌, true, IfOk, IfSome, IsSome, IsTrue, OnOk, OnErr, length, option_map, slice_index_or, if◌then◌else◌};
ghost use Rattle.std.specs.Int.{w16, to_be_bytes};
ghost use Rattle.packed_cells.specs.declared.even_cells.EvenSlot.{EvenSlot};
ghost use Rattle.std.specs.FinMap.{empty, get, insert, len};
ghost use Rattle.packed_cells.specs.EvenCells.{places, present, even_cell, even_cells, flags_in, bytes_in, IsGrid, IsSlotAt};
ghost use Rattle.packed_cells.specs.Keyed.{cells_in, map_of, stamped, goes, without};
ghost use Rattle.cell_blocks.specs.Seeks.{Rises};
ghost use Rattle.packed_cells.specs.SoleCells.{sole_map};

use crate::plain_cells::PlainCells;
use crate::sole_cell::SoleCell;
use cell_blocks::block::Block;
use cell_blocks::small_value::Narrow;
use cell_blocks::strip::Strip;
use row_hours::HOUR;
use std::alloc::{AllocError, Global};
use std::marker::Model;

// What a slot has: a value of 1 or 2 bytes, or none where there is no cell.
#[derive(Clone, Copy, Drop)]
enum EvenValue {
    One([u8; 1]),
    Two([u8; 2]),
    Gone,
}

// The version of a cell, with the lowest byte first, and its value. All of it are bytes, so that it takes no more than these.
#[derive(Clone, Copy, Drop)]
struct EvenSlot {
    version: [u8; 8],
    value: EvenValue,
}

/// Data points of integers of 1 or 2 bytes, one every so many seconds of an hour. A cell takes 11 bytes: 8 for its version and 3
/// for its value. One that is taken out leaves its place without a cell.
///
/// Contracts see them as the finite map from each qualifier to its value and version.
#[derive(Drop)]
pub struct EvenCells {
    slots: Vec<EvenSlot>,
    // The second of the first slot, how many seconds there are from a slot to the next, and the second of the slot that comes next.
    first: u16,
    step: u16,
    next: u16,
    // How many slots have no cell.
    holes: usize,
    alloc: Global,
}

impl Model for EvenCells {
    ghost use Rattle.packed_cells.specs.EvenCells.{even_cells, IsEven};
    ghost use Rattle.packed_cells.specs.Keyed.{CellMap, coded_cells, map_of};

    ghost Value = { CellMap };

    ghost coded = { coded_cells };

    ghost view = { λ e. map_of (even_cells e.first e.step e.slots.items) };

    ghost invariant = { λ e. IsEven e.first e.step e.next e.holes e.slots.items };
}

// The flags of a value's qualifier; of none they are no flags.
#[inline(always)]
fn flags_of(value: EvenValue) -> u16
    ensures { result ≡ flags_in value }
{
    match value {
        EvenValue::One(_) => 0,
        EvenValue::Two(_) => 1,
        EvenValue::Gone => 16,
    }
}

// The bytes of a value.
#[inline]
fn bytes_of(value: &EvenValue) -> &[u8]
    ensures bytes { result.now ≡ bytes_in value.now }
    ensures count { flags_in value.now < 2 → length result.now ≡ flags_in value.now + 1 }
{
    match value {
        EvenValue::One(one) => one,
        EvenValue::Two(two) => two,
        EvenValue::Gone => &[],
    }
}

// The number of two bytes, with the high one first, if a qualifier has two.
#[inline(always)]
fn number_of(qual: &[u8]) -> Option<u16>
    ensures two { IfSome result (λ n. to_be_bytes w16 n ≡ qual.now) }
    ensures short { IfSome result (λ n. n < 65536) }
    ensures other { (n : ℕ) → to_be_bytes w16 n ≡ qual.now → IsSome result }
{
    let two = qual.as_array::<2>()?;
    Some(u16::from_be_bytes(*two))
}

// A slot for the cell of this qualifier, if its value is that of an integer of 1 or 2 bytes, as its flags say.
#[inline(always)]
fn slot_of(number: u16, value: &[u8], version: u64) -> Option<EvenSlot>
    ensures cell { IfSome result (λ s. even_cell (number / 16) s ≡ Some (record { qual = to_be_bytes w16 number; value = value.now; version = version })) }
    ensures suits { number % 16 < 2 → length value.now ≡ number % 16 + 1 → IsSome result }
{
    if let Some(one) = value.as_array::<1>() {
        if number % 16 == 0 {
            return Some(EvenSlot {
                version: version.to_le_bytes(),
                value: EvenValue::One(*one),
            });
        }
    }
    if let Some(both) = value.as_array::<2>() {
        if number % 16 == 1 {
            return Some(EvenSlot {
                version: version.to_le_bytes(),
                value: EvenValue::Two(*both),
            });
        }
    }
    None
}

// Which step this second is, if it is one.
fn step_at(first: u16, step: u16, offset: u16) -> Option<usize>
    requires { 1 ≤ step }
    ensures found { IfSome result (λ p. first + p * step ≡ offset) }
    ensures other { (p : ℕ) → first + p * step ≡ offset → IsSome result }
{
    if offset < first {
        return None;
    }
    let since = offset - first;
    if since % step != 0 {
        return None;
    }
    Some((since / step) as usize)
}

// The place of the slot of this qualifier's cell, if it is there, and the qualifier's number.
fn slot_at(slots: &Vec<EvenSlot>, first: u16, step: u16, qual: &[u8]) -> Option<(usize, u16)>
    requires { IsGrid first step (length slots.now.items) }
    ensures found { IfSome result (λ r. IsSlotAt first step slots.now.items qual.now r.1 r.0) }
    ensures absent { result ≡ None → get (map_of (even_cells first step slots.now.items)) qual.now ≡ None }
{
    let number = number_of(qual)?;
    let at = step_at(first, step, number / 16)?;
    if at < slots.len() && flags_of(slots[at].value) == number % 16 {
        Some((at, number))
    } else {
        None
    }
}

// Whether the last slot has the cell of this qualifier.
#[inline(always)]
fn ends_at(slots: &Vec<EvenSlot>, step: u16, next: u16, number: u16) -> bool
    ensures some { IsTrue result → 0 < length slots.now.items }
    ensures offset { IsTrue result → next - step ≡ number / 16 }
    ensures flags { IsTrue result → (d : EvenSlot) → flags_in (slice_index_or slots.now.items (length slots.now.items - 1) d).value ≡ number % 16 }
{
    if next < step || next - step != number / 16 {
        return false;
    }
    match slots.last() {
        Some(slot) => flags_of(slot.value) == number % 16,
        None => false,
    }
}

// The first second and the step by which the next slot is at this second, if there are such and no slot before it moves.
fn grid_to(
    slots: &Vec<EvenSlot>,
    first: u16,
    step: u16,
    next: u16,
    offset: u16,
) -> Option<(u16, u16)>
    requires grid { IsGrid first step (length slots.now.items) }
    requires ends { next ≡ first + length slots.now.items * step }
    requires short { offset ≤ 4095 }
    ensures same { IfSome result (λ g. places g.0 g.1 slots.now.items ≡ places first step slots.now.items) }
    ensures next { IfSome result (λ g. g.0 + length slots.now.items * g.1 ≡ offset) }
    ensures grid { IfSome result (λ g. IsGrid g.0 g.1 (length slots.now.items)) }
{
    match slots.len() {
        0 => Some((offset, step)),
        1 => {
            if first < offset {
                Some((first, offset - first))
            } else {
                None
            }
        }
        _ => {
            if offset == next {
                Some((first, step))
            } else {
                None
            }
        }
    }
}

// How many more slots to make room for: a quarter of those that are there, but no more than the hour has steps.
fn room_for(count: usize, first: u16, step: u16) -> usize {
    let quarter = count / 4 + 4;
    let second = u32::from(first);
    if second >= HOUR || step == 0 || count < 2 {
        return quarter;
    }
    let steps = ((HOUR - 1 - second) / u32::from(step)) as usize + 1;
    if steps <= count {
        return quarter;
    }
    if steps - count < quarter {
        steps - count
    } else {
        quarter
    }
}

// Adds a slot behind the last one.
fn add_slot(
    slots: &mut Vec<EvenSlot>,
    first: u16,
    step: u16,
    slot: EvenSlot,
) -> Result<(), AllocError>
    ensures ok { OnOk result (slots.new.items ≡ slots.old.items ++ slot ∷ []) }
    ensures err { OnErr result (slots.new.items ≡ slots.old.items) }
{
    if slots.len() == slots.capacity() {
        slots.reserve_exact(room_for(slots.len(), first, step))?;
    }
    slots.push(slot)?;
    Ok(())
}

// Adds the cell of a slot at this second, if there is one.
#[inline(always)]
fn add_cell(made: &mut Strip<Narrow>, offset: u16, slot: EvenSlot) -> Result<(), AllocError>
    requires { offset ≤ 4095 }
    ensures { OnOk result (made.new ≡ made.old ++ present (even_cell offset slot ∷ [])) }
{
    match slot.value {
        EvenValue::One(one) => made.push(
            slot.version,
            (offset * 16).to_be_bytes(),
            Narrow::One(one),
        ),
        EvenValue::Two(both) => made.push(
            slot.version,
            (offset * 16 + 1).to_be_bytes(),
            Narrow::Two(both),
        ),
        EvenValue::Gone => Ok(()),
    }
}

// The cells in a strip.
fn strip_of(
    slots: &Vec<EvenSlot>,
    first: u16,
    step: u16,
    alloc: Global,
) -> Result<Strip<Narrow>, AllocError>
    requires { IsGrid first step (length slots.now.items) }
    ensures { IfOk result (λ made. made ≡ even_cells first step slots.now.items) }
{
    let mut made = Strip::with_room(alloc, slots.len())?;
    let mut offset = first;
    for slot in slots {
        add_cell(&mut made, offset, *slot)?;
        offset += step;
    }
    Ok(made)
}

impl EvenCells {
    /// No cells.
    pub fn make(alloc: Global) -> EvenCells
        ensures { result ≡ empty }
    {
        EvenCells {
            slots: Vec::new(alloc),
            first: 0,
            step: 1,
            next: 0,
            holes: 0,
            alloc,
        }
    }

    /// How many cells there are.
    #[inline]
    pub fn len(&self) -> usize
        ensures { result ≡ len self.now }
    {
        self.slots.len() - self.holes
    }

    /// A copy of the cells by index, from the least qualifier. It fails only for want of memory.
    #[inline(never)]
    pub fn again(&self, alloc: Global) -> Result<Block, AllocError>
        ensures same { IfOk result (λ cells. cells ≡ cells_in self.now) }
        ensures rises { IfOk result (λ cells. Rises cells) }
    {
        let cells = strip_of(&self.slots, self.first, self.step, alloc)?;
        Ok(Block::of(alloc, cells))
    }

    /// The same cells in a block. It fails only for want of memory.
    #[inline(never)]
    pub fn plain(&self) -> Result<PlainCells, AllocError>
        ensures { IfOk result (λ cells. cells ≡ self.now) }
    {
        let cells = strip_of(&self.slots, self.first, self.step, self.alloc)?;
        Ok(PlainCells::of(Block::of(self.alloc, cells)))
    }

    // Whether there is no cell.
    fn has_none(&self) -> bool
        ensures { IsTrue result → self.now ≡ empty }
    {
        self.len() == 0
    }

    // Where the memory of the cells is taken.
    fn alloc(&self) -> Global {
        self.alloc
    }

    /// This cell by itself, where there is no other and it is short enough.
    #[inline(never)]
    pub fn sole(&self, qual: &[u8], value: &[u8], version: u64) -> Option<SoleCell>
        ensures { IfSome result (λ cell. sole_map cell ≡ insert self.now qual.now (value.now, version)) }
    {
        if self.has_none() {
            SoleCell::first(self.alloc(), qual, value, version)
        } else {
            None
        }
    }

    /// The value of this qualifier's cell, if it is there.
    pub fn value(&self, qual: &[u8]) -> Option<&[u8]>
        ensures { option_map (λ v. v.now) result ≡ option_map (λ c. c.0) (get self.now qual.now) }
    {
        match slot_at(&self.slots, self.first, self.step, qual) {
            Some(found) => Some(bytes_of(&self.slots[found.0].value)),
            None => None,
        }
    }

    /// Puts a cell behind the last one, where it is at the next step, suits and there is room, and answers whether it was put.
    #[inline(always)]
    pub fn put_behind(&mut self, qual: &[u8], value: &[u8], version: u64) -> bool
        ensures { self.new ≡ (if result then insert self.old qual.now (value.now, version) else self.old) }
    {
        let Some(number) = number_of(qual) else {
            return false;
        };
        let Some(slot) = slot_of(number, value, version) else {
            return false;
        };
        let offset = number / 16;
        if offset != self.next || self.slots.len() == self.slots.capacity() {
            return false;
        }
        if self.slots.push(slot).is_err() {
            return false;
        }
        self.next = offset + self.step;
        true
    }

    /// Puts a cell behind the last one, where it is at the next step and suits, and answers whether it was put. The second cell
    /// says what the step is. It fails only for want of memory.
    #[inline(never)]
    pub fn push(&mut self, qual: &[u8], value: &[u8], version: u64) -> Result<bool, AllocError>
        ensures ok { IfOk result (λ r. self.new ≡ (if r then insert self.old qual.now (value.now, version) else self.old)) }
        ensures err { OnErr result (self.new ≡ self.old) }
    {
        let Some(number) = number_of(qual) else {
            return Ok(false);
        };
        let Some(slot) = slot_of(number, value, version) else {
            return Ok(false);
        };
        let offset = number / 16;
        let Some(grid) = grid_to(&self.slots, self.first, self.step, self.next, offset) else {
            return Ok(false);
        };
        add_slot(&mut self.slots, grid.0, grid.1, slot)?;
        self.first = grid.0;
        self.step = grid.1;
        self.next = offset + grid.1;
        Ok(true)
    }

    /// Writes the cell of this qualifier over its older one, if that is there and this one suits, and answers whether it was written.
    #[inline(never)]
    pub fn set(&mut self, qual: &[u8], value: &[u8], version: u64) -> bool
        ensures cells { self.new ≡ (if result then insert self.old qual.now (value.now, version) else self.old) }
        ensures in_place { (v : List ℕ) (n : ℕ) → get self.old qual.now ≡ Some (v, n) → length v ≡ length value.now → result ≡ true }
    {
        let Some(found) = slot_at(&self.slots, self.first, self.step, qual) else {
            return false;
        };
        // What stands there has as many bytes as its flags say.
        let _ = bytes_of(&self.slots[found.0].value);
        match slot_of(found.1, value, version) {
            Some(slot) => {
                self.slots[found.0] = slot;
                true
            }
            None => false,
        }
    }

    /// Sets the version of this qualifier's cell, if it is there.
    #[inline(never)]
    pub fn stamp(&mut self, qual: &[u8], version: u64)
        ensures { self.new ≡ stamped self.old qual.now version }
    {
        if let Some(found) = slot_at(&self.slots, self.first, self.step, qual) {
            self.slots[found.0].version = version.to_le_bytes();
        }
    }

    /// Sets the version of the last cell, if it has this qualifier, and answers whether it has.
    #[inline(always)]
    pub fn stamp_last(&mut self, qual: &[u8], version: u64) -> bool
        ensures { self.new ≡ (if result then stamped self.old qual.now version else self.old) }
    {
        let Some(number) = number_of(qual) else {
            return false;
        };
        if !ends_at(&self.slots, self.step, self.next, number) {
            return false;
        }
        let last = self.slots.len() - 1;
        self.slots[last].version = version.to_le_bytes();
        true
    }

    /// Takes this qualifier's cell out, if it is there and its version isn't above this one, and answers whether it went. It leaves
    /// a hole, and needs no memory. The memory is given back with the last cell.
    #[inline(never)]
    pub fn remove(&mut self, qual: &[u8], version: u64) -> bool
        ensures gone { result ≡ goes (get self.old qual.now) version }
        ensures rest { self.new ≡ without self.old qual.now version }
    {
        let Some(found) = slot_at(&self.slots, self.first, self.step, qual) else {
            return false;
        };
        if u64::from_le_bytes(self.slots[found.0].version) > version {
            return false;
        }
        self.slots[found.0].value = EvenValue::Gone;
        self.holes += 1;
        self.shrink();
        true
    }

    // Gives the memory back where no cell is left.
    fn shrink(&mut self)
        ensures { self.new ≡ self.old }
    {
        if self.holes == self.slots.len() {
            self.slots = Vec::new(self.alloc);
            self.next = self.first;
            self.holes = 0;
        }
    }
}
