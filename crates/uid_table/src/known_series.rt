//! Series that are known by their texts, so that neither their names nor their ids need be read again.
ghost use Rattle.std.specs.Prelude.{◌≡◌, IfSome, IsTrue, Some as Just};
ghost use Rattle.cell_model.specs.Seen.{Seen};
ghost use Rattle.uid_table.specs.KnownSeries.{IsAmong, IsKept, IsShownSlot, KeepsNone, KeptAmong};

use crate::placed_point::PlacedPoint;
use guess_table::{Guesses, Trail, hash_bytes};
use qual_codec::Bytes;
use short_bytes::same_bytes::is_same;
use std::alloc::Global;
use std::marker::Model;

// The most slots of a table.
const MOST_SLOTS: usize = 262_144;

/// A series by its texts as they came: the metric, and what stands behind the value of a point. With it stands the last of
/// its points.
#[derive(Drop)]
pub struct KnownSeries {
    pub tags: Bytes,
    pub metric: Bytes,
    /// The slot where it was last. It means nothing.
    pub slot: u32,
    pub placed: PlacedPoint,
}

impl KnownSeries {
    /// Whether its texts are these.
    #[inline]
    fn is_of(&self, metric: &[u8], tags: &[u8]) -> bool
        ensures metric { IsTrue result → self.now.metric ≡ metric.now }
        ensures tags { IsTrue result → self.now.tags ≡ tags.now }
    {
        is_same(self.tags.list(), tags) && is_same(self.metric.list(), metric)
    }
}

/// The series that are kept, in the order in which they were added. Where there are as many as may be, a later one takes the
/// place of an earlier one.
///
/// Contracts see what the slots hold.
#[derive(Drop)]
pub struct SeriesTable {
    // The slot of a series is empty while the series is taken out.
    slots: Vec<Option<Box<KnownSeries>>>,
    // Which slot a series may have, by the hash of its texts.
    guesses: Guesses<u32>,
    // Which slot may be asked for next.
    trail: Trail,
}

impl Model for SeriesTable {
    ghost use Rattle.std.specs.Prelude.{List, Option};
    ghost use Rattle.std.specs.Global.{Box};
    ghost use Rattle.cell_model.specs.Seen.{Seen};
    ghost use Rattle.uid_table.specs.declared.known_series.KnownSeries.{KnownSeries};

    ghost Value = { List (Option (Box KnownSeries)) };

    ghost view = { λ t. t.slots.items };
}

impl SeriesTable {
    /// No series is kept. It takes no memory.
    pub fn make(alloc: Global) -> SeriesTable
        ensures { KeepsNone result }
    {
        SeriesTable {
            slots: Vec::new(alloc),
            guesses: Guesses::make(alloc),
            trail: Trail::make(alloc),
        }
    }

    /// Forgets each series.
    pub fn clear(&mut self)
        ensures { KeepsNone self.new }
    {
        self.slots.clear();
        self.guesses.clear();
        self.trail.clear();
    }

    /// Takes out the series of these texts, where it is kept.
    #[inline]
    pub fn take(&mut self, metric: &[u8], tags: &[u8]) -> Option<Box<KnownSeries>>
        ensures found { IsAmong self.old result }
        ensures kept { KeptAmong self.new self.old }
        ensures metric { IfSome result (λ b. b.value.metric ≡ metric.now) }
        ensures tags { IfSome result (λ b. b.value.tags ≡ tags.now) }
    {
        match self.take_next(metric, tags) {
            Some(known) => Some(known),
            None => self.take_guessed(metric, tags),
        }
    }

    /// Takes out the series of these texts, where it is the one that comes next.
    #[inline]
    fn take_next(&mut self, metric: &[u8], tags: &[u8]) -> Option<Box<KnownSeries>>
        ensures found { IsAmong self.old result }
        ensures kept { KeptAmong self.new self.old }
        ensures metric { IfSome result (λ b. b.value.metric ≡ metric.now) }
        ensures tags { IfSome result (λ b. b.value.tags ≡ tags.now) }
    {
        let at = self.trail.guess()?;
        self.take_at(at, metric, tags)
    }

    /// Takes out the series of these texts, where it is found by their hash. It stays out of the way of what comes in order.
    #[inline(never)]
    fn take_guessed(&mut self, metric: &[u8], tags: &[u8]) -> Option<Box<KnownSeries>>
        ensures found { IsAmong self.old result }
        ensures kept { KeptAmong self.new self.old }
        ensures metric { IfSome result (λ b. b.value.metric ≡ metric.now) }
        ensures tags { IfSome result (λ b. b.value.tags ≡ tags.now) }
    {
        let at = self.guesses.guess(hash_texts(metric, tags))?;
        self.take_at(at as usize, metric, tags)
    }

    /// Takes out the series of a slot, where it is that of these texts.
    #[inline(always)]
    fn take_at(&mut self, at: usize, metric: &[u8], tags: &[u8]) -> Option<Box<KnownSeries>>
        ensures found { IsAmong self.old result }
        ensures kept { KeptAmong self.new self.old }
        ensures metric { IfSome result (λ b. b.value.metric ≡ metric.now) }
        ensures tags { IfSome result (λ b. b.value.tags ≡ tags.now) }
    {
        let known = take_at(&mut self.slots, at, metric, tags)?;
        self.trail.came(at);
        Some(known)
    }

    /// Keeps a series that was taken out, in the slot where it was.
    #[inline]
    pub fn keep(&mut self, known: Box<KnownSeries>)
        ensures { IsKept self.old (Just known) self.new }
    {
        put_back(&mut self.slots, known);
    }

    /// Keeps one more series, where there is memory.
    pub fn add(&mut self, known: Box<KnownSeries>)
        ensures { IsKept self.old (Just known) self.new }
    {
        let hash = hash_texts(known.metric.list(), known.tags.list());
        let Some(slot) = self.slot_for(hash) else {
            return;
        };
        put_back(&mut self.slots, with_slot(known, slot));
        self.guesses.grow(self.slots.len().saturating_mul(2), 0);
        self.guesses.keep(hash, slot);
        self.trail.came(slot as usize);
    }

    /// A slot for a series of this hash: the one where it may have been before, or one more, or that of another series where there are
    /// as many as may be.
    fn slot_for(&mut self, hash: u64) -> Option<u32>
        ensures { KeptAmong self.new self.old }
    {
        if let Some(slot) = self.guesses.guess(hash) {
            return Some(slot);
        }
        let len = self.slots.len();
        if len >= MOST_SLOTS {
            return Some((hash >> 46) as u32);
        }
        self.slots.push(None).ok()?;
        Some(len as u32)
    }
}

/// Takes a series of these texts out of a slot, where there is that slot. Another one stays there.
#[inline]
fn take_at(
    slots: &mut Vec<Option<Box<KnownSeries>>>,
    at: usize,
    metric: &[u8],
    tags: &[u8],
) -> Option<Box<KnownSeries>>
    ensures found { IsAmong slots.old.items result }
    ensures kept { KeptAmong slots.new.items slots.old.items }
    ensures metric { IfSome result (λ b. b.value.metric ≡ metric.now) }
    ensures tags { IfSome result (λ b. b.value.tags ≡ tags.now) }
{
    if at < slots.len() {
        take_of(&mut slots[at], metric, tags)
    } else {
        None
    }
}

/// Takes a series of these texts out of its slot. Another one stays there.
#[inline]
fn take_of(
    slot: &mut Option<Box<KnownSeries>>,
    metric: &[u8],
    tags: &[u8],
) -> Option<Box<KnownSeries>>
    ensures found { (s : Seen) → IsShownSlot s slot.old → IsShownSlot s result }
    ensures kept { (s : Seen) → IsShownSlot s slot.old → IsShownSlot s slot.new }
    ensures metric { IfSome result (λ b. b.value.metric ≡ metric.now) }
    ensures tags { IfSome result (λ b. b.value.tags ≡ tags.now) }
{
    if has_texts(slot, metric, tags) {
        slot.take()
    } else {
        None
    }
}

/// Whether a series of these texts is in a slot.
#[inline]
fn has_texts(slot: &Option<Box<KnownSeries>>, metric: &[u8], tags: &[u8]) -> bool
    ensures metric { IsTrue result → IfSome slot.now (λ b. b.value.metric ≡ metric.now) }
    ensures tags { IsTrue result → IfSome slot.now (λ b. b.value.tags ≡ tags.now) }
{
    match slot {
        Some(known) => known.is_of(metric, tags),
        None => false,
    }
}

/// Puts a series into its slot, where there is that slot.
#[inline]
fn put_back(slots: &mut Vec<Option<Box<KnownSeries>>>, known: Box<KnownSeries>)
    ensures { IsKept slots.old.items (Just known) slots.new.items }
{
    let at = known.slot as usize;
    if at < slots.len() {
        slots[at] = Some(known);
    }
}

/// A series with another slot.
fn with_slot(known: Box<KnownSeries>, slot: u32) -> Box<KnownSeries>
    ensures { (s : Seen) → IsShownSlot s (Just known) → IsShownSlot s (Just result) }
{
    let mut known = known;
    known.slot = slot;
    known
}

/// A hash of the texts of a series.
#[inline]
fn hash_texts(metric: &[u8], tags: &[u8]) -> u64 {
    hash_bytes(metric).rotate_left(32) ^ hash_bytes(tags)
}
