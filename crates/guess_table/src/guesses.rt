//! Guesses, by a hash.
use std::alloc::Global;
use std::mem;

// The most slots.
const MOST_SLOTS: usize = 4194304;

// The slots of a bucket. What a slot has may be in any of its bucket.
const BUCKET: usize = 4;

// What is guessed, and the bits of the hash by which it is told and its slot is found. A slot of no bits has nothing.
#[derive(Clone, Copy, Drop)]
struct Guess<T: Copy> {
    what: T,
    bits: u32,
}

/// Where things were last found, by a hash of their bytes.
///
/// Each answer is a guess, which the caller confirms by comparing the bytes: meanwhile the thing may have moved, and another
/// one may have the same slot. No contract says what the answers are, so no proof rests on them.
#[derive(Drop)]
pub struct Guesses<T: Copy> {
    // None, or a power of two of them, and then a bucket at least.
    slots: Vec<Guess<T>>,
    alloc: Global,
}

impl<T: Copy> Guesses<T> {
    /// No guesses.
    pub fn make(alloc: Global) -> Guesses<T> {
        Guesses {
            slots: Vec::new(alloc),
            alloc,
        }
    }

    /// What may be where this hash is.
    #[inline]
    pub fn guess(&self, hash: u64) -> Option<T> {
        let bits = bits_of(hash);
        let slot = self.slot(bits);
        for at in 0..BUCKET {
            let guess = self.slots.get(slot ^ at)?;
            if guess.bits == bits {
                return Some(guess.what);
            }
        }
        None
    }

    /// Remembers what is where this hash is, in the place of an earlier guess of it, or else in an empty slot of its bucket, or in
    /// the place of another guess: so where a bucket has more than it can hold, some of its guesses stay however often all are asked.
    #[inline]
    pub fn keep(&mut self, hash: u64, what: T) {
        self.put(Guess {
            what,
            bits: bits_of(hash),
        });
    }

    fn put(&mut self, guess: Guess<T>) {
        let slot = self.slot(guess.bits);
        for at in 0..BUCKET {
            let Some(place) = self.slots.get_mut(slot ^ at) else {
                return;
            };
            if place.bits == guess.bits || place.bits == 0 {
                *place = guess;
                return;
            }
        }
        if let Some(place) = self.slots.get_mut(slot) {
            *place = guess;
        }
    }

    /// Makes more slots where they are fewer than two for each of this many things, up to 4,194,304 slots and if there is
    /// memory. New slots are filled with this guess.
    pub fn grow(&mut self, count: usize, what: T) {
        let len = self.slots.len();
        if len >= MOST_SLOTS || len / 2 >= count {
            return;
        }
        let mut slots = Vec::new(self.alloc);
        let Ok(()) = slots.resize((len * 2).max(64), Guess { what, bits: 0 }) else {
            return;
        };
        let before = mem::replace(&mut self.slots, slots);
        for guess in before.iter() {
            if guess.bits != 0 {
                self.put(*guess);
            }
        }
    }

    /// Forgets all guesses.
    pub fn clear(&mut self) {
        self.slots.clear();
    }

    #[inline]
    fn slot(&self, bits: u32) -> usize {
        bits as usize & self.slots.len().wrapping_sub(1)
    }
}

// The bits of a hash that are kept: they are never 0.
#[inline]
fn bits_of(hash: u64) -> u32 {
    (hash >> 32) as u32 | 0x8000_0000
}
