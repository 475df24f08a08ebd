//! Guesses, by what came before.
use std::alloc::Global;

// The most numbers that are told apart, a power of two: as many as series are known by their texts.
const MOST_NUMBERS: usize = 262144;

/// What comes next, where things that are numbered often come in the same order: what came behind the same one before. So a
/// new order is known after one round of it, and of several callers that mix each is followed where it goes on.
///
/// Each answer is a guess, which the caller confirms. No contract says what the answers are.
#[derive(Drop)]
pub struct Trail {
    // What came behind each, by the low bits of its number. It has no elements, or a power of two.
    nexts: Vec<u32>,
    // What came last.
    last: u32,
    // Whether the last one too was what came there before.
    goes_on: bool,
}

impl Trail {
    /// Nothing came yet.
    pub fn make(alloc: Global) -> Trail {
        Trail {
            nexts: Vec::new(alloc),
            last: 0,
            goes_on: false,
        }
    }

    /// What came behind the last one before, where the last one too came in its order.
    #[inline]
    pub fn guess(&self) -> Option<usize> {
        if !self.goes_on {
            return None;
        }
        let next = self.nexts.get(self.place())?;
        Some(*next as usize)
    }

    /// Remembers that this came, if it is below 2^32. That takes some four bytes for each number up to the greatest that came, and
    /// 1 MiB at most.
    #[inline]
    pub fn came(&mut self, number: usize) {
        let Ok(kept) = u32::try_from(number) else {
            return;
        };
        let place = self.place();
        if let Some(next) = self.nexts.get_mut(place) {
            self.goes_on = *next == kept;
            *next = kept;
        }
        self.last = kept;
        if number >= self.nexts.len() {
            self.grow();
        }
    }

    // Tells more numbers apart, if there is memory. It stays out of the way of what comes while there are enough.
    #[inline(never)]
    fn grow(&mut self) {
        let len = self.nexts.len();
        if len >= MOST_NUMBERS {
            return;
        }
        let Ok(()) = self.nexts.resize((len * 2).max(64), 0) else {
            return;
        };
    }

    /// Forgets all that came.
    pub fn clear(&mut self) {
        self.nexts.clear();
        self.goes_on = false;
    }

    // The place of what came behind the last one.
    #[inline]
    fn place(&self) -> usize {
        self.last as usize & self.nexts.len().wrapping_sub(1)
    }
}
