//! Guesses where rows are.

use crate::page::Place;
use guess_table::{Guesses, Trail};
use std::alloc::Global;

/// Where rows were last found, by a hash of their bytes. Each answer is a guess, which the caller confirms.
#[derive(Drop)]
pub struct Hints {
    // The number of the place of each.
    guesses: Guesses<u32>,
    last: Place,
    // Which place may be asked for next.
    trail: Trail,
}

impl Hints {
    /// No guesses.
    pub fn make(alloc: Global) -> Hints {
        Hints {
            guesses: Guesses::make(alloc),
            last: Place { page: 0, row: 0 },
            trail: Trail::make(alloc),
        }
    }

    /// Where a row was found last.
    #[inline(always)]
    pub fn last(&self) -> Place {
        self.last
    }

    /// Where the row may be that comes behind the last one.
    #[inline(always)]
    pub fn next(&self) -> Option<Place> {
        let number = self.trail.guess()?;
        Some(place_of(number))
    }

    /// Remembers where a row was found that wasn't the last one, or was put.
    #[inline(always)]
    pub fn came(&mut self, place: Place) {
        self.last = place;
        self.trail.came(number_of(place));
    }

    /// Where a row of this hash may be.
    #[inline]
    pub fn guess(&self, hash: u64) -> Option<Place> {
        let number = self.guesses.guess(hash)?;
        Some(place_of(number as usize))
    }

    /// Remembers where a row of this hash is, where something else was guessed.
    #[inline]
    pub fn correct(&mut self, hash: u64, guess: Option<Place>, place: Place) {
        if let Some(guess) = guess {
            if guess.page == place.page && guess.row == place.row {
                return;
            }
        }
        self.keep(hash, place);
    }

    /// Remembers where a row of this hash is.
    #[inline]
    pub fn keep(&mut self, hash: u64, place: Place) {
        if let Ok(number) = u32::try_from(number_of(place)) {
            self.guesses.keep(hash, number);
        }
    }

    /// Makes more slots where they are few for this many rows, if there is memory.
    pub fn grow(&mut self, rows: usize) {
        self.guesses.grow(rows, 0);
    }
}

// The number of a place, and the place of a number. A page has no more than 64 rows.
#[inline]
fn number_of(place: Place) -> usize {
    place.page << 6 | place.row
}

#[inline]
fn place_of(number: usize) -> Place {
    Place {
        page: number >> 6,
        row: number & 63,
    }
}
