//! Guesses, by the order in which things come.

/// What comes next, where things that are numbered come round in the order of their numbers.
///
/// Each answer is a guess, which the caller confirms. No contract says what the answers are.
#[derive(Clone, Copy, Drop)]
pub struct Round {
    next: u32,
    goes_on: bool,
}

impl Round {
    /// Nothing came yet.
    pub fn make() -> Round {
        Round {
            next: 0,
            goes_on: false,
        }
    }

    /// The number behind the last one that came, where that too came behind the one before it.
    #[inline]
    pub fn guess(&self) -> Option<u32> {
        if self.goes_on { Some(self.next) } else { None }
    }

    /// Remembers that this number came.
    #[inline]
    pub fn came(&mut self, number: u32) {
        self.goes_on = number == self.next;
        self.next = number.wrapping_add(1);
    }
}
