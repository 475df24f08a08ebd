//! Keys that are found by a hash.
ghost use Rattle.std.specs.Prelude.{◌≡◌, [], Contains, IfSome, IsTrue};
ghost use Rattle.compactor.specs.Queues.{AreAmong, AreAmongOr};

use guess_table::Guesses;
use qual_codec::Bytes;
use std::alloc::Global;
use std::marker::Model;

/// Keys of rows: the base of each with its bytes. They are found by a hash of the bytes.
///
/// What is kept may be forgotten, and is then not found. Contracts see the list of the keys.
#[derive(Drop)]
pub struct KnownKeys {
    list: Vec<(u32, Bytes)>,
    // Where in the list a key may be.
    guesses: Guesses<u32>,
}

impl Model for KnownKeys {
    ghost use Rattle.std.specs.Prelude.{ℕ, List};

    ghost Value = { List (ℕ × List ℕ) };

    ghost view = { λ k. k.list.items };
}

impl KnownKeys {
    /// No keys.
    pub fn make(alloc: Global) -> KnownKeys
        ensures { result ≡ [] }
    {
        KnownKeys {
            list: Vec::new(alloc),
            guesses: Guesses::make(alloc),
        }
    }

    /// The place that is guessed, where the key of this base and these bytes is there.
    #[inline]
    pub fn confirm(&self, guess: Option<u32>, base: u32, bytes: &Bytes) -> Option<u32>
        ensures { IfSome result (λ _. Contains self.now (base, bytes.now)) }
    {
        let at = guess?;
        if is_at(&self.list, at, base, bytes) {
            Some(at)
        } else {
            None
        }
    }

    /// Where the key of this base and these bytes is, where it is found by this hash of the bytes.
    #[inline]
    pub fn find(&self, hash: u64, base: u32, bytes: &Bytes) -> Option<u32>
        ensures { IfSome result (λ _. Contains self.now (base, bytes.now)) }
    {
        self.confirm(self.guesses.guess(hash), base, bytes)
    }

    /// Keeps a key whose bytes have this hash. Where there are `most` keys or more, they are forgotten first. Where there is no
    /// memory, it isn't kept.
    pub fn keep(&mut self, hash: u64, key: (u32, Bytes), most: usize)
        ensures { AreAmongOr self.old key self.new }
    {
        self.trim(most);
        let Ok(at) = u32::try_from(self.list.len()) else {
            return;
        };
        let Ok(()) = self.list.push(key) else {
            return;
        };
        self.guesses.grow(self.list.len(), at);
        self.guesses.keep(hash, at);
    }

    /// Forgets all keys where there are `most` or more.
    fn trim(&mut self, most: usize)
        ensures { AreAmong self.old self.new }
    {
        if self.list.len() < most {
            return;
        }
        self.clear();
    }

    /// Forgets all keys.
    pub fn clear(&mut self)
        ensures { self.new ≡ [] }
    {
        self.list.clear();
        self.guesses.clear();
    }
}

// Whether the key at this place is of this base and these bytes.
#[inline]
fn is_at(list: &[(u32, Bytes)], at: u32, base: u32, bytes: &Bytes) -> bool
    ensures { IsTrue result → Contains list.now (base, bytes.now) }
{
    let Some(key) = list.get(at as usize) else {
        return false;
    };
    if key.0 != base {
        return false;
    }
    key.1 == *bytes
}
