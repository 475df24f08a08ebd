//! The values of one series.
ghost use Rattle.std.specs.Prelude.{◌≡◌, [], ◌∷◌, ◌++◌, OnErr, OnOk};

use std::alloc::{AllocError, Global};
use std::marker::Model;

/// Times in milliseconds with their values, in the order in which they came.
///
/// Contracts see it as the list of the pairs.
#[derive(Drop)]
pub struct Values {
    list: Vec<(u64, i64)>,
}

impl Model for Values {
    ghost use Rattle.std.specs.Prelude.{List, ℕ, ℤ};

    ghost Value = { List (ℕ × ℤ) };

    ghost view = { λ v. v.list.items };
}

impl Values {
    /// No values.
    pub fn make(alloc: Global) -> Values
        ensures { result ≡ [] }
    {
        Values {
            list: Vec::new(alloc),
        }
    }

    /// Adds a value behind the others. It fails only for want of memory, and then nothing is changed.
    #[inline]
    pub fn push(&mut self, time: u64, value: i64) -> Result<(), AllocError>
        ensures ok { OnOk result (self.new ≡ self.old ++ (time, value) ∷ []) }
        ensures err { OnErr result (self.new ≡ self.old) }
    {
        self.list.push((time, value))?;
        Ok(())
    }

    /// The values, in the order in which they came.
    #[inline]
    pub fn list(&self) -> &[(u64, i64)]
        ensures { result.now ≡ self.now }
    {
        self.list.as_slice()
    }
}
