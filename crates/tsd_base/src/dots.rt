//! The points of one series in order of time.
ghost use Rattle.std.specs.Prelude.{◌≡◌, ◌<◌, [], ◌∷◌, ◌++◌, All, IfOk, OnOk, OnErr};
ghost use Rattle.tsd_base.specs.Dots.{IsRising, IsAboveAll};

use std::alloc::{AllocError, Global};
use std::marker::Model;

/// Times in milliseconds with their values, at rising times.
///
/// Contracts see it as the list of the pairs.
#[derive(Drop)]
pub struct Dots {
    list: Vec<(u64, i64)>,
}

impl Model for Dots {
    ghost use Rattle.std.specs.Prelude.{List, ℕ, ℤ};
    ghost use Rattle.tsd_base.specs.Dots.{IsRising};

    ghost Value = { List (ℕ × ℤ) };

    ghost view = { λ d. d.list.items };

    ghost invariant = { λ d. IsRising d.list.items };
}

impl Dots {
    /// No points.
    pub fn make(alloc: Global) -> Dots
        ensures { result ≡ [] }
    {
        Dots {
            list: Vec::new(alloc),
        }
    }

    /// No points, with room for so many. It fails only for want of memory.
    pub fn with_room(alloc: Global, room: usize) -> Result<Dots, AllocError>
        ensures { IfOk result (λ dots. dots ≡ []) }
    {
        Ok(Dots {
            list: Vec::with_capacity(alloc, room)?,
        })
    }

    /// Adds a point behind the last one. It fails only for want of memory, and then nothing changes.
    #[inline]
    pub fn push(&mut self, time: u64, value: i64) -> Result<(), AllocError>
        requires { IsAboveAll time self.old }
        ensures ok { OnOk result (self.new ≡ self.old ++ (time, value) ∷ []) }
        ensures err { OnErr result (self.new ≡ self.old) }
    {
        self.list.push((time, value))?;
        Ok(())
    }

    /// Adds later points behind the last one. It fails only for want of memory, and then nothing changes.
    pub fn append(&mut self, later: &Dots) -> Result<(), AllocError>
        requires { All (λ d. IsAboveAll d.0 self.old) later.now }
        ensures ok { OnOk result (self.new ≡ self.old ++ later.now) }
        ensures err { OnErr result (self.new ≡ self.old) }
    {
        extend(&mut self.list, later.list())
    }

    /// The points, at rising times.
    #[inline]
    pub fn list(&self) -> &[(u64, i64)]
        ensures list { result.now ≡ self.now }
        ensures rising { IsRising self.now }
    {
        self.list.as_slice()
    }
}

/// Adds points behind the last one. It fails only for want of memory, and then nothing changes.
fn extend(list: &mut Vec<(u64, i64)>, more: &[(u64, i64)]) -> Result<(), AllocError>
    ensures ok { OnOk result (list.new.items ≡ list.old.items ++ more.now) }
    ensures err { OnErr result (list.new.items ≡ list.old.items) }
{
    list.extend_from_slice(more)?;
    Ok(())
}
