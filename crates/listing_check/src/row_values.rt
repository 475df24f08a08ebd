//! The values at the offsets of a row of points.
ghost use Rattle.std.specs.Prelude.{◌≡◌, [], List, ℕ, IfOk, OnOk, Some, Option, if◌then◌else◌, nat_eq};
ghost use Rattle.qual_codec.specs.declared.cells.Dot.{Dot};
ghost use Rattle.listing_check.specs.RowValues.{AddsDot, AddsDots, Keeps, values_at};

use qual_codec::Dot;
use std::alloc::{AllocError, Global};
use std::collections::BTreeMap;

/// What is known of the values at an offset.
#[derive(Clone, Copy)]
pub enum OffsetValues {
    /// All are this one.
    One { value: i64 },
    /// Two of them differ.
    Several,
}

/// The values at the offsets of a row, of the data points so far.
#[derive(Drop)]
pub struct RowValues {
    map: BTreeMap<u32, OffsetValues>,
}

impl RowValues {
    /// Those of no data points.
    pub fn none(alloc: Global) -> RowValues
        ensures { Keeps [] result }
    {
        RowValues {
            map: BTreeMap::new(alloc),
        }
    }

    /// Begins with no data points again.
    pub fn clear(&mut self)
        ensures { Keeps [] self.new }
    {
        self.map.clear();
    }

    /// What is known of an offset.
    fn at(&self, offset: u32) -> Option<OffsetValues>
        ensures { result ≡ values_at self.now offset }
    {
        match self.map.get(&offset) {
            Some(found) => Some(*found),
            None => None,
        }
    }

    /// Keeps what is known of an offset. It fails only for want of memory.
    fn put(&mut self, offset: u32, values: OffsetValues) -> Result<(), AllocError>
        ensures { OnOk result ((other : ℕ) → values_at self.new other ≡ (if nat_eq offset other then Some values else values_at self.old other)) }
    {
        self.map.insert(offset, values)?;
        Ok(())
    }

    /// Adds a data point, and answers whether an earlier one at its offset has another value. It fails only for want of memory.
    fn add(&mut self, dot: &Dot) -> Result<bool, AllocError>
        ensures { IfOk result (λ differs. (dots : List Dot) → Keeps dots self.old → AddsDot dots dot.now differs self.new) }
    {
        let offset = dot.item.offset;
        match self.at(offset) {
            None => {
                self.put(offset, OffsetValues::One { value: dot.value })?;
                Ok(false)
            }
            Some(OffsetValues::One { value }) => {
                if value == dot.value {
                    return Ok(false);
                }
                self.put(offset, OffsetValues::Several)?;
                Ok(true)
            }
            Some(OffsetValues::Several) => Ok(true),
        }
    }

    /// Adds the data points of a cell, and answers whether one of them has another value than some data point at its offset, of these and
    /// those before. It fails only for want of memory.
    pub fn add_all(&mut self, own: &[Dot]) -> Result<bool, AllocError>
        ensures { IfOk result (λ clashes. (dots : List Dot) → Keeps dots self.old → AddsDots dots own.now clashes self.new) }
    {
        let mut clashes = false;
        for at in 0..own.len() {
            let differs = self.add(&own[at])?;
            clashes = clashes | differs;
        }
        Ok(clashes)
    }
}
