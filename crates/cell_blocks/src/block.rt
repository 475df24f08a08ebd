//! Cells in memory of their own, which contracts see as a list.
ghost use Rattle.std.specs.Prelude.{◌≡◌, ◌⊎◌, ◌≤◌, ◌<◌, [], ◌∷◌, ◌++◌, take, length, IfOk, IfSome, IsOk, IsTrue, OnOk, OnErr, slice_index_or, slice_set, insert, if◌then◌else◌};
ghost use Rattle.std.specs.List.{remove as without};
ghost use Rattle.cell_blocks.specs.Packed.{stamped_at};
ghost use Rattle.cell_blocks.specs.Seeks.{IsBehindLast, IsLastStamped};
ghost use Rattle.qual_codec.specs.declared.cells.Cell.{Cell};

use crate::mixed_cells::MixedCells;
use crate::small_value::{Narrow, Wide};
use crate::strip::Strip;
use qual_codec::CellRef;
use std::alloc::{AllocError, Global};
use std::marker::Model;

// How the cells are kept: in a strip while each suits, where most do, else as they come.
#[derive(Drop)]
enum Form {
    Narrow(Strip<Narrow>),
    Wide(Strip<Wide>),
    Mixed(Box<MixedCells>),
}

/// Cells by index.
///
/// While each has a qualifier of two bytes and a value of 1, 2, 4 or 8, they are a [`Strip`]. The first that hasn't turns
/// the block into [`MixedCells`], which it stays.
#[derive(Drop)]
pub struct Block {
    form: Form,
    alloc: Global,
}

impl Model for Block {
    ghost use Rattle.std.specs.Prelude.{List};
    ghost use Rattle.qual_codec.specs.declared.cells.Cell.{Cell};
    ghost use Rattle.cell_blocks.specs.BlockForms.{form_cells};

    ghost Value = { List Cell };

    ghost view = { λ b. form_cells b.form };
}

impl Block {
    /// No cells.
    pub fn make(alloc: Global) -> Block
        ensures { result ≡ [] }
    {
        Block {
            form: Form::Narrow(Strip::make(alloc)),
            alloc,
        }
    }

    /// The cells of a strip.
    pub fn of(alloc: Global, cells: Strip<Narrow>) -> Block
        ensures { result ≡ cells }
    {
        Block {
            form: Form::Narrow(cells),
            alloc,
        }
    }

    /// Where the cells take memory.
    pub fn alloc(&self) -> Global {
        self.alloc
    }

    /// How many cells there are.
    #[inline]
    pub fn len(&self) -> usize
        ensures { result ≡ length self.now }
    {
        match &self.form {
            Form::Narrow(cells) => cells.len(),
            Form::Wide(cells) => cells.len(),
            Form::Mixed(cells) => cells.len(),
        }
    }

    /// The same, and that one more can be counted.
    #[inline]
    pub fn count(&self) -> usize
        ensures len { result ≡ length self.now }
        ensures few { result < 9223372036854775808 }
    {
        match &self.form {
            Form::Narrow(cells) => cells.count(),
            Form::Wide(cells) => cells.count(),
            Form::Mixed(cells) => cells.count(),
        }
    }

    /// The qualifier of the cell at `i`.
    #[inline]
    pub fn qual(&self, i: usize) -> &[u8]
        requires { i < length self.now }
        ensures { (d : Cell) → result.now ≡ (slice_index_or self.now i d).qual }
    {
        match &self.form {
            Form::Narrow(cells) => cells.qual(i),
            Form::Wide(cells) => cells.qual(i),
            Form::Mixed(cells) => cells.qual(i),
        }
    }

    /// The value of the cell at `i`.
    #[inline]
    pub fn value(&self, i: usize) -> &[u8]
        requires { i < length self.now }
        ensures { (d : Cell) → result.now ≡ (slice_index_or self.now i d).value }
    {
        match &self.form {
            Form::Narrow(cells) => cells.value(i),
            Form::Wide(cells) => cells.value(i),
            Form::Mixed(cells) => cells.value(i),
        }
    }

    /// The version of the cell at `i`.
    #[inline]
    pub fn version(&self, i: usize) -> u64
        requires { i < length self.now }
        ensures { (d : Cell) → result ≡ (slice_index_or self.now i d).version }
    {
        match &self.form {
            Form::Narrow(cells) => cells.version(i),
            Form::Wide(cells) => cells.version(i),
            Form::Mixed(cells) => cells.version(i),
        }
    }

    /// The cell at `i`.
    #[inline]
    pub fn cell(&self, i: usize) -> CellRef<'_>
        requires { i < length self.now }
        ensures { (d : Cell) → result ≡ slice_index_or self.now i d }
    {
        CellRef {
            qual: self.qual(i),
            value: self.value(i),
            version: self.version(i),
        }
    }

    /// The strip that the cells are, if none has a value of more than 2 bytes.
    #[inline]
    pub fn narrow(&self) -> Option<&Strip<Narrow>>
        ensures { IfSome result (λ strip. strip.now ≡ self.now) }
    {
        match &self.form {
            Form::Narrow(cells) => Some(cells),
            _ => None,
        }
    }

    /// The strip that the cells are, if they are kept as a strip of values of up to 8 bytes, as cells are since one had a value of 4 or 8.
    #[inline]
    pub fn wide(&self) -> Option<&Strip<Wide>>
        ensures { IfSome result (λ strip. strip.now ≡ self.now) }
    {
        match &self.form {
            Form::Wide(cells) => Some(cells),
            _ => None,
        }
    }

    /// Adds a cell behind the last one. It fails as [`Block::insert`] does.
    #[inline]
    pub fn push(&mut self, qual: &[u8], value: &[u8], version: u64) -> Result<(), AllocError>
        ensures ok { OnOk result (self.new ≡ self.old ++ (record { qual = qual.now; value = value.now; version = version }) ∷ []) }
        ensures err { OnErr result (self.new ≡ self.old) }
    {
        self.insert(self.len(), qual, value, version)
    }

    /// Puts a cell before the one at `i`, or behind the last one. It fails for want of memory, or where the
    /// block, the qualifier or the value has 4 GiB.
    #[inline]
    pub fn insert(
        &mut self,
        i: usize,
        qual: &[u8],
        value: &[u8],
        version: u64,
    ) -> Result<(), AllocError>
        requires { i ≤ length self.old }
        ensures ok { OnOk result (self.new ≡ insert self.old i (record { qual = qual.now; value = value.now; version = version })) }
        ensures err { OnErr result (self.new ≡ self.old) }
    {
        let suits = match &mut self.form {
            Form::Narrow(cells) => cells.insert(i, qual, value, version)?,
            Form::Wide(cells) => cells.insert(i, qual, value, version)?,
            Form::Mixed(cells) => return cells.insert(i, qual, value, version),
        };
        if suits {
            return Ok(());
        }
        self.insert_misfit(i, qual, value, version)
    }

    /// Puts a cell behind the last one, where its qualifier is behind that one's, it suits the form of the others and there is room,
    /// and answers whether it was put.
    #[inline(always)]
    pub fn put_behind(&mut self, qual: &[u8], value: &[u8], version: u64) -> bool
        ensures behind { IsTrue result → IsBehindLast qual.now self.old }
        ensures cells { self.new ≡ (if result then insert self.old (length self.old) (record { qual = qual.now; value = value.now; version = version }) else self.old) }
    {
        match &mut self.form {
            Form::Narrow(cells) => cells.put_behind(qual, value, version),
            Form::Wide(cells) => cells.put_behind(qual, value, version),
            Form::Mixed(_) => false,
        }
    }

    /// Writes another cell over the one at `i`. It is written in its place where it has the same lengths, which can't fail;
    /// else it fails as [`Block::insert`] does.
    pub fn set(
        &mut self,
        i: usize,
        qual: &[u8],
        value: &[u8],
        version: u64,
    ) -> Result<(), AllocError>
        requires { i < length self.old }
        ensures ok { OnOk result (self.new ≡ slice_set self.old i (record { qual = qual.now; value = value.now; version = version })) }
        ensures in_place { (d : Cell) → length (slice_index_or self.old i d).qual ≡ length qual.now → length (slice_index_or self.old i d).value ≡ length value.now → IsOk result }
        ensures err { OnErr result (self.new ≡ self.old) }
    {
        let suits = match &mut self.form {
            Form::Narrow(cells) => cells.set(i, qual, value, version),
            Form::Wide(cells) => cells.set(i, qual, value, version),
            Form::Mixed(cells) => return cells.set(i, qual, value, version),
        };
        if suits {
            return Ok(());
        }
        self.set_misfit(i, qual, value, version)
    }

    /// Sets the version of the cell at `i`.
    #[inline(always)]
    pub fn stamp(&mut self, i: usize, version: u64)
        requires { i < length self.old }
        ensures { (d : Cell) → self.new ≡ slice_set self.old i (stamped_at (slice_index_or self.old i d) version) }
    {
        match &mut self.form {
            Form::Narrow(cells) => cells.stamp(i, version),
            Form::Wide(cells) => cells.stamp(i, version),
            Form::Mixed(cells) => cells.stamp(i, version),
        }
    }

    /// Sets the version of the last cell, if it is seen at once that it has this qualifier, and answers whether it was set.
    #[inline(always)]
    pub fn stamp_last(&mut self, qual: &[u8], version: u64) -> bool
        ensures found { IsTrue result → IsLastStamped qual.now version self.old self.new }
        ensures other { IsTrue result ⊎ (self.new ≡ self.old) }
    {
        match &mut self.form {
            Form::Narrow(cells) => cells.stamp_last(qual, version),
            Form::Wide(cells) => cells.stamp_last(qual, version),
            Form::Mixed(_) => false,
        }
    }

    /// Takes the cell at `i` out.
    pub fn remove(&mut self, i: usize)
        requires { i < length self.old }
        ensures { self.new ≡ without self.old i }
    {
        match &mut self.form {
            Form::Narrow(cells) => cells.remove(i),
            Form::Wide(cells) => cells.remove(i),
            Form::Mixed(cells) => cells.remove(i),
        }
    }

    /// The same cells once more.
    pub fn again(&self, alloc: Global) -> Result<Block, AllocError>
        ensures { IfOk result (λ made. made ≡ self.now) }
    {
        let form = match &self.form {
            Form::Narrow(cells) => Form::Narrow(cells.again(alloc)?),
            Form::Wide(cells) => Form::Wide(cells.again(alloc)?),
            Form::Mixed(cells) => Form::Mixed(Box::new(alloc, cells.again(alloc)?)?),
        };
        Ok(Block { form, alloc })
    }

    // The same cells in a strip of wide values, if each suits.
    #[tactic(auto, using(crate::proofs::Packed::copied, crate::proofs::Packed::taken_length, std::proofs::lemmas::List::take_all))]
    fn in_wide(&self) -> Result<Option<Strip<Wide>>, AllocError>
        ensures { IfOk result (λ made. IfSome made (λ cells. cells ≡ self.now)) }
    {
        let mut made = Strip::make(self.alloc);
        for i in 0..self.len() {
            if !made.insert(i, self.qual(i), self.value(i), self.version(i))? {
                return Ok(None);
            }
        }
        Ok(Some(made))
    }

    // The same cells in the form that all suit.
    #[tactic(auto, using(crate::proofs::Packed::copied, crate::proofs::Packed::taken_length, std::proofs::lemmas::List::take_all))]
    fn in_mixed(&self) -> Result<Box<MixedCells>, AllocError>
        ensures { IfOk result (λ made. made.value ≡ self.now) }
    {
        let mut made = MixedCells::make(self.alloc);
        for i in 0..self.len() {
            made.insert(i, self.qual(i), self.value(i), self.version(i))?;
        }
        Ok(Box::new(self.alloc, made)?)
    }

    // The same as `insert`, in a form that the cell suits.
    fn insert_misfit(
        &mut self,
        i: usize,
        qual: &[u8],
        value: &[u8],
        version: u64,
    ) -> Result<(), AllocError>
        requires { i ≤ length self.old }
        ensures ok { OnOk result (self.new ≡ insert self.old i (record { qual = qual.now; value = value.now; version = version })) }
        ensures err { OnErr result (self.new ≡ self.old) }
    {
        if let Some(mut wide) = self.in_wide()? {
            if wide.insert(i, qual, value, version)? {
                self.form = Form::Wide(wide);
                return Ok(());
            }
        }
        let mut mixed = self.in_mixed()?;
        mixed.insert(i, qual, value, version)?;
        self.form = Form::Mixed(mixed);
        Ok(())
    }

    // The same as `set`, in a form that the cell suits.
    fn set_misfit(
        &mut self,
        i: usize,
        qual: &[u8],
        value: &[u8],
        version: u64,
    ) -> Result<(), AllocError>
        requires { i < length self.old }
        ensures ok { OnOk result (self.new ≡ slice_set self.old i (record { qual = qual.now; value = value.now; version = version })) }
        ensures err { OnErr result (self.new ≡ self.old) }
    {
        if let Some(mut wide) = self.in_wide()? {
            if wide.set(i, qual, value, version) {
                self.form = Form::Wide(wide);
                return Ok(());
            }
        }
        let mut mixed = self.in_mixed()?;
        mixed.set(i, qual, value, version)?;
        self.form = Form::Mixed(mixed);
        Ok(())
    }
}
