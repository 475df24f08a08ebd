//! The fields of an image, one after the other.
ghost use Rattle.std.specs.Prelude.{◌≡◌, ◌+◌, ◌^◌, ◌<◌, ◌≤◌, length, nat_eq, IfOk};
ghost use Rattle.std.specs.Int.{w8, w16, w32, w64, from_be_bytes};
ghost use Rattle.cell_image.specs.Images.{width_bytes};
ghost use Rattle.cell_image.specs.ImageReads.{Reads, ReadsWidths, cell_read, field_read, head_read, mark_read, number_read, part_by, part_read, table_read, widths_read};

use crate::image_fault::ImageFault;
use row_key::{Table, Widths};
use std::marker::Model;

/// The bytes of an image from a place on. Contracts see it as a `Spot`.
#[derive(Drop)]
pub struct ImageFields<'a> {
    at: u64,
    bytes: &'a [u8],
}

impl<'a> Model for ImageFields<'a> {
    ghost use Rattle.std.specs.Prelude.{◌+◌, ◌^◌, ◌<◌, length};
    ghost use Rattle.cell_image.specs.ImageReads.{Spot};

    ghost Value = { Spot };

    ghost view = { λ f. record { at = f.at; bytes = f.bytes.now } };

    ghost invariant = { λ f. f.at + length f.bytes.now < 2 ^ 64 };
}

/// The head of an image: how many bytes the ids have, and how many cells there are.
#[derive(Drop)]
pub struct ImageHead {
    pub widths: Widths,
    pub number: u64,
}

/// A cell of an image. Contracts see it as the line that it is in a listing.
#[derive(Drop)]
pub struct ImageCell<'a> {
    pub table: Table,
    pub row: &'a [u8],
    pub qual: &'a [u8],
    pub value: &'a [u8],
}

impl<'a> Model for ImageCell<'a> {
    ghost use Rattle.cell_model.specs.declared.row.ListLine.{ListLine};

    ghost Value = { ListLine };

    ghost view = { λ c. record { table = c.table; row = c.row.now; qual = c.qual.now; value = c.value.now } };
}

impl<'a> ImageFields<'a> {
    /// The bytes of an image, of which the first stands at this place.
    pub fn of(at: u64, bytes: &'a [u8]) -> ImageFields<'a>
        requires { at + length bytes.now < 2 ^ 64 }
        ensures { result ≡ record { at = at; bytes = bytes.now } }
    {
        ImageFields { at, bytes }
    }

    /// The place of the next field.
    pub fn at(&self) -> u64
        ensures { result ≡ self.now.at }
    {
        self.at
    }

    /// Whether no bytes are left.
    pub fn is_at_end(&self) -> bool
        ensures { result ≡ nat_eq (length self.now.bytes) 0 }
    {
        self.bytes.is_empty()
    }

    /// The mark, the widths of ids and the number of cells.
    pub fn head(&mut self) -> Result<ImageHead, ImageFault>
        ensures { Reads (λ head. (width_bytes head.widths, head.number)) result self.new (head_read self.old) }
    {
        self.mark()?;
        let widths = self.widths()?;
        let number = self.read_u64()?;
        Ok(ImageHead { widths, number })
    }

    /// The next cell: its table, its row, its qualifier and its value.
    pub fn cell(&mut self) -> Result<ImageCell<'a>, ImageFault>
        ensures { Reads (λ cell. cell) result self.new (cell_read self.old) }
    {
        let table = self.table()?;
        let row = self.short_part()?;
        let qual = self.long_part()?;
        let value = self.long_part()?;
        Ok(ImageCell {
            table,
            row,
            qual,
            value,
        })
    }

    /// The mark, with which an image begins.
    fn mark(&mut self) -> Result<(), ImageFault>
        ensures { Reads (λ _. tt) result self.new (mark_read self.old) }
    {
        let field = self.field(8)?;
        if field != b"tsdimg01".as_slice() {
            return Err(ImageFault::BadMark);
        }
        Ok(())
    }

    /// How many bytes the ids of each kind have.
    fn widths(&mut self) -> Result<Widths, ImageFault>
        ensures { Reads width_bytes result self.new (widths_read self.old) }
    {
        let field = self.field(3)?;
        match widths_of(field) {
            Some(widths) => Ok(widths),
            None => Err(ImageFault::BadWidths),
        }
    }

    /// The table of a cell.
    fn table(&mut self) -> Result<Table, ImageFault>
        ensures { Reads (λ table. table) result self.new (table_read self.old) }
    {
        let at = self.at;
        let number = self.read_u8()?;
        if number == 0 {
            Ok(Table::Ids)
        } else if number == 1 {
            Ok(Table::Names)
        } else if number == 2 {
            Ok(Table::Points)
        } else {
            Err(ImageFault::BadTable { at })
        }
    }

    /// A part whose length has two bytes.
    fn short_part(&mut self) -> Result<&'a [u8], ImageFault>
        ensures { Reads (λ part. part.now) result self.new (part_read w16 self.old) }
    {
        let at = self.at;
        let size = self.read_u16()?;
        self.part(at, usize::from(size))
    }

    /// A part whose length has four bytes.
    fn long_part(&mut self) -> Result<&'a [u8], ImageFault>
        ensures { Reads (λ part. part.now) result self.new (part_read w32 self.old) }
    {
        let at = self.at;
        let size = self.read_u32()?;
        self.part(at, size as usize)
    }

    /// A part of this size, whose length stands at this place.
    fn part(&mut self, at: u64, size: usize) -> Result<&'a [u8], ImageFault>
        ensures { Reads (λ part. part.now) result self.new (part_by at (size, self.old)) }
    {
        if size == 0 {
            return Err(ImageFault::EmptyPart { at });
        }
        self.field(size)
    }

    /// A number of one byte.
    fn read_u8(&mut self) -> Result<u8, ImageFault>
        ensures { Reads (λ n. n) result self.new (number_read w8 self.old) }
    {
        let field = self.field(1)?;
        Ok(be_u8(field))
    }

    /// A number of two bytes, the highest first.
    fn read_u16(&mut self) -> Result<u16, ImageFault>
        ensures { Reads (λ n. n) result self.new (number_read w16 self.old) }
    {
        let field = self.field(2)?;
        Ok(be_u16(field))
    }

    /// A number of four bytes, the highest first.
    fn read_u32(&mut self) -> Result<u32, ImageFault>
        ensures { Reads (λ n. n) result self.new (number_read w32 self.old) }
    {
        let field = self.field(4)?;
        Ok(be_u32(field))
    }

    /// A number of eight bytes, the highest first.
    fn read_u64(&mut self) -> Result<u64, ImageFault>
        ensures { Reads (λ n. n) result self.new (number_read w64 self.old) }
    {
        let field = self.field(8)?;
        Ok(be_u64(field))
    }

    /// The next field, of so many bytes.
    fn field(&mut self, count: usize) -> Result<&'a [u8], ImageFault>
        ensures fields { Reads (λ field. field.now) result self.new (field_read count self.old) }
        ensures size { IfOk result (λ field. length field.now ≡ count) }
    {
        if self.bytes.len() < count {
            return Err(ImageFault::CutShort { at: self.at });
        }
        let field = &self.bytes[..count];
        self.bytes = &self.bytes[count..];
        self.at += count as u64;
        Ok(field)
    }
}

/// The number that one byte is.
fn be_u8(bytes: &[u8]) -> u8
    requires { length bytes.now ≡ 1 }
    ensures { result ≡ from_be_bytes w8 bytes.now }
{
    bytes[0]
}

/// The number that two bytes are.
fn be_u16(bytes: &[u8]) -> u16
    requires { length bytes.now ≡ 2 }
    ensures { result ≡ from_be_bytes w16 bytes.now }
{
    u16::from_be_bytes([bytes[0], bytes[1]])
}

/// The number that four bytes are.
fn be_u32(bytes: &[u8]) -> u32
    requires { length bytes.now ≡ 4 }
    ensures { result ≡ from_be_bytes w32 bytes.now }
{
    u32::from_be_bytes([bytes[0], bytes[1], bytes[2], bytes[3]])
}

/// The number that eight bytes are.
fn be_u64(bytes: &[u8]) -> u64
    requires { length bytes.now ≡ 8 }
    ensures { result ≡ from_be_bytes w64 bytes.now }
{
    u64::from_be_bytes([
        bytes[0], bytes[1], bytes[2], bytes[3], bytes[4], bytes[5], bytes[6], bytes[7],
    ])
}

/// The widths that three bytes tell. There are none exactly where one of them is no width.
fn widths_of(bytes: &[u8]) -> Option<Widths>
    requires { length bytes.now ≡ 3 }
    ensures { ReadsWidths bytes.now result }
{
    Widths::make(bytes[0], bytes[1], bytes[2])
}
