//! Writing an image.
ghost use Rattle.std.specs.Prelude.{◌≡◌, ◌+◌, ◌^◌, ◌<◌, ◌++◌, true, not, None, length, position, IfSome, OnOk};
ghost use Rattle.std.specs.Int.{w16, w32, w64, to_be_bytes};
ghost use Rattle.cell_model.specs.PlaceOrder.{table_number};
ghost use Rattle.cell_image.specs.Images.{cell_image, cells_image, first_large, fits, head_image, image, mark, part_image, width_bytes};
ghost use Rattle.cell_image.specs.ImageWrites.{WritesImage};

use crate::image_fault::WriteImageFault;
use cell_model::{ListLine, Listing};
use row_key::{Table, Widths};
use std::alloc::{AllocError, Global};

/// The image of a listing: the mark, the widths, the number of cells, and then the cells. It is refused where a part of a cell is too long.
pub fn write_image(alloc: Global, listing: &Listing) -> Result<Vec<u8>, WriteImageFault>
    ensures { WritesImage listing.now result }
{
    if let Some(cell) = first_large(listing.lines()) {
        return Err(WriteImageFault::TooLarge { cell });
    }
    let mut bytes = Vec::new(alloc);
    push_head_of(&mut bytes, listing)?;
    push_cells(&mut bytes, listing.lines())?;
    Ok(bytes)
}

/// The number of the first cell with a part that is too long, from 1.
pub fn first_large(cells: &[ListLine]) -> Option<u64>
    ensures { result ≡ first_large cells.now }
{
    match place_of_large(cells) {
        Some(at) => Some(at as u64 + 1),
        None => None,
    }
}

/// The place of the first cell with a part that is too long.
fn place_of_large(cells: &[ListLine]) -> Option<usize>
    ensures place { result ≡ position (λ c. not (fits c)) cells.now }
    ensures within { IfSome result (λ at. at < length cells.now) }
{
    cells.iter().position(|cell| !fits(cell))
}

/// Whether the length of each part of a cell fits its bytes.
pub(crate) fn fits(cell: &ListLine) -> bool
    ensures { result ≡ fits cell.now }
{
    cell.row.list().len() < 1 << 16
        && cell.qual.list().len() < 1 << 32
        && cell.value.list().len() < 1 << 32
}

/// Adds the head of a listing's image. It fails only for want of memory.
pub(crate) fn push_head_of(bytes: &mut Vec<u8>, listing: &Listing) -> Result<(), AllocError>
    ensures { OnOk result (bytes.new.items ≡ bytes.old.items ++ head_image listing.now) }
{
    push_head(bytes, listing.widths(), listing.lines().len() as u64)
}

/// Adds the head of the image of so many cells, whose ids have these widths. It fails only for want of memory.
pub(crate) fn push_head(bytes: &mut Vec<u8>, widths: Widths, number: u64) -> Result<(), AllocError>
    ensures { OnOk result (bytes.new.items ≡ bytes.old.items ++ (mark ++ (width_bytes widths ++ to_be_bytes w64 number))) }
{
    bytes.extend_from_slice(b"tsdimg01")?;
    push_widths(bytes, widths)?;
    bytes.extend_from_slice(&number.to_be_bytes())
}

/// Adds the widths of ids, in a byte each.
fn push_widths(bytes: &mut Vec<u8>, widths: Widths) -> Result<(), AllocError>
    ensures { OnOk result (bytes.new.items ≡ bytes.old.items ++ width_bytes widths) }
{
    bytes.extend_from_slice(&[widths.metric, widths.tag_key, widths.tag_value])
}

/// Adds cells, each of which fits.
fn push_cells(bytes: &mut Vec<u8>, cells: &[ListLine]) -> Result<(), AllocError>
    requires { first_large cells.now ≡ None }
    ensures { OnOk result (bytes.new.items ≡ bytes.old.items ++ cells_image cells.now) }
{
    for at in 0..cells.len() {
        push_cell(bytes, &cells[at])?;
    }
    Ok(())
}

/// Adds a cell that fits. It fails only for want of memory.
pub fn push_cell(bytes: &mut Vec<u8>, cell: &ListLine) -> Result<(), AllocError>
    requires { fits cell.now ≡ true }
    ensures { OnOk result (bytes.new.items ≡ bytes.old.items ++ cell_image cell.now) }
{
    bytes.push(number_of(cell.table))?;
    push_short(bytes, cell.row.list())?;
    push_long(bytes, cell.qual.list())?;
    push_long(bytes, cell.value.list())
}

/// Adds a part behind its length in two bytes.
fn push_short(bytes: &mut Vec<u8>, part: &[u8]) -> Result<(), AllocError>
    requires { length part.now < 2 ^ 16 }
    ensures { OnOk result (bytes.new.items ≡ bytes.old.items ++ part_image w16 part.now) }
{
    bytes.extend_from_slice(&(part.len() as u16).to_be_bytes())?;
    bytes.extend_from_slice(part)
}

/// Adds a part behind its length in four bytes.
fn push_long(bytes: &mut Vec<u8>, part: &[u8]) -> Result<(), AllocError>
    requires { length part.now < 2 ^ 32 }
    ensures { OnOk result (bytes.new.items ≡ bytes.old.items ++ part_image w32 part.now) }
{
    bytes.extend_from_slice(&(part.len() as u32).to_be_bytes())?;
    bytes.extend_from_slice(part)
}

/// The number of a table.
fn number_of(table: Table) -> u8
    ensures { result ≡ table_number table }
{
    match table {
        Table::Ids => 0,
        Table::Names => 1,
        Table::Points => 2,
    }
}
