//! The line that tells which cell is too large for an image.
ghost use Rattle.std.specs.Prelude.{◌≡◌, ◌++◌, OnOk};
ghost use Rattle.cell_image.specs.LargeLines.{large_line};

use std::alloc::AllocError;
use tsd_base::decimals::write_number;

/// Adds the line that tells which cell, from 1, is too large for an image. It fails only for want of memory.
#[tactic(auto, using(std::proofs::lemmas::List::append_assoc))]
pub fn push_large_line(text: &mut Vec<u8>, cell: u64) -> Result<(), AllocError>
    ensures { OnOk result (text.new.items ≡ text.old.items ++ large_line cell) }
{
    text.extend_from_slice(b"image: cell ")?;
    write_number(cell, text)?;
    text.extend_from_slice(b" too large\n")
}
