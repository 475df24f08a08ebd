//! Short lists written into blocks.
ghost use Rattle.std.specs.Prelude.{◌≡◌, ◌+◌, ◌-◌, ◌≤◌, ◌++◌, length, replicate};

/// Writes a list to the front of a block of zeros. The length that each copy has is known where it is compiled.
#[inline(always)]
pub(crate) fn fill(block: &mut [u8; 30], bytes: &[u8])
    requires zeros { block.old ≡ replicate 30 0 }
    requires fits { length bytes.now ≤ 30 }
    ensures { block.new ≡ bytes.now ++ replicate (30 - length bytes.now) 0 }
{
    let n = bytes.len();
    if n >= 16 {
        fill_ends(block, bytes, 16);
    } else if n >= 8 {
        fill_ends(block, bytes, 8);
    } else if n >= 4 {
        fill_ends(block, bytes, 4);
    } else if n >= 2 {
        fill_ends(block, bytes, 2);
    } else if n == 1 {
        fill_ends(block, bytes, 1);
    } else {
        fill_ends(block, bytes, 0);
    }
}

/// Writes a list by its first bytes and its last ones, which may be the same in part.
#[inline(always)]
fn fill_ends(block: &mut [u8; 30], bytes: &[u8], part: usize)
    requires zeros { block.old ≡ replicate 30 0 }
    requires fits { length bytes.now ≤ 30 }
    requires parts { (part ≤ length bytes.now) × (length bytes.now ≤ part + part) }
    ensures { block.new ≡ bytes.now ++ replicate (30 - length bytes.now) 0 }
{
    let n = bytes.len();
    block[..part].copy_from_slice(&bytes[..part]);
    block[n - part..n].copy_from_slice(&bytes[n - part..]);
}
