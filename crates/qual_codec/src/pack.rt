//! Writing an item and a value.
ghost use Rattle.std.specs.Prelude.{◌≡◌, ◌≤◌, length};
ghost use Rattle.qual_codec.specs.Items.{IsItem, item_bytes};
ghost use Rattle.qual_codec.specs.Spelling.{IsShortest};

use crate::cells::Item;
use arrayvec::ArrayVec;

/// These bytes, which fit.
fn held<const CAP: usize>(bytes: &[u8]) -> ArrayVec<u8, CAP>
    requires { length bytes.now ≤ CAP }
    ensures { result.items ≡ bytes.now }
{
    let mut held = ArrayVec::new();
    let _ = held.try_extend_from_slice(bytes);
    held
}

/// The bytes of an item: two where it is in seconds, four where it is in milliseconds. No memory is taken.
pub fn pack_item(item: Item) -> ArrayVec<u8, 4>
    requires { IsItem item }
    ensures { result.items ≡ item_bytes item }
{
    let flags = item.len - 1;
    if item.fine {
        let number = 0xf000_0000 + item.offset * 64 + u32::from(flags);
        held(&number.to_be_bytes())
    } else {
        let number = (item.offset / 1000 * 16) as u16 + u16::from(flags);
        held(&number.to_be_bytes())
    }
}

/// The bytes of a value, in two's complement with the highest byte first: the least of 1, 2, 4 and 8 bytes that holds it.
/// No memory is taken.
pub fn pack_value(value: i64) -> ArrayVec<u8, 8>
    ensures { IsShortest value result.items }
{
    if let Ok(small) = i8::try_from(value) {
        held(&small.to_be_bytes())
    } else if let Ok(small) = i16::try_from(value) {
        held(&small.to_be_bytes())
    } else if let Ok(small) = i32::try_from(value) {
        held(&small.to_be_bytes())
    } else {
        held(&value.to_be_bytes())
    }
}
