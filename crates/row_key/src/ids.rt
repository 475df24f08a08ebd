//! The ids of names.
ghost use Rattle.std.specs.Prelude.{◌≡◌, ◌+◌, ◌++◌, ◌≤◌, ◌↔◌, length, IsTrue};
ghost use Rattle.std.specs.Int.{bytes_high_first};
ghost use Rattle.arrayvec.specs.ArrayVec.{array_vec_len};
ghost use Rattle.row_key.specs.IdWidths.{IsWidth, id_bytes, most_ids};

use arrayvec::ArrayVec;

/// The greatest id of three bytes.
pub const MOST_IDS: u32 = 16_777_215;

/// Whether ids may have so many bytes.
#[inline]
pub fn is_width(width: u8) -> bool
    ensures { IsTrue result ↔ IsWidth width }
{
    2 <= width && width <= 4
}

/// The greatest id of so many bytes, which is also how many ids a kind has.
#[inline]
pub fn most_ids(width: u8) -> u32
    requires { IsWidth width }
    ensures { result ≡ most_ids width }
{
    if width == 3 {
        return MOST_IDS;
    }
    if width == 2 {
        return 65_535;
    }
    4_294_967_295
}

#[inline]
fn two_bytes(id: u32) -> [u8; 2]
    ensures { result ≡ bytes_high_first 2 id }
{
    let [_, _, middle, low] = id.to_be_bytes();
    [middle, low]
}

#[inline]
fn three_bytes(id: u32) -> [u8; 3]
    ensures { result ≡ bytes_high_first 3 id }
{
    let [_, high, middle, low] = id.to_be_bytes();
    [high, middle, low]
}

#[inline]
fn four_bytes(id: u32) -> [u8; 4]
    ensures { result ≡ bytes_high_first 4 id }
{
    id.to_be_bytes()
}

/// Appends bytes, for which there is room.
#[inline]
pub(crate) fn push_all<const N: usize>(made: &mut ArrayVec<u8, N>, bytes: &[u8])
    requires room { array_vec_len made.old + length bytes.now ≤ N }
    ensures items { made.new.items ≡ made.old.items ++ bytes.now }
    ensures len { array_vec_len made.new ≡ array_vec_len made.old + length bytes.now }
{
    let Ok(()) = made.try_extend_from_slice(bytes) else {
        unreachable!()
    };
}

/// Appends the bytes of an id.
#[inline]
pub(crate) fn push_id<const N: usize>(made: &mut ArrayVec<u8, N>, width: u8, id: u32)
    requires width { IsWidth width }
    requires room { array_vec_len made.old + width ≤ N }
    ensures items { made.new.items ≡ made.old.items ++ id_bytes width id }
    ensures len { array_vec_len made.new ≡ array_vec_len made.old + width }
{
    if width == 3 {
        push_all(made, three_bytes(id).as_slice());
        return;
    }
    if width == 2 {
        push_all(made, two_bytes(id).as_slice());
        return;
    }
    push_all(made, four_bytes(id).as_slice());
}

/// The bytes of an id, the highest first. No memory is taken.
#[inline]
pub fn id_bytes(id: u32, width: u8) -> ArrayVec<u8, 4>
    requires { IsWidth width }
    ensures { result.items ≡ id_bytes width id }
{
    let mut bytes = ArrayVec::new();
    push_id(&mut bytes, width, id);
    bytes
}

/// The id of these bytes.
#[inline]
pub fn id_of(bytes: &[u8], width: u8) -> u32
    requires width { IsWidth width }
    requires len { length bytes.now ≡ width }
    ensures bytes { id_bytes width result ≡ bytes.now }
    ensures most { result ≤ most_ids width }
{
    match bytes {
        [middle, low] => u32::from_be_bytes([0, 0, *middle, *low]),
        [high, middle, low] => u32::from_be_bytes([0, *high, *middle, *low]),
        [top, high, middle, low] => u32::from_be_bytes([*top, *high, *middle, *low]),
        _ => unreachable!(),
    }
}
