//! How strings of bytes are ordered.

use crate::text::{Bad, first_word, hex};
use crate::told::Told;
use short_bytes::short::Bytes;
use std::alloc::Global;
use std::cmp::Ordering;

/// A copy of the string of these bytes.
fn copied(alloc: Global, list: &[u8]) -> Result<Bytes, Bad> {
    let bytes = Bytes::of(alloc, list)?;
    let again = bytes.again(alloc)?;
    if again.list() == list && again == bytes {
        Ok(again)
    } else {
        Err(Bad::Line("other bytes"))
    }
}

/// How two strings stand to each other, in either order.
fn order_word(one: &Bytes, other: &Bytes) -> &'static str {
    let same = one == other;
    match (one.cmp(other), other.cmp(one)) {
        (Ordering::Less, Ordering::Greater) if !same => "less",
        (Ordering::Greater, Ordering::Less) if !same => "greater",
        (Ordering::Equal, Ordering::Equal) if same => "equal",
        _ => "no order",
    }
}

/// Adds how strings of these bytes stand to each other.
fn tell_order(alloc: Global, one: &[u8], other: &[u8], out: &mut Told) -> Result<(), Bad> {
    let one = copied(alloc, one)?;
    let other = copied(alloc, other)?;
    out.add(order_word(&one, &other));
    Ok(())
}

/// `order BYTES BYTES`, both in hexadecimal: `less`, `equal` or `greater`.
pub fn order(alloc: Global, text: &str, out: &mut Told) -> Result<(), Bad> {
    let (one, other) = first_word(text);
    let one = hex(alloc, one)?;
    let other = hex(alloc, other)?;
    tell_order(alloc, one.as_slice(), other.as_slice(), out)
}
