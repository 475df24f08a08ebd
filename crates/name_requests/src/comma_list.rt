//! Lists with commas.
ghost use Rattle.std.specs.Prelude.{◌≡◌, nat_eq, position, IfOk};
ghost use Rattle.name_requests.specs.AssignRequests.{comma_names};

use short_bytes::short::Bytes;
use std::alloc::{AllocError, Global};

/// The names between the commas of a text; a text without a comma is one name. It fails only for want of memory.
pub fn comma_names(alloc: Global, text: &[u8]) -> Result<Vec<Bytes>, AllocError>
    ensures { IfOk result (λ names. names.items ≡ comma_names text.now) }
{
    let mut names = Vec::new(alloc);
    let mut rest = text;
    while let Some(at) = first_comma(rest) {
        names.push(Bytes::of(alloc, &rest[..at])?)?;
        rest = &rest[at + 1..];
    }
    names.push(Bytes::of(alloc, rest)?)?;
    Ok(names)
}

/// The place of the first comma.
fn first_comma(text: &[u8]) -> Option<usize>
    ensures { result ≡ position (λ b. nat_eq b 44) text.now }
{
    text.iter().position(|b| *b == b',')
}
