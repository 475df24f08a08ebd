//! The text of a list of names.
ghost use Rattle.std.specs.Prelude.{◌≡◌, IfOk};
ghost use Rattle.json_reply.specs.Texts.{names_text};

use crate::json_text::write_keys;
use std::alloc::{AllocError, Global};
use tsd_base::names::Name;

/// A JSON array of names in the given order, without blanks: `["a","b"]`. Names need no escapes.
///
/// It fails only for want of memory.
pub fn names_text(alloc: Global, names: &[Name]) -> Result<Vec<u8>, AllocError>
    ensures { IfOk result (λ text. text.items ≡ names_text names.now) }
{
    let mut text = Vec::new(alloc);
    text.push(b'[')?;
    write_keys(&mut text, names)?;
    text.push(b']')?;
    Ok(text)
}
