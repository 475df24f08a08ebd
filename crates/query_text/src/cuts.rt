//! Texts cut at bytes.
ghost use Rattle.std.specs.Prelude.{◌≡◌, ◌<◌, length, IfOk, IfSome, Some, None, if◌then◌else◌};
ghost use Rattle.std.specs.Option.{option_map};
ghost use Rattle.tsd_base.specs.Alphabet.{is_name};
ghost use Rattle.query_text.specs.Cuts.{before, behind, place_of};

use std::alloc::{AllocError, Global};
use tsd_base::names::{Name, NameFault};

/// The place of the first such byte.
pub fn place_of(text: &[u8], byte: u8) -> Option<usize>
    ensures place { result ≡ place_of byte text.now }
    ensures within { IfSome result (λ at. at < length text.now) }
{
    text.iter().position(|b| *b == byte)
}

/// What stands before the first such byte, or all, and what stands behind it, if it is there.
pub fn cut(text: &[u8], byte: u8) -> (&[u8], Option<&[u8]>)
    ensures before { result.0.now ≡ before byte text.now }
    ensures behind { option_map (λ rest. rest.now) result.1 ≡ behind byte text.now }
    ensures shorter { IfSome result.1 (λ rest. length rest.now < length text.now) }
{
    match place_of(text, byte) {
        Some(at) => (&text[..at], Some(&text[at + 1..])),
        None => (text, None),
    }
}

/// The name that these bytes are, if they are one. It fails only for want of memory.
pub fn name_of(alloc: Global, bytes: &[u8]) -> Result<Option<Name>, AllocError>
    ensures { IfOk result (λ name. name ≡ (if is_name bytes.now then Some bytes.now else None)) }
{
    match Name::read(alloc, bytes) {
        Ok(name) => Ok(Some(name)),
        Err(fault) => match fault {
            NameFault::OutOfMemory => Err(AllocError),
            _ => Ok(None),
        },
    }
}
