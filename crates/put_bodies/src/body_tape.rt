//! The tape of a body.
ghost use Rattle.std.specs.Prelude.{ℕ, List, IfSome, IsSomeAnd};
ghost use Rattle.serde_json.specs.Data.{Data};
ghost use Rattle.put_bodies.specs.BodyTapes.{GoesOnWith, IsTapeOf};

use crate::plain_tape::element_list;
use json::{Items, Scratch, Tape};
use std::alloc::Global;

/// The tape of a text that is a list of plain elements, or `None`, which says nothing: there may have been no memory for the tape.
///
/// A plain element is an object of strings, of numbers of 1 to 19 digits, and of objects of such. So the whole text is known to be JSON
/// before any of its elements is read.
pub fn body_tape<'a>(alloc: Global, scratch: &'a mut Scratch, text: &'a str) -> Option<Tape<'a>>
    ensures { IfSome result (λ tape. (elements : List Data) × IsTapeOf text.now tape elements) }
{
    match Tape::parse(text, scratch, Vec::new(alloc)) {
        Ok(tape) => match element_list(&tape.root()) {
            Some(()) => Some(tape),
            None => None,
        },
        Err(_) => None,
    }
}

/// The elements of the list that a tape is.
pub fn tape_elements<'t, 'a>(tape: &'t Tape<'a>) -> Option<Items<'t, 'a>>
    ensures { (text : List ℕ) (elements : List Data) → IsTapeOf text tape.now elements → IsSomeAnd result (λ items. GoesOnWith items elements) }
{
    tape.root().items()
}
