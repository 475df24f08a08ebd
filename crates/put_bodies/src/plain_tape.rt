//! Whether a body is a list of elements that the quick way reads.
ghost use Rattle.std.specs.Prelude.{◌≡◌, length, IsSome};
ghost use Rattle.std.specs.Char.{is_ascii_digit};
ghost use Rattle.std.specs.List.{list_all};
ghost use Rattle.json.specs.Json.{Json};
ghost use Rattle.json.specs.Find.{BeginsWith};
ghost use Rattle.put_bodies.specs.PlainBodies.{IsDigits, IsPlain, IsPlainObject, IsShallow, IsElement, IsElementList};

use json::Element;

/// Whether a value is a list of elements.
pub fn element_list(element: &Element<'_, '_>) -> Option<()>
    ensures { (j : Json) → BeginsWith element.now j → IsSome result → IsElementList j }
{
    let mut items = element.items()?;
    while let Some(item) = items.next() {
        shallow_object(&item)?;
    }
    Some(())
}

/// Whether a value is an object of members that are plain, or objects of plain ones.
fn shallow_object(element: &Element<'_, '_>) -> Option<()>
    ensures { (j : Json) → BeginsWith element.now j → IsSome result → IsElement j }
{
    let mut members = element.members()?;
    while let Some((_key, member)) = members.next() {
        shallow(&member)?;
    }
    Some(())
}

fn shallow(element: &Element<'_, '_>) -> Option<()>
    ensures { (j : Json) → BeginsWith element.now j → IsSome result → IsShallow j }
{
    match plain(element) {
        Some(()) => Some(()),
        None => plain_object(element),
    }
}

/// Whether a value is an object of plain members.
fn plain_object(element: &Element<'_, '_>) -> Option<()>
    ensures { (j : Json) → BeginsWith element.now j → IsSome result → IsPlainObject j }
{
    let mut members = element.members()?;
    while let Some((_key, member)) = members.next() {
        plain(&member)?;
    }
    Some(())
}

/// Whether a value is a string, or a number of digits alone.
fn plain(element: &Element<'_, '_>) -> Option<()>
    ensures { (j : Json) → BeginsWith element.now j → IsSome result → IsPlain j }
{
    match element.as_number() {
        Some(text) => digits(text.as_bytes()),
        None => string(element),
    }
}

fn string(element: &Element<'_, '_>) -> Option<()>
    ensures { (j : Json) → BeginsWith element.now j → IsSome result → IsPlain j }
{
    let _text = element.as_str()?;
    Some(())
}

/// Whether a text is at most 19 digits.
#[tactic(auto, using(crate::proofs::TapeLemmas::digits_are))]
fn digits(text: &[u8]) -> Option<()>
    ensures { IsSome result → IsDigits text.now }
{
    if text.is_empty() || text.len() > 19 {
        return None;
    }
    if all_digits(text) { Some(()) } else { None }
}

fn all_digits(text: &[u8]) -> bool
    ensures { result ≡ list_all is_ascii_digit text.now }
{
    text.iter().all(|b| b.is_ascii_digit())
}
