//! The four members of an element.
ghost use Rattle.std.specs.Prelude.{◌≡◌, codes, IfSome, Some, option_and_then};
ghost use Rattle.json.specs.Json.{Json};
ghost use Rattle.json.specs.Find.{BeginsWith};
ghost use Rattle.put_bodies.specs.ElementMembers.{HasMembers, HasText, HasNumber, HasTags};

use json::{Element, Members};

/// The members of an element, each of the kind that has a line.
#[derive(Drop)]
pub struct ElementMembers<'t, 'a> {
    /// The string `metric`.
    pub metric: &'a str,
    /// The digits of the number `timestamp`.
    pub time: &'a str,
    /// The digits of the number `value`.
    pub value: &'a str,
    /// What stands in the object `tags`.
    pub tags: Members<'t, 'a>,
}

/// The four members of an element, where it is an object that has them, two numbers among them. Of a member that comes twice the
/// last counts.
pub fn members_of<'t, 'a>(element: &Element<'t, 'a>) -> Option<ElementMembers<'t, 'a>>
    ensures { (j : Json) → BeginsWith element.now j → IfSome result (HasMembers j) }
{
    let metric = text_of(element, "metric")?;
    let time = number_of(element, "timestamp")?;
    let value = number_of(element, "value")?;
    let tags = tags_of(element)?;
    Some(ElementMembers {
        metric,
        time,
        value,
        tags,
    })
}

/// The string at a name.
fn text_of<'t, 'a>(element: &Element<'t, 'a>, name: &str) -> Option<&'a str>
    ensures { (j : Json) → BeginsWith element.now j → IfSome result (λ text. HasText name.now j text.now) }
{
    let member = element.get(name)?;
    member.as_str()
}

/// The text of the number at a name.
fn number_of<'t, 'a>(element: &Element<'t, 'a>, name: &str) -> Option<&'a str>
    ensures { (j : Json) → BeginsWith element.now j → IfSome result (λ text. HasNumber name.now j text.now) }
{
    let member = element.get(name)?;
    member.as_number()
}

/// The members of the tags.
fn tags_of<'t, 'a>(element: &Element<'t, 'a>) -> Option<Members<'t, 'a>>
    ensures { (j : Json) → BeginsWith element.now j → IfSome result (HasTags j) }
{
    let member = element.get("tags")?;
    member.members()
}
