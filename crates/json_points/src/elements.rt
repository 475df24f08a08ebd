//! One element of a put: the point that a JSON value is, or what is wrong with it.
ghost use Rattle.std.specs.Prelude.{◌≡◌, codes, is_some, IfOk, MatchResult};
ghost use Rattle.serde_json.specs.Find.{get, as_object};
ghost use Rattle.serde_json.specs.View.{view, members_view};
ghost use Rattle.tsd_base.specs.Moments.{IsTime};
ghost use Rattle.tsd_base.specs.Names.{IsName};
ghost use Rattle.tsd_base.specs.Points.{data_point};
ghost use Rattle.tsd_base.specs.TagList.{IsTags};
ghost use Rattle.tsd_base.specs.declared.points.PointFault.TheVariants as points;
ghost use Rattle.json_points.specs.Elements.{Gives, element_of, element_in, point_in, name_in, text_in, member_in, time_in, text_time, value_in, point_fault};

use crate::element_tags::{read_pairs, tags_member};
use crate::fault::{ElementFault, Member};
use itoa::Buffer;
use serde_json::{Map, Value};
use std::alloc::Global;
use tsd_base::names::{Name, NameFault};
use tsd_base::points::{Point, PointFault};
use tsd_base::tags::Tags;
use tsd_base::times::read_time;
use tsd_base::values::{ValueFault, read_value};

/// Reads an element: a JSON object with a metric, a timestamp, a value and tags.
///
/// A number that fits `u64` is a timestamp by its digits, and one that fits `i64` is a value. A value that is whole and
/// fits `u64` alone is too large, and any other number is a float, `-0` too. Other members are ignored.
///
/// The first fault is told, in this order: that it is no object; a metric that is missing or no string, a timestamp or a
/// value that is missing, tags that are missing or no object of strings; and then what is wrong with the metric, the
/// time, the value, each tag (its key, its value), and the tags as a whole. Tags are numbered from 1 in byte order of
/// their keys.
#[tactic(auto, unfolding(crate::specs::Elements::element_of))]
pub fn read_element(alloc: Global, element: &Value) -> Result<Point, ElementFault>
    ensures gives { Gives data_point result (element_of (view element.now)) }
    ensures formed { IfOk result (λ point. IsName point.metric × IsTags point.tags) }
{
    if !element.is_object() {
        return Err(ElementFault::NotObject);
    }
    read_members(alloc, element)
}

/// The point of an object's members.
#[tactic(auto, unfolding(crate::specs::Elements::element_in))]
fn read_members(alloc: Global, element: &Value) -> Result<Point, ElementFault>
    ensures gives { Gives data_point result (element_in (view element.now)) }
    ensures formed { IfOk result (λ point. IsName point.metric × IsTags point.tags) }
{
    let metric = text_member(element)?;
    let time = present(element, "timestamp", Member::Timestamp)?;
    let value = present(element, "value", Member::Value)?;
    let tags = tags_member(element)?;
    read_parts(alloc, metric, time, value, tags)
}

/// The point of the members, each of the right kind.
#[tactic(auto, unfolding(crate::specs::Elements::point_in))]
fn read_parts(
    alloc: Global,
    metric: &str,
    time: &Value,
    value: &Value,
    tags: &Map<String, Value>,
) -> Result<Point, ElementFault>
    ensures gives { Gives data_point result (point_in metric.now (view time.now) (view value.now) (members_view tags.now.entries)) }
    ensures formed { IfOk result (λ point. IsName point.metric × IsTags point.tags) }
{
    let metric = read_metric(alloc, metric.as_bytes())?;
    let (time, fine) = read_moment(time)?;
    let value = read_number(value)?;
    let pairs = read_pairs(alloc, tags)?;
    let tags = Tags::build(alloc, pairs)?;
    Ok(Point {
        metric,
        tags,
        time,
        fine,
        value,
    })
}

/// A member that is there.
fn present<'v>(element: &'v Value, name: &str, which: Member) -> Result<&'v Value, ElementFault>
    ensures { Gives (λ v. view v.now) result (member_in which (get name.now (view element.now))) }
{
    match element.get(name) {
        Some(value) => Ok(value),
        None => Err(ElementFault::BadMember { member: which }),
    }
}

/// The metric's text.
fn text_member(element: &Value) -> Result<&str, ElementFault>
    ensures { Gives (λ text. text.now) result (text_in (get (codes "metric") (view element.now))) }
{
    let value = present(element, "metric", Member::Metric)?;
    match value.as_str() {
        Some(text) => Ok(text),
        None => Err(ElementFault::BadMember {
            member: Member::Metric,
        }),
    }
}

fn read_metric(alloc: Global, bytes: &[u8]) -> Result<Name, ElementFault>
    ensures gives { Gives (λ name. name) result (name_in points.Metric bytes.now) }
    ensures named { IfOk result IsName }
{
    match Name::read(alloc, bytes) {
        Ok(name) => Ok(name),
        Err(NameFault::OutOfMemory) => Err(ElementFault::OutOfMemory),
        Err(fault) => Err(ElementFault::Point {
            fault: PointFault::Metric { fault },
        }),
    }
}

/// The time of a string, or of a number's digits.
fn read_moment(time: &Value) -> Result<(u64, bool), ElementFault>
    ensures gives { Gives (λ moment. moment) result (time_in (view time.now)) }
    ensures timed { IfOk result (λ moment. IsTime moment.0 moment.1) }
{
    if let Some(text) = time.as_str() {
        return read_text_time(text.as_bytes());
    }
    match time.as_u64() {
        Some(n) => read_text_time(Buffer::new().format(n).as_bytes()),
        None => Err(bad_time()),
    }
}

fn read_text_time(text: &[u8]) -> Result<(u64, bool), ElementFault>
    ensures gives { Gives (λ moment. moment) result (text_time text.now) }
    ensures timed { IfOk result (λ moment. IsTime moment.0 moment.1) }
{
    match read_time(text) {
        Ok(moment) => Ok(moment),
        Err(_) => Err(bad_time()),
    }
}

fn bad_time() -> ElementFault
    ensures { result ≡ point_fault points.Time }
{
    ElementFault::Point {
        fault: PointFault::Time,
    }
}

/// The value of a string or of a number.
fn read_number(value: &Value) -> Result<i64, ElementFault>
    ensures { Gives (λ number. number) result (value_in (view value.now)) }
{
    if let Some(text) = value.as_str() {
        return match read_value(text.as_bytes()) {
            Ok(number) => Ok(number),
            Err(fault) => Err(bad_value(fault)),
        };
    }
    if !value.is_number() {
        return Err(bad_value(ValueFault::BadValue));
    }
    if let Some(number) = value.as_i64() {
        return Ok(number);
    }
    if value.is_u64() {
        return Err(bad_value(ValueFault::ValueTooLarge));
    }
    Err(bad_value(ValueFault::Float))
}

fn bad_value(fault: ValueFault) -> ElementFault
    ensures { result ≡ point_fault (points.Value fault) }
{
    ElementFault::Point {
        fault: PointFault::Value { fault },
    }
}
