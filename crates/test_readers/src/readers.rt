//! Lines that stand alone: each is a case.

use crate::text::Bad;
use crate::told::Told;
use crate::{cell_cases, point_cases, query_cases, series_cases, string_cases};
use std::alloc::Global;

/// Adds what the line of this verb gives.
pub fn read(alloc: Global, verb: &str, rest: &str, out: &mut Told) -> Result<(), Bad> {
    match verb {
        "point" => point_cases::point(alloc, rest, out),
        "key" => cell_cases::key(alloc, rest, out),
        "cell" => cell_cases::cell(alloc, rest, out),
        "merge" => cell_cases::merge(alloc, rest, out),
        "aggregate" => series_cases::aggregated(alloc, rest, out),
        "down" => series_cases::downsampled(alloc, rest, out),
        "m" => query_cases::m(alloc, rest, out),
        "order" => string_cases::order(alloc, rest, out),
        _ => Err(Bad::Line("no verb")),
    }
}
