//! What the texts of points are read as.

use crate::text::{Bad, bytes};
use crate::told::Told;
use std::alloc::Global;
use tsd_base::names::Name;
use tsd_base::point_text::read_point;
use tsd_base::points::Point;

/// Adds pairs, each behind a space.
fn tell_pairs(out: &mut Told, pairs: &[(Name, Name)]) {
    for (key, value) in pairs {
        out.add(" ");
        out.bytes(key.bytes());
        out.add("=");
        out.bytes(value.bytes());
    }
}

/// Adds metric, milliseconds, whether the time was given in them, value and tags.
fn tell_point(out: &mut Told, point: &Point) {
    out.bytes(point.metric.bytes());
    out.add(" ");
    out.number(point.time);
    out.add(if point.fine { " fine " } else { " " });
    out.signed(point.value);
    tell_pairs(out, point.tags.pairs());
}

/// `point LINE`: metric, time, value and tags, or the text of the fault.
pub fn point(alloc: Global, text: &str, out: &mut Told) -> Result<(), Bad> {
    let line = bytes(alloc, text)?;
    match read_point(alloc, line.as_slice()) {
        Ok(point) => tell_point(out, &point),
        Err(fault) => {
            let mut told = Vec::new(alloc);
            fault.write_text(&mut told)?;
            out.bytes(told.as_slice());
        }
    }
    Ok(())
}
