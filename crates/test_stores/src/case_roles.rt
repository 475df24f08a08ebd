//! What the lines of a case are, and in which order its callers step.

use row_key::Widths;
use std::alloc::Global;
use test_readers::case_lines::Line;
use test_readers::text::{Bad, number, small, widths};
use test_rows::script::{Part, Script};
use test_verbs::acts::act;

/// What a line is in a case.
#[derive(Clone, Copy, PartialEq, Eq)]
pub enum Role {
    /// It says with which store the case begins, which new names it allows, which steps are refused, or in which order the callers step.
    Start,
    /// It is a step of another caller.
    Act(u8),
    /// Caller 1 makes a call.
    Call,
    /// It asks for something of the store at the end.
    End,
}

pub fn role_of(verb: &str) -> Role {
    match verb {
        "case" | "setup" | "widths" | "base" | "load" | "cap" | "allow" | "stops" | "order" =>
            Role::Start,
        "2" => Role::Act(2),
        "3" => Role::Act(3),
        "4" => Role::Act(4),
        "steps" | "tally" | "list" => Role::End,
        _ => Role::Call,
    }
}

/// How many bytes the ids of each kind have: what the last line `widths M,K,V` says, or 3.
pub fn widths_of(lines: &[Line<'_>]) -> Result<Widths, Bad> {
    let mut found = Widths::three();
    for line in lines {
        if line.verb == "widths" {
            found = widths(line.rest)?;
        }
    }
    Ok(found)
}

/// How many pairs of names and ids are kept: what the last line `cap N` says, or 1.
pub fn cap_of(lines: &[Line<'_>]) -> Result<u32, Bad> {
    let mut cap = 1;
    for line in lines {
        if line.verb == "cap" {
            cap = small(line.rest)?;
        }
    }
    Ok(cap)
}

/// The steps of caller 1 that are refused, by the lines `stops N`.
pub fn stops_of(alloc: Global, lines: &[Line<'_>]) -> Result<Vec<u64>, Bad> {
    let mut stops = Vec::new(alloc);
    for line in lines {
        if line.verb == "stops" {
            stops.push(number(line.rest)?)?;
        }
    }
    Ok(stops)
}

/// The steps of others, in the order of the lines.
fn parts_of(alloc: Global, lines: &[Line<'_>]) -> Result<Vec<Part>, Bad> {
    let widths = widths_of(lines)?;
    let mut parts = Vec::new(alloc);
    for line in lines {
        if let Role::Act(caller) = role_of(line.verb) {
            parts.push(Part::of(caller, act(alloc, line.rest, widths)?))?;
        }
    }
    Ok(parts)
}

/// Adds whose the acts are that stand before the first call.
fn add_early(order: &mut Vec<u8>, lines: &[Line<'_>]) -> Result<(), Bad> {
    for line in lines {
        match role_of(line.verb) {
            Role::Act(caller) => order.push(caller)?,
            Role::Call => return Ok(()),
            _ => {}
        }
    }
    Ok(())
}

/// Adds the callers of an order's digits.
fn add_digits(order: &mut Vec<u8>, digits: &str) -> Result<(), Bad> {
    for byte in digits.bytes() {
        if !byte.is_ascii_digit() {
            return Err(Bad::Line("no order"));
        }
        order.push(byte - b'0')?;
    }
    Ok(())
}

/// In which order the callers step, by its digits, or else as the lines stand. What others do in the setup comes first.
fn order_of(
    alloc: Global,
    setup: &[Line<'_>],
    lines: &[Line<'_>],
    digits: Option<&str>,
) -> Result<Vec<u8>, Bad> {
    let mut order = Vec::new(alloc);
    add_early(&mut order, setup)?;
    match digits {
        Some(digits) => add_digits(&mut order, digits)?,
        None => add_early(&mut order, lines)?,
    }
    Ok(order)
}

/// What others do by the lines of the setup and of the case, in the order of these digits or as the lines stand.
pub fn script_of(
    alloc: Global,
    setup: &[Line<'_>],
    lines: &[Line<'_>],
    digits: Option<&str>,
    all: &[Line<'_>],
) -> Result<Script, Bad> {
    let order = order_of(alloc, setup, lines, digits)?;
    let parts = parts_of(alloc, all)?;
    Ok(Script::of(parts, order))
}
