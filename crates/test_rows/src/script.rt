//! What other callers do, and in which order.
ghost use Rattle.std.specs.Prelude.{◌≡◌, ◌≤◌, ◌<◌, length, IfSome};
ghost use Rattle.test_rows.specs.Sharing.{IsOneStep, Passes};

use crate::act::{Act, Acted};
use crate::sharing::{CALLERS, Shared};
use crate::step::{append, bump, claim, drop_cells, find, merge, put, read};
use std::alloc::{AllocError, Global};

/// An act of a caller, and what became of it.
#[derive(Drop)]
pub struct Part {
    caller: u8,
    act: Act,
    acted: Option<Acted>,
}

impl Part {
    /// An act of a caller from 2 to 4 that isn't done yet.
    pub fn of(caller: u8, act: Act) -> Part {
        Part {
            caller,
            act,
            acted: None,
        }
    }

    /// What it was answered, if it was done.
    pub fn acted(&self) -> Option<&Acted> {
        self.acted.as_ref()
    }
}

/// Makes the step of an act.
fn make(shared: &mut Shared, alloc: Global, act: &Act) -> Result<Acted, AllocError>
    ensures { IsOneStep shared.old.solo shared.new.solo }
{
    match act {
        Act::Read { row } => read(shared, alloc, row),
        Act::Find { from, to } => find(shared, alloc, from, to),
        Act::Bump { kind } => Ok(bump(shared, *kind)),
        Act::Claim { row, qual, value } => claim(shared, alloc, row, qual, value),
        Act::Put { point } => put(shared, alloc, point),
        Act::Append { point } => append(shared, alloc, point),
        Act::Merge { row, qual, value } => merge(shared, alloc, row, qual, value),
        Act::Drop { row, quals } => drop_cells(shared, alloc, row, quals.as_slice()),
    }
}

/// The same in the turn of a caller, behind which it is the turn of caller 1.
fn step_in_turn(
    shared: &mut Shared,
    alloc: Global,
    caller: u8,
    act: &Act,
) -> Result<Acted, AllocError>
    requires other { 2 ≤ caller }
    requires most { caller ≤ 4 }
    requires first { shared.old.solo.caller ≡ 1 }
    ensures { Passes shared.old.solo shared.new.solo }
{
    shared.turn(caller);
    let acted = make(shared, alloc, act);
    shared.turn(1);
    acted
}

/// Makes the step of a part, unless that is done.
fn play(shared: &mut Shared, alloc: Global, part: &mut Part) -> Result<(), AllocError>
    requires first { shared.old.solo.caller ≡ 1 }
    ensures { Passes shared.old.solo shared.new.solo }
{
    if part.acted.is_some() {
        return Ok(());
    }
    if part.caller < 2 || CALLERS < part.caller {
        part.acted = Some(Acted::NotAllowed);
        return Ok(());
    }
    let acted = step_in_turn(shared, alloc, part.caller, &part.act)?;
    part.acted = Some(acted);
    Ok(())
}

/// Makes the step of the first part of a caller that isn't done, if there is one.
fn play_next(
    shared: &mut Shared,
    alloc: Global,
    parts: &mut Vec<Part>,
    caller: u8,
) -> Result<(), AllocError>
    requires first { shared.old.solo.caller ≡ 1 }
    ensures { Passes shared.old.solo shared.new.solo }
{
    match next_of(parts.as_slice(), caller) {
        Some(at) => play(shared, alloc, &mut parts[at]),
        None => Ok(()),
    }
}

/// The place of the first part of a caller that isn't done.
fn next_of(parts: &[Part], caller: u8) -> Option<usize>
    ensures { IfSome result (λ at. at < length parts.now) }
{
    parts
        .iter()
        .position(|part| part.caller == caller && part.acted.is_none())
}

/// Makes each step that is left, in order.
fn finish_parts(shared: &mut Shared, alloc: Global, parts: &mut Vec<Part>) -> Result<(), AllocError>
    requires first { shared.old.solo.caller ≡ 1 }
    ensures { Passes shared.old.solo shared.new.solo }
{
    for part in parts.iter_mut() {
        play(shared, alloc, part)?;
    }
    Ok(())
}

/// The acts of other callers, each caller's in order, and the order in which the callers step: their numbers, that of caller 1 among
/// them.
#[derive(Drop)]
pub struct Script {
    parts: Vec<Part>,
    order: Vec<u8>,
    at: usize,
}

impl Script {
    /// These parts in this order. What the order doesn't have comes last.
    pub fn of(parts: Vec<Part>, order: Vec<u8>) -> Script {
        Script {
            parts,
            order,
            at: 0,
        }
    }

    /// The parts, in the order in which they were given.
    pub fn parts(&self) -> &[Part] {
        self.parts.as_slice()
    }

    /// Who steps next, by the order.
    fn next_caller(&mut self) -> Option<u8> {
        let caller = self.order.get(self.at).copied()?;
        self.at = self.at.saturating_add(1);
        Some(caller)
    }

    /// The steps of others that come before the next one of caller 1.
    pub(crate) fn let_others(
        &mut self,
        shared: &mut Shared,
        alloc: Global,
    ) -> Result<(), AllocError>
        requires first { shared.old.solo.caller ≡ 1 }
        ensures { Passes shared.old.solo shared.new.solo }
    {
        for _ in 0..self.order.len() {
            match self.next_caller() {
                Some(caller) if caller != 1 => {
                    play_next(shared, alloc, &mut self.parts, caller)?;
                }
                _ => return Ok(()),
            }
        }
        Ok(())
    }

    /// The steps of others that are left of the order.
    fn finish_order(&mut self, shared: &mut Shared, alloc: Global) -> Result<(), AllocError>
        requires first { shared.old.solo.caller ≡ 1 }
        ensures { Passes shared.old.solo shared.new.solo }
    {
        for _ in 0..self.order.len() {
            let Some(caller) = self.next_caller() else {
                return Ok(());
            };
            play_next(shared, alloc, &mut self.parts, caller)?;
        }
        Ok(())
    }

    /// All steps of others that are left: those of the order, and then the others.
    pub(crate) fn finish(&mut self, shared: &mut Shared, alloc: Global) -> Result<(), AllocError>
        requires first { shared.old.solo.caller ≡ 1 }
        ensures { Passes shared.old.solo shared.new.solo }
    {
        self.finish_order(shared, alloc)?;
        finish_parts(shared, alloc, &mut self.parts)
    }
}
