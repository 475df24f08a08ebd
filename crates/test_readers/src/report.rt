//! What differs from what is wanted.

use crate::case_lines::Line;
use crate::text::{Bad, bytes};
use crate::told::Told;
use std::alloc::Global;

/// The cases of a file so far, and what differs in them.
#[derive(Drop)]
pub struct Report {
    alloc: Global,
    file: String,
    wrong: bool,
    differs: bool,
    order: Told,
    case: Told,
    /// How many cases there were.
    pub cases: u64,
    /// How many of them weren't as wanted.
    pub failed: u64,
    /// What to print of these.
    pub text: Told,
}

impl Report {
    /// No case yet of this file.
    pub fn of(alloc: Global, file: &str) -> Result<Report, Bad> {
        Ok(Report {
            alloc,
            file: String::from_str(alloc, file)?,
            wrong: false,
            differs: false,
            order: Told::of(alloc),
            case: Told::of(alloc),
            cases: 0,
            failed: 0,
            text: Told::of(alloc),
        })
    }

    /// From here on each case is written to differ.
    pub fn expect_wrong(&mut self) {
        self.wrong = true;
    }

    /// Whether each case is written to differ.
    pub fn expects_wrong(&self) -> bool {
        self.wrong
    }

    /// The order in which the callers of the next case step, if it has one.
    pub fn in_order(&mut self, digits: Option<&str>) {
        self.order.clear();
        if let Some(digits) = digits {
            self.order.add(" (");
            self.order.add(digits);
            self.order.add(")");
        }
    }

    /// Adds a line and what it gave, where that isn't what is wanted.
    pub fn compare(&mut self, line: &Line<'_>, told: &Told) {
        if !told.is_whole() {
            self.text.lose();
        }
        match is_as_wanted(self.alloc, line, told.text()) {
            Ok(true) => {}
            Ok(false) => self.tell_difference(line, told.text()),
            Err(Bad::Line(why)) => self.refuse(line, why),
            Err(Bad::OutOfMemory) => self.text.lose(),
        }
    }

    /// Adds a line, what it wants and what it gave.
    fn tell_difference(&mut self, line: &Line<'_>, answer: &str) {
        self.tell(line);
        for wanted in line.wanted.as_slice() {
            self.tell_below("wanted ", wanted);
        }
        for told in answer.lines() {
            self.tell_below("gave   ", told);
        }
    }

    /// Adds a line that can't be done, and why.
    pub fn refuse(&mut self, line: &Line<'_>, why: &str) {
        self.tell(line);
        self.tell_below("", why);
    }

    /// Adds what a line gave, or why it can't be done.
    pub fn settle(&mut self, line: &Line<'_>, done: Result<(), Bad>, told: &Told) {
        match done {
            Ok(()) => self.compare(line, told),
            Err(Bad::Line(why)) => self.refuse(line, why),
            Err(Bad::OutOfMemory) => self.text.lose(),
        }
    }

    /// Adds a line.
    fn tell(&mut self, line: &Line<'_>) {
        self.differs = true;
        self.case.add(self.file.as_str());
        self.case.add(":");
        self.case.number(line.number as u64);
        self.case.add(self.order.text());
        self.case.add(": ");
        self.case.add(line.verb);
        self.case.add(" ");
        self.case.add(line.rest);
        self.case.add("\n");
    }

    /// Adds a text below a line.
    fn tell_below(&mut self, what: &str, text: &str) {
        self.case.add("  ");
        self.case.add(what);
        self.case.add(text);
        self.case.add("\n");
    }

    /// Ends a case that begins with this line.
    pub fn end_case(&mut self, line: &Line<'_>) {
        self.cases = self.cases.saturating_add(1);
        if self.differs != self.wrong {
            self.failed = self.failed.saturating_add(1);
            if self.wrong {
                self.tell(line);
                self.tell_below("", "differs in nothing");
            }
            self.text.add(self.case.text());
            if !self.case.is_whole() {
                self.text.lose();
            }
        }
        self.case.clear();
        self.differs = false;
    }
}

/// Whether an answer is what the line wants, line by line.
fn is_as_wanted(alloc: Global, line: &Line<'_>, answer: &str) -> Result<bool, Bad> {
    let wanted = line.wanted.as_slice();
    let mut at = 0;
    for told in answer.lines() {
        if at >= wanted.len() || !is_same(alloc, wanted[at], told)? {
            return Ok(false);
        }
        at += 1;
    }
    Ok(at == wanted.len())
}

/// Whether a line of an answer is the one that is wanted, which may be quoted.
fn is_same(alloc: Global, wanted: &str, told: &str) -> Result<bool, Bad> {
    let wanted = bytes(alloc, wanted)?;
    Ok(wanted.as_slice() == told.trim().as_bytes())
}
