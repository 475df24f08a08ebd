//! The lines of a file of cases.

use crate::text::{Bad, first_word};
use std::alloc::Global;

/// A line: what it does, and what it is to give.
#[derive(Drop)]
pub struct Line<'a> {
    /// Its number, from 1.
    pub number: usize,
    /// Its first word.
    pub verb: &'a str,
    /// What stands behind that, up to ` => `.
    pub rest: &'a str,
    /// What stands behind ` => `, and behind the `=` of the lines below.
    pub wanted: Vec<&'a str>,
}

/// The line of a text that is no comment and doesn't say what is wanted.
fn line_of(alloc: Global, number: usize, text: &str) -> Result<Line<'_>, Bad> {
    let mut wanted = Vec::new(alloc);
    let (done, answer) = match text.split_once(" => ") {
        Some((done, answer)) => (done, Some(answer.trim())),
        None => (text, None),
    };
    if let Some(answer) = answer {
        wanted.push(answer)?;
    }
    let (verb, rest) = first_word(done);
    Ok(Line {
        number,
        verb,
        rest,
        wanted,
    })
}

/// The same line once more.
fn again<'a>(alloc: Global, line: &Line<'a>) -> Result<Line<'a>, Bad> {
    Ok(Line {
        number: line.number,
        verb: line.verb,
        rest: line.rest,
        wanted: Vec::from_slice(alloc, line.wanted.as_slice())?,
    })
}

/// Lines without a blank one between them.
pub type Block<'a> = Vec<Line<'a>>;

/// Adds a line of the file, which isn't blank, to a block: `#` begins a comment, and `=` what the line above is to give.
pub fn add<'a>(
    alloc: Global,
    block: &mut Block<'a>,
    number: usize,
    text: &'a str,
) -> Result<(), Bad> {
    if text.starts_with('#') {
        return Ok(());
    }
    match text.strip_prefix('=') {
        Some(answer) if !block.is_empty() => add_wanted(block, answer.trim()),
        _ => {
            block.push(line_of(alloc, number, text)?)?;
            Ok(())
        }
    }
}

/// Adds what the last line is to give.
fn add_wanted<'a>(block: &mut Block<'a>, answer: &'a str) -> Result<(), Bad> {
    if let Some(last) = block.last_mut() {
        last.wanted.push(answer)?;
    }
    Ok(())
}

/// Adds these lines to a block.
fn add_all<'a>(alloc: Global, block: &mut Block<'a>, lines: &[Line<'a>]) -> Result<(), Bad> {
    for line in lines {
        block.push(again(alloc, line)?)?;
    }
    Ok(())
}

/// The lines of both, the first ones first.
pub fn joined<'a>(
    alloc: Global,
    first: &[Line<'a>],
    second: &[Line<'a>],
) -> Result<Block<'a>, Bad> {
    let mut all = Vec::new(alloc);
    add_all(alloc, &mut all, first)?;
    add_all(alloc, &mut all, second)?;
    Ok(all)
}
