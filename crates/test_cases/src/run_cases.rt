//! Whole runs of the program, over devices and doors in memory.

use crate::mem_links::{MemLinks, tell_back};
use std::alloc::Global;
use std::sync::Wait;
use std::thread::Threads;
use test_readers::case_lines::Line;
use test_readers::devices::{Devices, Pieces, tell_output};
use test_readers::report::Report;
use test_readers::text::{Bad, bytes, first_word, number};
use test_readers::told::Told;
use tsd_doors::mem_doors::MemDoors;
use tsd_io::clock::MemClock;
use tsd_io::halt::MemHalt;
use tsd_io::memory::{MemSink, MemSource};
use tsd_run::run::run;

/// What an image begins with.
const MARK: &[u8] = b"tsdimg01";

/// What a run is over.
#[derive(Drop)]
struct Surroundings {
    devices: Devices,
    links: MemLinks,
}

/// What one run uses up.
struct Parts {
    source: MemSource,
    sink: MemSink,
    clock: MemClock,
    halt: MemHalt,
    doors: MemDoors,
}

/// The words of a line.
fn words_of(alloc: Global, text: &str) -> Result<Vec<String>, Bad> {
    let mut words = Vec::new(alloc);
    for word in text.split_ascii_whitespace() {
        let Ok(word) = String::from_utf8(bytes(alloc, word)?) else {
            return Err(Bad::Line("no text"));
        };
        words.push(word)?;
    }
    Ok(words)
}

/// What a run over this source uses up.
fn parts_of(alloc: Global, around: &Surroundings, source: MemSource) -> Result<Parts, Bad> {
    let sink = around.devices.sink(alloc)?;
    let clock = around.devices.clock(alloc)?;
    let halt = around.devices.halt(alloc)?;
    let doors = around.links.doors(alloc)?;
    Ok(Parts {
        source,
        sink,
        clock,
        halt,
        doors,
    })
}

/// Tells what was printed: lines as they are, and an image, which may stand behind lines, by its bytes in hexadecimal digits.
fn tell_printed(out: &mut Told, printed: &[u8]) {
    match printed.windows(MARK.len()).position(|bytes| bytes == MARK) {
        Some(place) => {
            let (lines, image) = printed.split_at(place);
            tell_output(out, lines);
            out.add("image ");
            out.hex(image);
        }
        None => tell_output(out, printed),
    }
}

/// Tells a status, what was printed, and the connections given back.
fn tell_run(out: &mut Told, status: u8, printed: &[u8], doors: &MemDoors) {
    out.add("status ");
    out.number(u64::from(status));
    out.add("\n");
    tell_printed(out, printed);
    tell_back(out, doors);
}

/// Runs these words, and tells what that gives.
fn run_words<T: Threads + Wait + Sync>(
    rt: &T,
    alloc: Global,
    words: &[String],
    parts: Parts,
    out: &mut Told,
) {
    let Parts {
        mut source,
        mut sink,
        mut clock,
        halt,
        mut doors,
    } = parts;
    let ended = run(
        rt,
        alloc,
        words,
        &mut source,
        &mut sink,
        &mut clock,
        halt,
        &mut doors,
    );
    tell_run(out, ended.status.number(), sink.held(), &doors);
}

/// Runs these words over all that surrounds them, and tells the status, what was printed, and the connections given back.
fn run_over<T: Threads + Wait + Sync>(
    rt: &T,
    alloc: Global,
    around: &Surroundings,
    text: &str,
    pieces: Pieces,
    out: &mut Told,
) -> Result<(), Bad> {
    let source = around.devices.source(alloc, pieces)?;
    run_source(rt, alloc, around, text, source, out)
}

/// The same over this source.
fn run_source<T: Threads + Wait + Sync>(
    rt: &T,
    alloc: Global,
    around: &Surroundings,
    text: &str,
    source: MemSource,
    out: &mut Told,
) -> Result<(), Bad> {
    let words = words_of(alloc, text)?;
    let parts = parts_of(alloc, around, source)?;
    run_words(rt, alloc, &words, parts, out);
    Ok(())
}

/// Whether a run over the input in these pieces gives this.
fn gives<T: Threads + Wait + Sync>(
    rt: &T,
    alloc: Global,
    around: &Surroundings,
    text: &str,
    pieces: Pieces,
    wanted: &str,
) -> Result<bool, Bad> {
    let mut out = Told::of(alloc);
    run_over(rt, alloc, around, text, pieces, &mut out)?;
    out.end()?;
    Ok(out.text() == wanted)
}

/// The first place of `N` or `M-N` and the one behind the last, the first one being 1 where it isn't named.
fn places_of(text: &str) -> Result<(usize, usize), Bad> {
    let (first, last) = match text.split_once('-') {
        Some((first, last)) => (number(first)?, last),
        None => (1, text),
    };
    Ok((first as usize, number(last)?.saturating_add(1) as usize))
}

/// `run_pieces PLACES WORDS`: runs these words over the input as it is, over the input cut once at each of these places, and byte by
/// byte. Tells what the first run gives, and the first cut that gives something else.
fn run_pieces<T: Threads + Wait + Sync>(
    rt: &T,
    alloc: Global,
    around: &Surroundings,
    rest: &str,
    out: &mut Told,
) -> Result<(), Bad> {
    let (places, text) = first_word(rest);
    run_over(rt, alloc, around, text, Pieces::Written, out)?;
    let (first, behind) = places_of(places)?;
    for place in first..behind {
        let pieces = Pieces::CutAt(place);
        if !gives(rt, alloc, around, text, pieces, out.text())? {
            out.add("cut at ");
            out.number(place as u64);
            out.add(" gives something else\n");
            return Ok(());
        }
    }
    if !gives(rt, alloc, around, text, Pieces::Bytes, out.text())? {
        out.add("byte by byte gives something else\n");
    }
    Ok(())
}

/// The input, in which the bits of this mask are changed in one byte.
fn flipped(alloc: Global, input: &[u8], place: usize, mask: u8) -> Result<MemSource, Bad> {
    let mut bytes = Vec::from_slice(alloc, input)?;
    if place < bytes.len() {
        bytes[place] ^= mask;
    }
    Ok(MemSource::make(bytes, Vec::new(alloc), Vec::new(alloc)))
}

/// `run_flips MASK WORDS`: runs these words once for each byte of the input, of which that byte has the bits of the mask changed. Tells
/// of each its place and what the run gives.
fn run_flips<T: Threads + Wait + Sync>(
    rt: &T,
    alloc: Global,
    around: &Surroundings,
    rest: &str,
    out: &mut Told,
) -> Result<(), Bad> {
    let (mask, text) = first_word(rest);
    let mask = (number(mask)? % 256) as u8;
    let whole = around.devices.source(alloc, Pieces::Written)?;
    let input = whole.left();
    for place in 0..input.len() {
        out.add("byte ");
        out.number(place as u64);
        out.add("\n");
        let source = flipped(alloc, input, place, mask)?;
        run_source(rt, alloc, around, text, source, out)?;
        out.end_line();
    }
    Ok(())
}

/// Does a line, and tells what it gives.
fn do_line<T: Threads + Wait + Sync>(
    rt: &T,
    alloc: Global,
    around: &mut Surroundings,
    line: &Line<'_>,
    out: &mut Told,
) -> Result<(), Bad> {
    match line.verb {
        "case" | "setup" => Ok(()),
        "run" => run_over(rt, alloc, around, line.rest, Pieces::Written, out),
        "run_pieces" => run_pieces(rt, alloc, around, line.rest, out),
        "run_flips" => run_flips(rt, alloc, around, line.rest, out),
        verb => change(alloc, around, verb, line.rest),
    }
}

/// Does a line that changes what surrounds a run.
fn change(alloc: Global, around: &mut Surroundings, verb: &str, rest: &str) -> Result<(), Bad> {
    if around.links.change(alloc, verb, rest)? {
        Ok(())
    } else {
        around.devices.change(alloc, verb, rest)
    }
}

/// Does these lines, and reports what differs.
fn do_lines<T: Threads + Wait + Sync>(
    rt: &T,
    alloc: Global,
    around: &mut Surroundings,
    lines: &[Line<'_>],
    report: &mut Report,
) {
    for line in lines {
        let mut out = Told::of(alloc);
        let done = do_line(rt, alloc, around, line, &mut out);
        report.settle(line, done, &out);
    }
}

/// Does the lines of a case, those of the setup first.
pub fn case<T: Threads + Wait + Sync>(
    rt: &T,
    alloc: Global,
    setup: &[Line<'_>],
    lines: &[Line<'_>],
    report: &mut Report,
) {
    let mut around = Surroundings {
        devices: Devices::of(alloc),
        links: MemLinks::none(alloc),
    };
    do_lines(rt, alloc, &mut around, setup, report);
    do_lines(rt, alloc, &mut around, lines, report);
}
