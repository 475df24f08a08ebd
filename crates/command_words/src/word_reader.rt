//! Reading words.
ghost use Rattle.std.specs.Prelude.{◌≡◌, ◌≤◌, map, option_map, string_bytes, IfOk, IfSome};
ghost use Rattle.tsd_base.specs.declared.times.TheConstants.{LAST_TIME};
ghost use Rattle.clap.specs.Matches.{found_of};
ghost use Rattle.clap.specs.Walk.{first_of, rows_of};
ghost use Rattle.clap.specs.Simple.{subcommand_rows_of};
ghost use Rattle.command_words.specs.CommandWords.{are_names, asked_by, asked_in, asked_of, batch_from, batch_in, count_of, fleet_asked, image_asked, import_in, is_given, is_name, is_pattern, names_in, names_with, number_within, patterns_in, port_in, publish_in, serve_in, stdio_in, tool_asked, weave_in, widths_in, within};
ghost use Rattle.command_words.specs.PlainAsked.{InRange, IsFleet, batch_of, import_of, names_of, plain_names, plain_pattern, plain_patterns, serve_of, stdio_of, weave_of, what_asked};
ghost use Rattle.command_words.specs.WidthWords.{width_of, widths_from, widths_said};
ghost use Rattle.row_key.specs.IdWidths.{IsWidth};

use crate::asked::{Asked, Batch, Import, NameOptions, PatternTexts, Serve, Stdio, Weave};
use clap::ArgMatches;
use clap::error::ErrorKind;
use command_grammar::grammar::grammar;
use query_requests::query_times::read_fixed_time;
use row_key::Widths;
use std::alloc::{AllocError, Global};
use tsd_base::digits::read_digits;
use tsd_base::names::{Name, NameFault};

// How many daemons a fleet has at most, and where nothing is said.
const MOST_DAEMONS: u32 = 8;

const USUAL_DAEMONS: u32 = 1;

// How many workers a daemon has at most, and where nothing is said.
const MOST_WORKERS: u32 = 16;

const USUAL_WORKERS: u32 = 4;

// In how many regions data points stand at most, and where nothing is said.
const MOST_REGIONS: u32 = 16;

const USUAL_REGIONS: u32 = 4;

// How many operations are woven at most.
const MOST_OPERATIONS: u32 = 1_000_000;

/// Reads the words of a command, without the program's name. None where they are none, also where they ask for help or
/// for a version. It fails only for want of memory.
///
/// `batch START END M` may have the option `--ms`, with START and END times as `read_fixed_time` reads them, and END not
/// below START. An END in seconds is that second's first millisecond. `stdio` may have the options `--auto-metric`,
/// `--no-auto-tagk` and `--no-auto-tagv`, and with a value `--allow-metric P`, `--allow-tagk P` and `--allow-tagv P`, where P
/// is the bytes of a name as `Name::read` reads it, and `--appends`. `stdio` alone may have `--publish P`, with P of the same form.
/// `serve PORT` may have the others too, `--image`, `--save`, `--daemons N`, `--workers N` and `--regions N`, with a port from 0 to 65535, 1 to 8 daemons, 1 to 16 workers of each and 1 to 16 regions, in digits alone.
/// `stdio`, `import`, `dump`, `fsck`, `fix` and `pack` may have `--widths M,K,V`, three digits from 2 to 4 with commas between them: how many
/// bytes the ids of metrics, of tag keys and of tag values have. `import` may have `--compact` too. `weave SEED N` has a seed that is a `u64`
/// and at most 1,000,000 operations, in digits alone. `unpack` has no more words. An option is given at most once, and `clap` says where it
/// may stand.
pub fn read_words<'a>(alloc: Global, words: &'a [String]) -> Result<Option<Asked<'a>>, AllocError>
    ensures asked { IfOk result (λ found. what_asked found ≡ asked_of (map string_bytes words.entry.now)) }
    ensures range { IfOk result (λ found. IfSome found InRange) }
{
    let grammar = grammar(alloc)?;
    match grammar.try_get_matches_from(words) {
        Ok(matches) => Ok(asked_in(alloc, &matches)),
        Err(error) => match error.kind() {
            ErrorKind::OutOfMemory => Err(AllocError),
            _ => Ok(None),
        },
    }
}

/// Reads what the words of a command ask of a fleet, if they ask for one. It fails only for want of memory.
pub fn read_fleet<'a>(alloc: Global, words: &'a [String]) -> Result<Option<Serve<'a>>, AllocError>
    ensures asked { IfOk result (λ found. serve_of found ≡ fleet_asked (asked_of (map string_bytes words.entry.now))) }
    ensures fleet { IfOk result (λ found. IfSome found IsFleet) }
{
    let asked = read_words(alloc, words)?;
    Ok(fleet_in(asked))
}

/// What is asked of a fleet.
fn fleet_in<'a>(asked: Option<Asked<'a>>) -> Option<Serve<'a>>
    requires range { IfSome asked InRange }
    ensures asked { serve_of result ≡ fleet_asked (what_asked asked.entry) }
    ensures fleet { IfSome result IsFleet }
{
    match asked {
        Some(Asked::Serve { serve }) => Some(serve),
        Some(Asked::Batch { .. }) => None,
        Some(Asked::Stdio { .. }) => None,
        Some(Asked::Import { .. }) => None,
        Some(Asked::Dump { .. }) => None,
        Some(Asked::Fsck { .. }) => None,
        Some(Asked::Fix { .. }) => None,
        Some(Asked::Weave { .. }) => None,
        Some(Asked::Pack { .. }) => None,
        Some(Asked::Unpack) => None,
        None => None,
    }
}

/// What the matches of a command ask for.
fn asked_in<'a>(alloc: Global, matches: &ArgMatches<'a>) -> Option<Asked<'a>>
    ensures asked { what_asked result ≡ asked_in (subcommand_rows_of matches.now) }
    ensures range { IfSome result InRange }
{
    match matches.subcommand() {
        Some((name, words)) => asked_by(alloc, name.as_bytes(), words),
        None => None,
    }
}

/// What a command of this name with these words asks for.
fn asked_by<'a>(alloc: Global, name: &[u8], words: &ArgMatches<'a>) -> Option<Asked<'a>>
    ensures asked { what_asked result ≡ asked_by name.now (rows_of (found_of words.now)) }
    ensures range { IfSome result InRange }
{
    if name == b"batch".as_slice() {
        let batch = batch_in(words)?;
        return Some(Asked::Batch { batch });
    }
    if name == b"stdio".as_slice() {
        let stdio = stdio_in(alloc, words)?;
        return Some(Asked::Stdio { stdio });
    }
    if name == b"serve".as_slice() {
        let serve = serve_in(alloc, words)?;
        return Some(Asked::Serve { serve });
    }
    tool_asked(name, words)
}

/// What a tool on a store as text or as an image, of this name and with these words, is asked for.
fn tool_asked<'a>(name: &[u8], words: &ArgMatches<'a>) -> Option<Asked<'a>>
    ensures asked { what_asked result ≡ tool_asked name.now (rows_of (found_of words.now)) }
    ensures range { IfSome result InRange }
{
    if name == b"import".as_slice() {
        let import = import_in(words)?;
        return Some(Asked::Import { import });
    }
    if name == b"dump".as_slice() {
        let widths = widths_in(words)?;
        return Some(Asked::Dump { widths });
    }
    if name == b"fsck".as_slice() {
        let widths = widths_in(words)?;
        return Some(Asked::Fsck { widths });
    }
    if name == b"fix".as_slice() {
        let widths = widths_in(words)?;
        return Some(Asked::Fix { widths });
    }
    if name == b"weave".as_slice() {
        let weave = weave_in(words)?;
        return Some(Asked::Weave { weave });
    }
    image_asked(name, words)
}

/// What a command on an image, of this name and with these words, is asked for.
fn image_asked<'a>(name: &[u8], words: &ArgMatches<'a>) -> Option<Asked<'a>>
    ensures asked { what_asked result ≡ image_asked name.now (rows_of (found_of words.now)) }
    ensures range { IfSome result InRange }
{
    if name == b"pack".as_slice() {
        let widths = widths_in(words)?;
        return Some(Asked::Pack { widths });
    }
    if name == b"unpack".as_slice() {
        return Some(Asked::Unpack);
    }
    None
}

/// What `import` is asked.
fn import_in(words: &ArgMatches<'_>) -> Option<Import>
    ensures { import_of result ≡ import_in (rows_of (found_of words.now)) }
{
    let widths = widths_in(words)?;
    let compact = is_given(words, "compact");
    Some(Import { compact, widths })
}

/// What `weave` is asked.
fn weave_in(words: &ArgMatches<'_>) -> Option<Weave>
    ensures asked { weave_of result ≡ weave_in (rows_of (found_of words.now)) }
    ensures range { IfSome result (λ weave. weave.count ≤ 1000000) }
{
    let seed = seed_of(said(words, "seed")?)?;
    let count = number_within(0, MOST_OPERATIONS, text(words, "count")?)?;
    Some(Weave { seed, count })
}

/// A number in digits alone, of any length, that is a `u64`.
fn seed_of(text: &str) -> Option<u64>
    ensures { result ≡ number_within 0 18446744073709551615 text.now }
{
    read_digits(text.as_bytes())?;
    match text.parse::<u64>() {
        Ok(seed) => Some(seed),
        Err(_error) => None,
    }
}

/// How many bytes the ids of each kind have, and three where nothing is said.
fn widths_in(words: &ArgMatches<'_>) -> Option<Widths>
    ensures { result ≡ widths_in (rows_of (found_of words.now)) }
{
    widths_said(text(words, "widths"))
}

/// What `batch` is asked.
fn batch_in<'a>(words: &ArgMatches<'a>) -> Option<Batch<'a>>
    ensures asked { batch_of result ≡ batch_in (rows_of (found_of words.now)) }
    ensures range { IfSome result (λ batch. (batch.start ≤ batch.end) × (batch.end ≤ LAST_TIME)) }
{
    let start = text(words, "start")?;
    let end = text(words, "end")?;
    let query = text(words, "query")?;
    let ms = is_given(words, "ms");
    read_batch(start, end, query, ms)
}

/// What `stdio` is asked.
fn stdio_in<'a>(alloc: Global, words: &ArgMatches<'a>) -> Option<Stdio<'a>>
    ensures { stdio_of result ≡ stdio_in (rows_of (found_of words.now)) }
{
    let names = names_in(alloc, words)?;
    let widths = widths_in(words)?;
    let publish = publish_in(alloc, words)?;
    let appends = is_given(words, "appends");
    Some(Stdio {
        names,
        appends,
        widths,
        publish,
    })
}

/// How the metrics of points begin that are published, where the option is among the words, in the bytes of a name.
fn publish_in<'a>(alloc: Global, words: &ArgMatches<'a>) -> Option<Option<&'a [u8]>>
    ensures { option_map plain_pattern result ≡ publish_in (rows_of (found_of words.now)) }
{
    let prefix = text(words, "publish");
    if !is_pattern(alloc, prefix) {
        return None;
    }
    Some(prefix)
}

/// How many bytes the ids of each kind have, by the text that says so, and three where there is none.
fn widths_said(text: Option<&[u8]>) -> Option<Widths>
    ensures { result ≡ widths_said (plain_pattern text.entry) }
{
    match text {
        Some(text) => widths_from(text),
        None => Some(Widths::three()),
    }
}

/// The widths in three digits with commas between them.
fn widths_from(text: &[u8]) -> Option<Widths>
    ensures { result ≡ widths_from text.now }
{
    if text.len() != 5 {
        return None;
    }
    if text[1] != b',' || text[3] != b',' {
        return None;
    }
    let metric = width_of(text[0])?;
    let tag_key = width_of(text[2])?;
    let tag_value = width_of(text[4])?;
    Widths::make(metric, tag_key, tag_value)
}

/// The width in one digit: 2, 3 or 4.
fn width_of(digit: u8) -> Option<u8>
    ensures { result ≡ option_map (λ width. width.bytes) (width_of digit) }
{
    match digit {
        b'2'..=b'4' => Some(digit - b'0'),
        _ => None,
    }
}

/// What `serve` is asked.
fn serve_in<'a>(alloc: Global, words: &ArgMatches<'a>) -> Option<Serve<'a>>
    ensures asked { serve_of result ≡ serve_in (rows_of (found_of words.now)) }
    ensures range { IfSome result IsFleet }
{
    let port = port_in(words)?;
    let daemons = count_of(MOST_DAEMONS, USUAL_DAEMONS, text(words, "daemons"))?;
    let workers = count_of(MOST_WORKERS, USUAL_WORKERS, text(words, "workers"))?;
    let regions = count_of(MOST_REGIONS, USUAL_REGIONS, text(words, "regions"))?;
    let names = names_in(alloc, words)?;
    let appends = is_given(words, "appends");
    let image = is_given(words, "image");
    let save = is_given(words, "save");
    Some(Serve {
        port,
        daemons,
        workers,
        regions,
        names,
        appends,
        image,
        save,
    })
}

/// The port.
fn port_in(words: &ArgMatches<'_>) -> Option<u16>
    ensures { result ≡ port_in (rows_of (found_of words.now)) }
{
    let port = number_within(0, 65535, text(words, "port")?)?;
    Some(port as u16)
}

/// A number from 1 to the most, or the usual one where none is told.
fn count_of(most: u32, usual: u32, text: Option<&[u8]>) -> Option<u32>
    requires usual { 1 ≤ usual }
    requires most { usual ≤ most }
    ensures count { result ≡ count_of most usual (plain_pattern text.entry) }
    ensures range { IfSome result (λ count. (1 ≤ count) × (count ≤ most)) }
{
    match text {
        Some(text) => number_within(1, most, text),
        None => Some(usual),
    }
}

/// A number in digits alone, of any length, from the least to the most.
#[tactic(auto, using(crate::proofs::ReadLemmas::within_min))]
fn number_within(least: u32, most: u32, text: &[u8]) -> Option<u32>
    ensures number { result ≡ number_within least most text.now }
    ensures range { IfSome result (λ n. (least ≤ n) × (n ≤ most)) }
{
    let n = read_digits(text)?;
    if n < u64::from(least) || u64::from(most) < n {
        return None;
    }
    Some(n as u32)
}

/// Which names are given ids.
fn names_in<'a>(alloc: Global, words: &ArgMatches<'a>) -> Option<NameOptions<'a>>
    ensures { names_of result ≡ names_in (rows_of (found_of words.now)) }
{
    let patterns = patterns_in(words);
    if !are_names(alloc, &patterns) {
        return None;
    }
    Some(names_with(words, patterns))
}

/// The values of the options with which new names must begin.
fn patterns_in<'a>(words: &ArgMatches<'a>) -> PatternTexts<'a>
    ensures { plain_patterns result ≡ patterns_in (rows_of (found_of words.now)) }
{
    let metric = text(words, "allow-metric");
    let tag_key = text(words, "allow-tagk");
    let tag_value = text(words, "allow-tagv");
    PatternTexts {
        metric,
        tag_key,
        tag_value,
    }
}

/// Whether each of the patterns is the bytes of a name.
fn are_names(alloc: Global, patterns: &PatternTexts<'_>) -> bool
    ensures { result ≡ are_names (plain_patterns patterns.now) }
{
    is_pattern(alloc, patterns.metric)
        && is_pattern(alloc, patterns.tag_key)
        && is_pattern(alloc, patterns.tag_value)
}

/// Whether a pattern, where there is one, is the bytes of a name.
fn is_pattern(alloc: Global, pattern: Option<&[u8]>) -> bool
    ensures { result ≡ is_pattern (plain_pattern pattern.entry) }
{
    match pattern {
        Some(text) => is_name(alloc, text),
        None => true,
    }
}

/// Whether these are the bytes of a name. Memory is wanted for a name alone.
fn is_name(alloc: Global, bytes: &[u8]) -> bool
    ensures { result ≡ is_name bytes.now }
{
    match Name::read(alloc, bytes) {
        Ok(_name) => true,
        Err(fault) => matches!(fault, NameFault::OutOfMemory),
    }
}

/// Which names are given ids, with these patterns.
fn names_with<'a>(words: &ArgMatches<'_>, patterns: PatternTexts<'a>) -> NameOptions<'a>
    ensures { plain_names result ≡ names_with (rows_of (found_of words.now)) (plain_patterns patterns.entry) }
{
    let auto_metric = is_given(words, "auto-metric");
    let no_tag_key = is_given(words, "no-auto-tagk");
    let no_tag_value = is_given(words, "no-auto-tagv");
    NameOptions {
        auto_metric,
        auto_tag_key: !no_tag_key,
        auto_tag_value: !no_tag_value,
        patterns,
    }
}

/// A word, as it was said.
fn said<'a>(words: &ArgMatches<'a>, id: &str) -> Option<&'a str>
    ensures { option_map (λ text. text.now) result ≡ first_of id.now (rows_of (found_of words.now)) }
{
    words.get_str(id)
}

/// The text of a word.
fn text<'a>(words: &ArgMatches<'a>, id: &str) -> Option<&'a [u8]>
    ensures { option_map (λ text. text.now) result ≡ first_of id.now (rows_of (found_of words.now)) }
{
    match said(words, id) {
        Some(text) => Some(text.as_bytes()),
        None => None,
    }
}

/// Whether an option is among the words.
fn is_given(words: &ArgMatches<'_>, id: &str) -> bool
    ensures { result ≡ is_given id.now (rows_of (found_of words.now)) }
{
    match text(words, id) {
        Some(text) => text == b"true".as_slice(),
        None => false,
    }
}

/// Reads the words of `batch`.
fn read_batch<'a>(start: &[u8], end: &[u8], query: &'a [u8], ms: bool) -> Option<Batch<'a>>
    ensures asked { batch_of result ≡ batch_from start.now end.now query.entry.now ms }
    ensures range { IfSome result (λ batch. (batch.start ≤ batch.end) × (batch.end ≤ LAST_TIME)) }
{
    let start = read_fixed_time(start)?;
    let end = read_fixed_time(end)?;
    if end < start {
        return None;
    }
    Some(Batch {
        start,
        end,
        query,
        ms,
    })
}
