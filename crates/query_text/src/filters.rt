//! Filters in text.
ghost use Rattle.std.specs.Prelude.{◌≡◌, ◌≤◌, ◌<◌, [], ◌∷◌, ◌++◌, codes, length, None, IfOk, OnOk, IsTrue};
ghost use Rattle.std.specs.Option.{option_map};
ghost use Rattle.query_text.specs.Cuts.{parts_by};
ghost use Rattle.query_text.specs.FilterTexts.{called, each_filter, filter_of, filters_in, filters_of, is_call, names_of, not_one_of, one_of, part_at, pattern, test_by, test_of, wild, GivesFilters, GivesMore, GivesOne, GivesPart};

use crate::cuts::{cut, name_of, place_of};
use crate::queries::{Filter, NameList, PatternText, QueryFault, Test};
use crate::test_texts::is_wild_text;
use short_bytes::short::Bytes;
use std::alloc::{AllocError, Global};

/// The filters of a sub query's text, from its first `{` on.
pub fn read_filters(alloc: Global, text: &[u8]) -> Result<Vec<Filter>, QueryFault>
    ensures { GivesFilters result (filters_of text.now) }
{
    let mut filters = Vec::new(alloc);
    let Some(first) = place_of(text, b'{') else {
        return Ok(filters);
    };
    let second = read_part(alloc, text, first, true, &mut filters)?;
    if second == text.len() {
        return Ok(filters);
    }
    if text[second] != b'{' {
        return Err(QueryFault::BadM { at: second });
    }
    let end = read_part(alloc, text, second, false, &mut filters)?;
    if end == text.len() {
        Ok(filters)
    } else {
        Err(QueryFault::BadM { at: end })
    }
}

/// Reads the part whose `{` stands at this place, adds its filters to those before it, and answers the place behind its `}`.
fn read_part(
    alloc: Global,
    text: &[u8],
    at: usize,
    group: bool,
    filters: &mut Vec<Filter>,
) -> Result<usize, QueryFault>
    requires { at < length text.now }
    ensures part { GivesPart filters.old.items result filters.new.items (part_at group (length filters.old.items) text.now at) }
    ensures within { IfOk result (λ end. end ≤ length text.now) }
{
    let rest = &text[at + 1..];
    let Some(len) = place_of(rest, b'}') else {
        return Err(QueryFault::BadM { at: text.len() });
    };
    add_filters(alloc, &rest[..len], group, filters)?;
    Ok(at + 1 + len + 1)
}

/// Adds filters with a `,` between them, or none.
fn add_filters(
    alloc: Global,
    text: &[u8],
    group: bool,
    filters: &mut Vec<Filter>,
) -> Result<(), QueryFault>
    ensures { GivesMore filters.old.items result filters.new.items (filters_in group (length filters.old.items) text.now) }
{
    if text.is_empty() {
        return Ok(());
    }
    add_each(alloc, text, group, filters)
}

/// Adds filters with a `,` between them.
fn add_each(
    alloc: Global,
    text: &[u8],
    group: bool,
    filters: &mut Vec<Filter>,
) -> Result<(), QueryFault>
    ensures { GivesMore filters.old.items result filters.new.items (each_filter group (length filters.old.items) (parts_by 44 text.now)) }
{
    let mut rest = text;
    loop {
        let (one, behind) = cut(rest, b',');
        add_filter(alloc, one, group, filters)?;
        match behind {
            Some(more) => rest = more,
            None => return Ok(()),
        }
    }
}

/// Adds the filter that a text is.
fn add_filter(
    alloc: Global,
    text: &[u8],
    group: bool,
    filters: &mut Vec<Filter>,
) -> Result<(), QueryFault>
    ensures { GivesOne filters.old.items result filters.new.items (filter_of group text.now) }
{
    let Some(filter) = read_filter(alloc, text, group)? else {
        return Err(QueryFault::BadFilter {
            index: filters.len(),
        });
    };
    push(filters, filter)?;
    Ok(())
}

fn push(filters: &mut Vec<Filter>, filter: Filter) -> Result<(), AllocError>
    ensures { OnOk result (filters.new.items ≡ filters.old.items ++ filter ∷ []) }
{
    filters.push(filter)?;
    Ok(())
}

/// The filter that a text is, if it is one. It fails only for want of memory.
fn read_filter(alloc: Global, text: &[u8], group: bool) -> Result<Option<Filter>, AllocError>
    ensures { IfOk result (λ filter. filter ≡ filter_of group text.now) }
{
    let (key, behind) = cut(text, b'=');
    let Some(test) = behind else {
        return Ok(None);
    };
    let Some(test) = read_test(alloc, test)? else {
        return Ok(None);
    };
    let Some(key) = name_of(alloc, key)? else {
        return Ok(None);
    };
    Ok(Some(Filter { key, test, group }))
}

/// The test that a text is, if it is one. It fails only for want of memory.
pub fn read_test(alloc: Global, text: &[u8]) -> Result<Option<Test>, AllocError>
    ensures { IfOk result (λ test. test ≡ test_of text.now) }
{
    if text == b"*".as_slice() {
        return Ok(Some(Test::Any));
    }
    if let Some(names) = called(text, b"literal_or(") {
        return one_of(alloc, names);
    }
    if let Some(names) = called(text, b"not_literal_or(") {
        return not_one_of(alloc, names);
    }
    read_text_test(alloc, text)
}

/// The test by the text of a value, or of names alone, that a text is, if it is one. It fails only for want of memory.
fn read_text_test(alloc: Global, text: &[u8]) -> Result<Option<Test>, AllocError>
    ensures { IfOk result (λ test. test ≡ test_by None None (called (codes "wildcard(") text.now) (called (codes "regexp(") text.now) text.now) }
{
    if let Some(wild) = called(text, b"wildcard(") {
        return read_wild(alloc, wild);
    }
    if let Some(pattern) = called(text, b"regexp(") {
        return read_pattern(alloc, pattern);
    }
    one_of(alloc, text)
}

fn read_wild(alloc: Global, text: &[u8]) -> Result<Option<Test>, AllocError>
    ensures { IfOk result (λ test. test ≡ wild text.now) }
{
    if !is_wild_text(text) {
        return Ok(None);
    }
    let text = Bytes::of(alloc, text)?;
    Ok(Some(Test::Wild { text }))
}

fn read_pattern(alloc: Global, text: &[u8]) -> Result<Option<Test>, AllocError>
    ensures { IfOk result (λ test. test ≡ pattern text.now) }
{
    match PatternText::read(alloc, text)? {
        Some(text) => Ok(Some(Test::Pattern { text })),
        None => Ok(None),
    }
}

/// What stands between this beginning and a `)` at the end.
fn called<'a>(text: &'a [u8], begin: &[u8]) -> Option<&'a [u8]>
    ensures { option_map (λ inner. inner.now) result ≡ called begin.now text.now }
{
    if is_call(text, begin) {
        Some(&text[begin.len()..text.len() - 1])
    } else {
        None
    }
}

fn is_call(text: &[u8], begin: &[u8]) -> bool
    ensures is { result ≡ is_call begin.now text.now }
    ensures longer { IsTrue result → length begin.now < length text.now }
{
    begin.len() < text.len() && &text[..begin.len()] == begin && text[text.len() - 1] == b')'
}

fn one_of(alloc: Global, text: &[u8]) -> Result<Option<Test>, AllocError>
    ensures { IfOk result (λ test. test ≡ one_of (names_of text.now)) }
{
    match read_names(alloc, text)? {
        Some(names) => Ok(Some(Test::OneOf { names })),
        None => Ok(None),
    }
}

fn not_one_of(alloc: Global, text: &[u8]) -> Result<Option<Test>, AllocError>
    ensures { IfOk result (λ test. test ≡ not_one_of (names_of text.now)) }
{
    match read_names(alloc, text)? {
        Some(names) => Ok(Some(Test::NotOneOf { names })),
        None => Ok(None),
    }
}

/// The names with a `|` between them that a text is, if it is such. It fails only for want of memory.
fn read_names(alloc: Global, text: &[u8]) -> Result<Option<NameList>, AllocError>
    ensures { IfOk result (λ names. names ≡ names_of text.now) }
{
    let mut names = Vec::new(alloc);
    let mut rest = text;
    loop {
        let (one, behind) = cut(rest, b'|');
        let Some(name) = name_of(alloc, one)? else {
            return Ok(None);
        };
        names.push(name)?;
        match behind {
            Some(more) => rest = more,
            None => return Ok(Some(NameList::of(names))),
        }
    }
}
