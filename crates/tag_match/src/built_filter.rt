//! A filter with its pattern built.
ghost use Rattle.std.specs.Prelude.{◌≡◌, true, false, MatchOption, IfOk};
ghost use Rattle.query_text.specs.declared.queries.Test.TheVariants.{Pattern};
ghost use Rattle.group_by.specs.TagFilters.{is_pattern};
ghost use Rattle.tag_match.specs.TestPatterns.{is_bad, pattern_in, sought_by, IsPlain, JudgesAs};

use crate::judge::Judge;
use crate::patterns::build_pattern;
use query_text::queries::{Filter, PatternText, Test};
use regex::{Matcher, Regex};
use std::alloc::{AllocError, Global};

/// A filter, with its pattern built where it has one.
#[derive(Drop)]
pub(crate) struct BuiltFilter<'f> {
    pub(crate) filter: &'f Filter,
    pub(crate) pattern: Option<Regex>,
    ghost judges: { JudgesAs (pattern_in pattern) filter.now.test },
    ghost plain: { IsPlain (pattern_in pattern) filter.now.test },
}

impl<'f> BuiltFilter<'f> {
    /// What judges by the filter. It fails only for want of memory.
    pub(crate) fn judge(&self, alloc: Global) -> Result<Judge<'_>, AllocError>
        ensures { IfOk result (λ judge. judge ≡ self.now.filter.now) }
    {
        let matcher = matcher_of(alloc, &self.pattern)?;
        Ok(Judge::of(self.filter, matcher))
    }
}

/// What searches for a pattern, where there is one.
fn matcher_of<'b>(
    alloc: Global,
    pattern: &'b Option<Regex>,
) -> Result<Option<Matcher<'b>>, AllocError>
    ensures { IfOk result (λ matcher. sought_by matcher ≡ pattern_in pattern.now) }
{
    match pattern {
        Some(regex) => Ok(Some(regex.matcher(alloc)?)),
        None => Ok(None),
    }
}

/// The pattern that a test has, where it has one.
fn pattern_of(test: &Test) -> Option<&PatternText>
    ensures { MatchOption result (is_pattern test.now ≡ false) (λ text. test.now ≡ Pattern text.now) }
{
    match test {
        Test::Any | Test::OneOf { .. } | Test::NotOneOf { .. } | Test::Wild { .. } => None,
        Test::Pattern { text } => Some(text),
    }
}

/// The filter with its pattern built, or None where the engine answers a syntax error for it. It fails only for want of memory.
pub(crate) fn build_filter<'f>(
    alloc: Global,
    filter: &'f Filter,
) -> Result<Option<BuiltFilter<'f>>, AllocError>
    ensures { IfOk result (λ made. MatchOption made (is_bad filter.now ≡ true) (λ one. (one.filter.now ≡ filter.now) × (is_bad filter.now ≡ false))) }
{
    let Some(text) = pattern_of(&filter.test) else {
        return Ok(Some(BuiltFilter {
            filter,
            pattern: None,
        }));
    };
    match build_pattern(alloc, text)? {
        Some(regex) => Ok(Some(BuiltFilter {
            filter,
            pattern: Some(regex),
        })),
        None => Ok(None),
    }
}
