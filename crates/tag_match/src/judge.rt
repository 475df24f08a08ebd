//! Judging values by a filter.
ghost use Rattle.std.specs.Prelude.{◌≡◌, ◌&&◌};
ghost use Rattle.tsd_base.specs.TagList.{is_same};
ghost use Rattle.group_by.specs.TagFilters.{passes_filter, passes_test};
ghost use Rattle.tag_match.specs.Patterns.{finds};
ghost use Rattle.tag_match.specs.TestPatterns.{sought_by, IsPlain, JudgesAs};

use crate::patterns::name_text;
use group_by::tag_filters::passes_test;
use query_text::queries::{Filter, Test};
use regex::Matcher;
use std::marker::Model;
use tsd_base::names::Name;

/// What judges values by a filter. It holds the rooms that a search by the filter's pattern takes, and is seen as the filter.
#[derive(Drop)]
pub struct Judge<'b> {
    filter: &'b Filter,
    matcher: Option<Matcher<'b>>,
    ghost judges: { JudgesAs (sought_by matcher) filter.now.test },
    ghost plain: { IsPlain (sought_by matcher) filter.now.test },
}

impl<'b> Model for Judge<'b> {
    ghost use Rattle.query_text.specs.declared.queries.Filter.{Filter};

    ghost Value = { Filter };

    ghost view = { λ judge. judge.filter.now };
}

impl<'b> Judge<'b> {
    /// What judges by this filter, with what searches for its pattern, where it has one.
    pub(crate) fn of(filter: &'b Filter, matcher: Option<Matcher<'b>>) -> Judge<'b>
        requires judges { JudgesAs (sought_by matcher) filter.now.test }
        requires plain { IsPlain (sought_by matcher) filter.now.test }
        ensures { result ≡ filter.now }
    {
        Judge { filter, matcher }
    }

    /// The filter.
    pub fn filter(&self) -> &Filter
        ensures { result.now ≡ self.now }
    {
        self.filter
    }

    /// Whether the value passes the filter's test.
    pub fn passes(&mut self, value: &Name) -> bool
        ensures passes { result ≡ passes_test finds self.old.test value.now }
        ensures same { self.new ≡ self.old }
    {
        passes(&self.filter.test, &mut self.matcher, value)
    }

    /// Whether one of the pairs has the filter's key, with a value that passes the test.
    pub fn passes_one(&mut self, pairs: &[(Name, Name)]) -> bool
        ensures passes { result ≡ passes_filter finds self.old pairs.now }
        ensures same { self.new ≡ self.old }
    {
        for pair in pairs {
            if self.passes_pair(pair) {
                return true;
            }
        }
        false
    }

    fn passes_pair(&mut self, pair: &(Name, Name)) -> bool
        ensures passes { result ≡ (is_same self.old.key pair.now.0 && passes_test finds self.old.test pair.now.1) }
        ensures same { self.new ≡ self.old }
    {
        self.filter.key == pair.0 && self.passes(&pair.1)
    }
}

/// Whether a value passes a test, for whose pattern there is what searches for it.
fn passes(test: &Test, matcher: &mut Option<Matcher<'_>>, value: &Name) -> bool
    requires judges { JudgesAs (sought_by matcher.old) test.now }
    requires plain { IsPlain (sought_by matcher.old) test.now }
    ensures passes { result ≡ passes_test finds test.now value.now }
    ensures same { sought_by matcher.new ≡ sought_by matcher.old }
{
    match matcher {
        Some(matcher) => matcher.is_match(name_text(value)),
        None => passes_test(test, value),
    }
}
