//! What queries ask.
ghost use Rattle.std.specs.Prelude.{◌≡◌, Some, None, IfOk, if◌then◌else◌};
ghost use Rattle.query_text.specs.TestTexts.{is_pattern_text};

use crate::test_texts::{ascii_text, is_pattern_text};
use short_bytes::short::Bytes;
use std::alloc::{AllocError, AllocFailed, Global};
use std::marker::Model;
use tsd_base::kinds::{Aggregator, Down};
use tsd_base::names::Name;

/// How many sub queries a query may have.
pub const MOST_QUERIES: usize = 16;

/// Names in the order of a text, which contracts see as a list.
#[derive(Debug, Drop)]
pub struct NameList {
    list: Vec<Name>,
}

impl Model for NameList {
    ghost use Rattle.std.specs.Prelude.{List, ℕ};

    ghost Value = { List (List ℕ) };

    ghost view = { λ names. names.list.items };
}

impl NameList {
    /// These names.
    pub fn of(list: Vec<Name>) -> NameList
        ensures { result ≡ list.items }
    {
        NameList { list }
    }

    /// The names.
    pub fn list(&self) -> &[Name]
        ensures { result.now ≡ self.now }
    {
        self.list.as_slice()
    }
}

/// What a filter asks of the value of its key.
#[derive(Debug, Drop)]
pub enum Test {
    /// Any value.
    Any,
    /// One of these values.
    OneOf { names: NameList },
    /// A value, and none of these.
    NotOneOf { names: NameList },
    /// A value that is this text with each `*` in it replaced by some text, perhaps an empty one.
    Wild { text: Bytes },
    /// A value in which this regular expression has a match.
    Pattern { text: PatternText },
}

/// The text of a regular expression: 1 to 255 bytes from a space to `~`, without `,`, `{` and `}`. It may be none that reads.
#[derive(Debug, Drop)]
pub struct PatternText {
    text: String,
}

impl Model for PatternText {
    ghost use Rattle.std.specs.Prelude.{List, ℕ, string_bytes};
    ghost use Rattle.query_text.specs.TestTexts.{IsPatternText};

    ghost Value = { List ℕ };

    ghost view = { λ pattern. string_bytes pattern.text };

    ghost invariant = { λ pattern. IsPatternText (string_bytes pattern.text) };
}

impl PatternText {
    /// The text that these bytes are, if they are one. It fails only for want of memory.
    pub fn read(alloc: Global, bytes: &[u8]) -> Result<Option<PatternText>, AllocError>
        ensures { IfOk result (λ text. text ≡ (if is_pattern_text bytes.now then Some bytes.now else None)) }
    {
        if !is_pattern_text(bytes) {
            return Ok(None);
        }
        let text = String::from_str(alloc, ascii_text(bytes))?;
        Ok(Some(PatternText { text }))
    }

    /// The text.
    pub fn text(&self) -> &str
        ensures { result.now ≡ self.now }
    {
        self.text.as_str()
    }
}

impl Test {
    ghost use Rattle.query_text.specs.FilterTexts.{is_of_text};

    /// Whether the value is tested by its text, as `wildcard(..)` and `regexp(..)` do it, and not against names.
    pub fn is_of_text(&self) -> bool
        ensures { result ≡ is_of_text self.now }
    {
        matches!(self, Test::Wild { .. } | Test::Pattern { .. })
    }
}

/// A filter: the series that have this key with a value that passes the test.
#[derive(Debug, Drop)]
pub struct Filter {
    pub key: Name,
    pub test: Test,
    /// Whether each value of the key makes a group of its own.
    pub group: bool,
}

/// Filters in the order of a text, which contracts see as a list.
#[derive(Debug, Drop)]
pub struct FilterList {
    list: Vec<Filter>,
}

impl Model for FilterList {
    ghost use Rattle.std.specs.Prelude.{List};
    ghost use Rattle.query_text.specs.declared.queries.Filter.{Filter};

    ghost Value = { List Filter };

    ghost view = { λ filters. filters.list.items };
}

impl FilterList {
    /// These filters.
    pub fn of(list: Vec<Filter>) -> FilterList
        ensures { result ≡ list.items }
    {
        FilterList { list }
    }

    /// The filters.
    pub fn list(&self) -> &[Filter]
        ensures { result.now ≡ self.now }
    {
        self.list.as_slice()
    }
}

/// A sub query: the series of one metric that pass each filter, made into groups.
#[derive(Debug, Drop)]
pub struct Sub {
    /// How the series of a group make one value at each time.
    pub how: Aggregator,
    /// How the points of one series are put into buckets beforehand.
    pub down: Option<Down>,
    pub metric: Name,
    pub filters: FilterList,
}

/// Sub queries in the order of a text, which contracts see as a list.
#[derive(Debug, Drop)]
pub struct SubList {
    list: Vec<Sub>,
}

impl Model for SubList {
    ghost use Rattle.std.specs.Prelude.{List};
    ghost use Rattle.query_text.specs.declared.queries.Sub.{Sub};

    ghost Value = { List Sub };

    ghost view = { λ subs. subs.list.items };
}

impl SubList {
    /// These sub queries.
    pub fn of(list: Vec<Sub>) -> SubList
        ensures { result ≡ list.items }
    {
        SubList { list }
    }

    /// The sub queries.
    pub fn list(&self) -> &[Sub]
        ensures { result.now ≡ self.now }
    {
        self.list.as_slice()
    }
}

/// A query: sub queries over one range of times.
#[derive(Debug, Drop)]
pub struct Query {
    /// The first time, in milliseconds since 1970.
    pub start: u64,
    /// The last time, which is included.
    pub end: u64,
    /// Whether times are answered in milliseconds; else in seconds.
    pub ms: bool,
    pub subs: SubList,
}

/// Why a text, a form or a JSON value is no query.
#[derive(Clone, Copy, Debug, PartialEq, Eq)]
pub enum QueryFault {
    /// The text of a sub query can't be read from the byte at this place, from 0, on. In JSON it is a metric that is no
    /// name, and the place is 0.
    BadM { at: usize },
    /// What stands before the first `:`, or the aggregator in JSON, is none.
    UnknownAggregator,
    /// A rate is asked.
    RateRefused,
    /// What stands before a further `:`, or the downsample in JSON, is none, or one that is no whole seconds where times
    /// are told in seconds.
    BadDownsample,
    /// The filter with this number can't be read. They are numbered from 0 on: in a text over both parts, in JSON over the
    /// tags and then the filters.
    BadFilter { index: usize },
    /// The start of a form is missing, a start or an end is no time, or the end is before the start.
    BadTimes,
    /// A form has no sub query, or a JSON value has none, or one of its members is missing or of another kind.
    BadQuery,
    /// There are so many sub queries, and not more than `MOST_QUERIES` may be asked.
    TooManyQueries { count: usize },
    /// There was no memory for the query.
    OutOfMemory,
}

impl From<AllocError> for QueryFault {
    ghost use Rattle.std.specs.Prelude.{◌≡◌};
    ghost use Rattle.query_text.specs.declared.queries.QueryFault.TheVariants.{OutOfMemory};

    ghost from_gives = { λ _ fault. fault ≡ OutOfMemory };

    fn from(_error: AllocError) -> QueryFault {
        QueryFault::OutOfMemory
    }
}

impl<T: Drop> From<AllocFailed<T>> for QueryFault {
    ghost use Rattle.std.specs.Prelude.{◌≡◌};
    ghost use Rattle.query_text.specs.declared.queries.QueryFault.TheVariants.{OutOfMemory};

    ghost from_gives = { λ _ fault. fault ≡ OutOfMemory };

    fn from(_failed: AllocFailed<T>) -> QueryFault {
        QueryFault::OutOfMemory
    }
}
