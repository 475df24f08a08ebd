//! What is wrong with a listing.
ghost use Rattle.std.specs.Prelude.{◌≡◌};
ghost use Rattle.listing_check.specs.Faults.{flaw_text, hint_text};

/// What is wrong with a line: the first of these that applies.
#[derive(Clone, Copy, Debug, PartialEq, Eq)]
pub enum Flaw {
    /// It tells no cell, or its cell isn't above the last earlier one that counts.
    BadLine,
    /// A cell of ids or of names that doesn't read.
    BadUidCell,
    /// An id above the counter of its kind, or without one.
    AboveCounter,
    /// An id of a name that hasn't this name.
    NoName,
    /// A row of points that is no key.
    BadKey,
    /// An id of a row that hasn't a name, or whose name hasn't this id.
    RowNoName,
    /// A cell of points that doesn't read.
    BadCell,
}

/// What may be told of a line without a flaw.
#[derive(Clone, Copy, Debug, PartialEq, Eq)]
pub enum Hint {
    /// A name of an id that no name has.
    Wasted,
    /// A cell that has another value at some offset than an earlier one of its row.
    Clash,
}

/// What was found in a listing: each fault and each note with the number of its line, in order of lines.
#[derive(Drop)]
pub struct Report {
    pub faults: Vec<(u64, Flaw)>,
    pub notes: Vec<(u64, Hint)>,
}

impl Flaw {
    /// The flaw's text.
    pub fn text(self) -> &'static [u8]
        ensures { result.now ≡ flaw_text self }
    {
        match self {
            Flaw::BadLine => b"bad line",
            Flaw::BadUidCell => b"bad uid cell",
            Flaw::AboveCounter => b"id above counter",
            Flaw::NoName => b"id without name",
            Flaw::BadKey => b"bad key",
            Flaw::RowNoName => b"row id without name",
            Flaw::BadCell => b"bad cell",
        }
    }
}

impl Hint {
    /// The note's text.
    pub fn text(self) -> &'static [u8]
        ensures { result.now ≡ hint_text self }
    {
        match self {
            Hint::Wasted => b"wasted id",
            Hint::Clash => b"clash",
        }
    }
}
