//! Laws of the parts of a store. Each function does nothing; its clauses are the laws.
ghost use Rattle.cell_laws.specs.JoinedParts.{StepsInParts};
ghost use Rattle.cell_laws.specs.PartLaws.{HistoryApart, LooksInOne, PartsTellStore, RepliesApart, StepsApart};

/// A step of some rows is the same step on their part, and any other step leaves the part.
pub fn steps_apart()
    ensures { StepsApart }
{}

/// The part of the store after a history is what the entries of these rows alone make, each at its place.
pub fn history_apart()
    ensures { HistoryApart }
{}

/// A step of some rows has the reply that it has on their part.
pub fn replies_apart()
    ensures { RepliesApart }
{}

/// A next row whose range lies within one region looks at the rows of that region alone.
pub fn looks_in_one()
    ensures { LooksInOne }
{}

/// The parts of all regions tell the store.
pub fn parts_tell_store()
    ensures { PartsTellStore }
{}

/// A step on the region of its row is the step on the store that the regions make together.
pub fn steps_in_parts()
    ensures { StepsInParts }
{}
