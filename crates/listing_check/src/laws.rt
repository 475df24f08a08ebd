//! Laws of faults. Each function does nothing; its clause is the law.
ghost use Rattle.listing_check.specs.Laws.{FlawlessIsBase, FlawlessLoads, NoFaultIsSound, NumbersRise};

/// Cells that rise are without a flaw exactly where a history may begin with their store, and then their counters read.
pub fn flawless_is_base()
    ensures base { FlawlessIsBase }
    ensures loads { FlawlessLoads }
{}

/// A listing has no fault exactly where all its lines tell cells, which rise and make a base.
pub fn no_fault_is_sound()
    ensures { NoFaultIsSound }
{}

/// The faults of a listing are told in order of lines, at most one of a line, and so are its notes.
pub fn numbers_rise()
    ensures { NumbersRise }
{}
