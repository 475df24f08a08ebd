//! Laws of whole scans, over every lawful history. Each function does nothing; its clauses are the laws.
ghost use Rattle.row_scan.specs.Laws.{OthersPass, ScanBegins, ScanCounts, ScanCovers, ScanIsWhole, ScanShows, SkipsPass, TurnEnds, TurnGoesOn};

/// Turn by turn a whole scan is made, with any other steps between, and with skips over rows that aren't wanted.
pub fn turns_make_scan()
    ensures begins { ScanBegins }
    ensures goes_on { TurnGoesOn }
    ensures others { OthersPass }
    ensures skips { SkipsPass }
    ensures ends { TurnEnds }
{}

/// A whole scan gives every wanted row of the metric in the hours that was there before its first step, once and in order, and it makes
/// at most one step more than there are such rows at its end.
pub fn scan_is_whole()
    ensures whole { ScanIsWhole }
    ensures counts { ScanCounts }
    ensures shows { ScanShows }
{}

/// What the rows of a whole scan read as covers what was accepted before its first step, and lies within what was accepted at its
/// end, where none of them has two values at one time that is asked for.
pub fn scan_covers()
    ensures { ScanCovers }
{}
