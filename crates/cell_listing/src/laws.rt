//! The law of printed lines. The function does nothing; its clause is the law.
ghost use Rattle.cell_listing.specs.Laws.{LinesReadBack};

/// What is printed of a cell tells this cell, if its line isn't too long.
pub fn lines_read_back()
    ensures { LinesReadBack }
{}
