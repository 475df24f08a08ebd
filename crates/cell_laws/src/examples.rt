//! Worked examples of the definitions. Each function does nothing; its clause is the example.
ghost use Rattle.cell_laws.specs.Examples.{RaceIsLost, OneCellIsLeft, VersionsEnd, RangesEnd, NextRowEnds};

/// Two callers give an id to one name, and one of them loses the race. The history is lawful.
pub fn race_is_lost()
    ensures { RaceIsLost }
{}

/// Of six cells of a row, two compactions leave one.
pub fn one_cell_is_left()
    ensures { OneCellIsLeft }
{}

/// Versions end at 2^64 - 1, and a drop takes those up to the one that it names.
pub fn versions_end()
    ensures { VersionsEnd }
{}

/// The edges of the ranges that a next row may look through.
pub fn ranges_end()
    ensures { RangesEnd }
{}

/// A next row looks from the first row of its range on, and not at the row at its end.
pub fn next_row_ends()
    ensures { NextRowEnds }
{}
