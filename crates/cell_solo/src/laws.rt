//! Laws over callers that take turns. Each function does nothing; its clauses are the laws.
ghost use Rattle.cell_solo.specs.Laws.{EachSightExtends};

/// While one caller has the turn, the sight of every other is extended too: a promise of all histories that fitted its
/// earlier sight holds when its turn comes again.
pub fn each_sight_extends()
    ensures { EachSightExtends }
{}
