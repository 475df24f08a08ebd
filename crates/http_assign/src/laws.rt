//! Laws of assignments.
ghost use Rattle.http_assign.specs.AssignEntries.{TextsMakeFewEntries};

/// What the assignment of a text makes is what the put of a point makes for a name, where names of every kind are given ids that the
/// patterns allow: at most four entries, of which one at most is a bump, behind a read that found no cell, and none for a name that
/// isn't allowed. An id is told exactly where that bump gave one, which is wasted where another caller was faster.
pub fn texts_make_few_entries()
    ensures { TextsMakeFewEntries }
{}
