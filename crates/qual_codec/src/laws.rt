//! Laws of cells and of the order of qualifiers. Each function does nothing; its clause is the law.
ghost use Rattle.qual_codec.specs.CellFaults.{CellsReadOnce};
ghost use Rattle.qual_codec.specs.Order.{BelowExtends, ItemsAreUnique, OrderIsAntisymmetric, OrderIsReflexive, OrderIsTransitive};
ghost use Rattle.qual_codec.specs.Spelling.{PointsReadBack, ShortestIsUnique};

/// A qualifier is one list of items at most.
pub fn items_are_unique()
    ensures { ItemsAreUnique }
{}

/// A cell reads as one list of data points, or as one first fault, and never as two things.
pub fn cells_read_once()
    ensures { CellsReadOnce }
{}

/// A value has one shortest spelling.
pub fn shortest_is_unique()
    ensures { ShortestIsUnique }
{}

/// What is written for a data point reads as that data point.
pub fn points_read_back()
    ensures { PointsReadBack }
{}

/// Each qualifier that reads is at most itself.
pub fn order_is_reflexive()
    ensures { OrderIsReflexive }
{}

/// What is at most another is at most all that this is at most.
pub fn order_is_transitive()
    ensures { OrderIsTransitive }
{}

/// Two qualifiers of which each is at most the other are one.
pub fn order_is_antisymmetric()
    ensures { OrderIsAntisymmetric }
{}

/// What is strictly above stays so where the lesser is replaced by one at most it, and the greater by one that is at least it.
pub fn below_extends()
    ensures { BelowExtends }
{}
