//! Laws of mending. Each function does nothing; its clause is the law.
ghost use Rattle.listing_fix.specs.Laws.{FixedIsSound, SoundStaysAsItIs};
ghost use Rattle.listing_fix.specs.Sorts.{SortedFirsts};

/// A stable sort by place, and then the first of each place, gives the lines of the store of cells.
pub fn sorted_firsts()
    ensures { SortedFirsts }
{}

/// What mending makes is sound, and a sound listing is what mending makes of it.
pub fn mending()
    ensures sound { FixedIsSound }
    ensures stays { SoundStaysAsItIs }
{}
