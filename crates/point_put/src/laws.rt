//! Laws of puts.
ghost use Rattle.point_put.specs.PutEntries.{PutsMakeFewEntries};

/// Whatever a put of a point with k tags is answered, its caller made at most 4 (1 + 2k) + 1 entries for it.
pub fn puts_make_few_entries()
    ensures { PutsMakeFewEntries }
{}
