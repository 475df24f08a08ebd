//! Laws of row keys, for layers that search rows by their bytes. Each function does nothing; its clause is the law.
ghost use Rattle.row_key.specs.KeyOrder.{HoursAreRange, KeysAreUnique, RowsFollowKeys};
ghost use Rattle.row_key.specs.Regions.{MetricsAreWhole, RegionsEnd};

/// Keys with the same bytes are one key.
pub fn keys_are_unique()
    ensures { KeysAreUnique }
{}

/// The rows stand in the order of their keys: by metric, then by base, then by the tags.
pub fn rows_follow_keys()
    ensures { RowsFollowKeys }
{}

/// The rows of one metric in a range of hours are a range of bytes.
pub fn hours_are_range()
    ensures { HoursAreRange }
{}

/// The regions are those of names and the data regions.
pub fn regions_end()
    ensures { RegionsEnd }
{}

/// The rows of one metric lie in one region.
pub fn metrics_are_whole()
    ensures { MetricsAreWhole }
{}
