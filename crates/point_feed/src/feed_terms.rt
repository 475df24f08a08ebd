//! What a feed is about.

use std::marker::Brand;

/// How the metrics of points that are handed on begin, and what the caller had seen when the feed was made. It has no method:
/// contracts alone speak of it.
pub trait FeedTerms {
    ghost use Rattle.std.specs.Prelude.{ℕ, List};
    ghost use Rattle.cell_model.specs.Seen.{Seen};

    ghost prefix: { List ℕ };

    ghost start: { Seen };
}

impl FeedTerms for Brand {
    ghost use Rattle.std.specs.Prelude.{[]};
    ghost use Rattle.point_feed.specs.FedEntries.{nothing_seen};

    ghost prefix = { [] };

    ghost start = { nothing_seen };
}
