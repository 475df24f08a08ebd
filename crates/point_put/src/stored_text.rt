//! Where the point of a text was stored, with its series.
ghost use Rattle.std.specs.Prelude.{◌≡◌};
ghost use Rattle.point_put.specs.StoredTexts.{MayBeKept, stored_at};

use cell_model::answers::Stored;
use cell_model::row::Row;
use cell_model::rows::Rows;
use uid_table::known_series::KnownSeries;
use uid_table::uids::Uids;

/// Where the point of a text was stored. Its row needn't be copied, since the answer holds the series, where that is known by
/// its text. The series goes back by [`StoredText::keep`]; else it is forgotten, and found anew by the next text.
#[derive(Drop)]
pub enum StoredText {
    /// The series was known.
    Known { series: Box<KnownSeries> },
    /// It wasn't.
    New { stored: Stored },
}

impl StoredText {
    /// The point row.
    #[inline]
    pub fn row(&self) -> &Row
        ensures { result.now ≡ (stored_at self.now).row }
    {
        match self {
            StoredText::Known { series } => &series.placed.row,
            StoredText::New { stored } => &stored.row,
        }
    }

    /// The second at which the row's hour begins.
    #[inline]
    pub fn base(&self) -> u32
        ensures { result ≡ (stored_at self.now).base }
    {
        match self {
            StoredText::Known { series } => series.placed.base,
            StoredText::New { stored } => stored.base,
        }
    }

    /// Gives the series back, so that the next put of its text is as short.
    #[inline]
    pub fn keep<R: Rows + Drop>(self, names: &mut Uids<R>)
        requires { MayBeKept (R.seen names.old.rows) self }
        ensures { names.new ≡ names.old }
    {
        match self {
            StoredText::Known { series } => names.keep_series(series),
            StoredText::New { stored: _ } => {}
        }
    }
}
