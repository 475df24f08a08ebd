//! How many bytes the ids of each kind have.
ghost use Rattle.row_key.specs.IdWidths.{IsWidth};

use crate::ids::is_width;

/// How many bytes the ids of each kind have: 2, 3 or 4.
#[derive(Clone, Copy, Debug, PartialEq, Eq)]
pub struct Widths {
    pub metric: u8,
    pub tag_key: u8,
    pub tag_value: u8,
    pub ghost metric_fits: { IsWidth metric },
    pub ghost key_fits: { IsWidth tag_key },
    pub ghost value_fits: { IsWidth tag_value },
}

impl Widths {
    ghost use Rattle.row_key.specs.Made.{Has, Makes};

    /// Three bytes for each kind.
    pub fn three() -> Widths
        ensures { Has 3 3 3 result }
    {
        Widths {
            metric: 3,
            tag_key: 3,
            tag_value: 3,
        }
    }

    /// The widths of these numbers. There are none exactly where one isn't 2 to 4.
    pub fn make(metric: u8, tag_key: u8, tag_value: u8) -> Option<Widths>
        ensures { Makes metric tag_key tag_value result }
    {
        if !is_width(metric) || !is_width(tag_key) || !is_width(tag_value) {
            return None;
        }
        Some(Widths {
            metric,
            tag_key,
            tag_value,
        })
    }
}
