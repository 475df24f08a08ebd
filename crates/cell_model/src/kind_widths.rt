//! How many bytes the ids of a kind have.
ghost use Rattle.std.specs.Prelude.{◌≡◌};
ghost use Rattle.cell_model.specs.KindWidths.{IsWidth, width_of};

use row_key::Widths;
use tsd_base::kinds::Kind;

/// How many bytes the ids of a kind have.
#[inline]
pub fn width_of(kind: Kind, widths: Widths) -> u8
    ensures width { result ≡ width_of widths kind }
    ensures fits { IsWidth result }
{
    match kind {
        Kind::Metric => widths.metric,
        Kind::TagKey => widths.tag_key,
        Kind::TagValue => widths.tag_value,
    }
}
