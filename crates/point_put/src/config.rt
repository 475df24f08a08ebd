//! Which names are given ids, and how points are stored.
ghost use Rattle.std.specs.Prelude.{◌≡◌, true, false};
ghost use Rattle.point_put.specs.Configs.{makes};

use tsd_base::kinds::Kind;

/// For each kind, whether a name of it that has no id is given one when a point is put; and how a point is stored.
#[derive(Clone, Copy, Debug, PartialEq, Eq)]
pub struct Config {
    pub auto_metric: bool,
    pub auto_tag_key: bool,
    pub auto_tag_value: bool,
    /// Whether a point is appended to the column of its row. Else it gets a cell of its own.
    pub appends: bool,
}

impl Config {
    /// Tag keys and tag values are given ids, metrics aren't, and each point gets a cell of its own.
    pub fn usual() -> Config
        ensures metric { result.auto_metric ≡ false }
        ensures tag_key { result.auto_tag_key ≡ true }
        ensures tag_value { result.auto_tag_value ≡ true }
        ensures appends { result.appends ≡ false }
    {
        Config {
            auto_metric: false,
            auto_tag_key: true,
            auto_tag_value: true,
            appends: false,
        }
    }

    /// Whether names of a kind are given ids.
    pub fn makes(&self, kind: Kind) -> bool
        ensures { result ≡ makes self.now kind }
    {
        match kind {
            Kind::Metric => self.auto_metric,
            Kind::TagKey => self.auto_tag_key,
            Kind::TagValue => self.auto_tag_value,
        }
    }
}
