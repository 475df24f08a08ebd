//! Filters with their patterns built.
ghost use Rattle.std.specs.Prelude.{◌≡◌, IfOk};
ghost use Rattle.tag_match.specs.Patterns.{passes};
ghost use Rattle.tag_match.specs.Building.{BuildSays};

use crate::built_filter::{BuiltFilter, build_filter};
use crate::judge::Judge;
use query_text::queries::Filter;
use std::alloc::{AllocError, AllocFailed, Global};
use std::marker::Model;
use tsd_base::tags::Tags;

/// Why filters aren't built.
#[derive(Clone, Copy, Debug, PartialEq, Eq)]
pub enum BuildFault {
    /// The engine answered a syntax error for the pattern of the filter at this place, and for that of none before it.
    Pattern { index: usize },
    /// There was no memory, or a built pattern would be above the engine's limit.
    OutOfMemory,
}

impl From<AllocError> for BuildFault {
    ghost use Rattle.std.specs.Prelude.{◌≡◌};
    ghost use Rattle.tag_match.specs.declared.built.BuildFault.TheVariants.{OutOfMemory};

    ghost from_gives = { λ _ fault. fault ≡ OutOfMemory };

    fn from(_error: AllocError) -> BuildFault {
        BuildFault::OutOfMemory
    }
}

impl<T: Drop> From<AllocFailed<T>> for BuildFault {
    ghost use Rattle.std.specs.Prelude.{◌≡◌};
    ghost use Rattle.tag_match.specs.declared.built.BuildFault.TheVariants.{OutOfMemory};

    ghost from_gives = { λ _ fault. fault ≡ OutOfMemory };

    fn from(_failed: AllocFailed<T>) -> BuildFault {
        BuildFault::OutOfMemory
    }
}

/// Filters with their patterns built, each once. Contracts see them as the filters.
#[derive(Drop)]
pub struct Built<'f> {
    list: Vec<BuiltFilter<'f>>,
}

impl<'f> Model for Built<'f> {
    ghost use Rattle.std.specs.Prelude.{List, map};
    ghost use Rattle.query_text.specs.declared.queries.Filter.{Filter};

    ghost Value = { List Filter };

    ghost view = { λ built. map (λ one. one.filter.now) built.list.items };
}

impl<'f> Built<'f> {
    /// These filters, with their patterns built.
    pub fn of(alloc: Global, filters: &'f [Filter]) -> Result<Built<'f>, BuildFault>
        ensures { BuildSays filters.now result }
    {
        let mut list = Vec::new(alloc);
        for filter in filters {
            let Some(one) = build_filter(alloc, filter)? else {
                return Err(BuildFault::Pattern { index: list.len() });
            };
            list.push(one)?;
        }
        Ok(Built { list })
    }

    /// What judges by each of the filters, in their order. The patterns are lent, and not built again. It fails only for want of memory.
    pub fn judges(&self, alloc: Global) -> Result<Vec<Judge<'_>>, AllocError>
        ensures { IfOk result (λ judges. judges.items ≡ self.now) }
    {
        let mut judges = Vec::new(alloc);
        for one in &self.list {
            judges.push(one.judge(alloc)?)?;
        }
        Ok(judges)
    }

    /// Whether a series with these tags passes each of the filters. It passes none whose key it hasn't. It fails only for want of memory.
    pub fn passes(&self, alloc: Global, tags: &Tags) -> Result<bool, AllocError>
        ensures { IfOk result (λ passes_each. passes_each ≡ passes self.now tags.now) }
    {
        for one in &self.list {
            let mut judge = one.judge(alloc)?;
            if !judge.passes_one(tags.pairs()) {
                return Ok(false);
            }
        }
        Ok(true)
    }
}
