//! Which new names an operator allows.
ghost use Rattle.std.specs.Prelude.{◌≡◌, None, IfOk};
ghost use Rattle.tsd_hooks.specs.AllowedNames.{allowed, begins};

use short_bytes::short::Bytes;
use std::alloc::{AllocError, Global};
use tsd_base::kinds::Kind;
use tsd_base::names::Name;

/// A pattern for the names of each kind. A name is allowed where its kind has no pattern or the pattern is how the name begins.
#[derive(Drop)]
pub struct Patterns {
    pub metric: Option<Bytes>,
    pub tag_key: Option<Bytes>,
    pub tag_value: Option<Bytes>,
}

impl Patterns {
    /// No pattern, by which each name of each kind is allowed.
    pub fn none() -> Patterns
        ensures metric { result.metric ≡ None }
        ensures tag_key { result.tag_key ≡ None }
        ensures tag_value { result.tag_value ≡ None }
    {
        Patterns {
            metric: None,
            tag_key: None,
            tag_value: None,
        }
    }

    /// The same patterns once more. It fails only for want of memory.
    pub fn again(&self, alloc: Global) -> Result<Patterns, AllocError>
        ensures { IfOk result (λ patterns. patterns ≡ self.now) }
    {
        Ok(Patterns {
            metric: pattern_again(alloc, &self.metric)?,
            tag_key: pattern_again(alloc, &self.tag_key)?,
            tag_value: pattern_again(alloc, &self.tag_value)?,
        })
    }

    /// Whether a name of the kind is allowed.
    pub fn allow(&self, kind: Kind, name: &Name) -> bool
        ensures { result ≡ allowed self.now kind name.now }
    {
        let pattern = match kind {
            Kind::Metric => &self.metric,
            Kind::TagKey => &self.tag_key,
            Kind::TagValue => &self.tag_value,
        };
        begins(name.bytes(), pattern)
    }
}

fn pattern_again(alloc: Global, pattern: &Option<Bytes>) -> Result<Option<Bytes>, AllocError>
    ensures { IfOk result (λ again. again ≡ pattern.now) }
{
    match pattern {
        None => Ok(None),
        Some(bytes) => Ok(Some(bytes.again(alloc)?)),
    }
}

/// Whether there is no pattern, or the bytes begin with it.
fn begins(bytes: &[u8], pattern: &Option<Bytes>) -> bool
    ensures { result ≡ begins pattern.now bytes.now }
{
    match pattern {
        None => true,
        Some(pattern) => bytes.starts_with(pattern.list()),
    }
}
