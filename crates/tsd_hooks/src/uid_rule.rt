//! The rule for new names: which of them may be given an id.
ghost use Rattle.std.specs.Prelude.{◌≡◌};
ghost use Rattle.tsd_hooks.specs.AllowedNames.{allowed, AnswersBy};

use crate::name_patterns::Patterns;
use tsd_base::kinds::Kind;
use tsd_base::names::Name;

/// A function that answers whether a new name of a kind is allowed.
pub type NameTest = Box<dyn Fn(Kind, &Name) -> bool + Send + Sync>;

/// A function that answers whether a new name is allowed, kept beside the patterns by which it answers.
///
/// That it may be called on every kind and name, and answers by the patterns, is true of every rule.
#[derive(Drop)]
pub struct UidRule {
    pub patterns: Patterns,
    test: NameTest,
    ghost callable: { NameTest.IsAlwaysCallable test },
    ghost answers: { AnswersBy patterns (NameTest.post test) },
}

impl UidRule {
    /// Keeps a function beside the patterns by which it answers.
    pub fn keep(patterns: Patterns, test: NameTest) -> UidRule
        requires callable { NameTest.IsAlwaysCallable test }
        requires answers { AnswersBy patterns (NameTest.post test) }
        ensures { result.patterns ≡ patterns }
    {
        UidRule { patterns, test }
    }

    /// Whether a new name of the kind is allowed, as the kept patterns say.
    pub fn allows(&self, kind: Kind, name: &Name) -> bool
        ensures { result ≡ allowed self.now.patterns kind name.now }
    {
        (self.test)(kind, name)
    }
}
