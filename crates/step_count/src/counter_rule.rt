//! How a caller names a store and an entry, and the rule of the counter with the steps that keep it.

use crate::view::{Named, View};
use atomic_table::{Join, Play, Seat, Split, Table, TableRule};
use std::alloc::Global;
use std::marker::{Brand, PhantomData};

/// By it a caller names the store with which the history begins. It has no method: contracts alone speak of it.
pub trait Base {
    ghost use Rattle.cell_model.specs.Store.{Store};

    ghost store: { Store };
}

impl Base for Brand {
    ghost use Rattle.row_key.specs.Made.{three};
    ghost use Rattle.cell_model.specs.Store.{no_cells};

    ghost store = { no_cells three };
}

/// By it a caller names the entry that it adds. It has no method: contracts alone speak of it.
pub trait Entry {
    ghost use Rattle.cell_model.specs.declared.events.Entry.{Entry};

    ghost entry: { Entry };
}

impl Entry for Brand {
    ghost use Rattle.step_count.specs.CounterRule.{opening};

    ghost entry = { opening 0 };
}

/// The number of the licence of openings: it is behind those of all regions that a store can have.
pub const OPENINGS: u32 = 25;

/// By it a call names a region.
pub(crate) trait Chosen {
    ghost use Rattle.std.specs.Prelude.{ℕ};

    ghost region: { ℕ };
}

impl Chosen for Brand {
    ghost region = { 0 };
}

/// The rule of a table that only names a store: it rules nothing.
pub(crate) struct NoRule;

impl TableRule<(), Option<Named>, ()> for NoRule {
    ghost use Rattle.std.specs.Prelude.{None};

    ghost holds = { λ _ _. Unit {0} };

    ghost first = { λ _. None };
}

/// The step that names the store: the number that is stored is how many regions it has.
pub(crate) struct Names<B: Base> {
    of: PhantomData<B>,
}

impl<B: Base> Play<(), Option<Named>> for Names<B> {
    ghost use Rattle.std.specs.Prelude.{◌≡◌, ◌-◌, Some};
    ghost use Rattle.row_key.specs.declared.regions.TheConstants.{NAME_REGIONS};
    ghost use Rattle.step_count.specs.FirstViews.{named};

    ghost then = { λ st m n w. w.0 ≡ Some (named B.store (n - NAME_REGIONS)) };
}

/// The seat that was told the store. A counter is made beside it.
pub(crate) type Origin = Seat<(), Option<Named>>;

/// The rule of the counter.
pub(crate) struct CounterRule;

impl TableRule<(), View, Origin> for CounterRule {
    ghost use Rattle.step_count.specs.CounterRule.{Kept};
    ghost use Rattle.step_count.specs.FirstViews.{name_of, first_view};

    ghost holds = { λ origin. Kept (name_of origin) };

    ghost first = { first_view };
}

/// The history's length is learnt.
pub(crate) struct Learn;

impl Play<(), View> for Learn {
    ghost use Rattle.step_count.specs.ViewSteps.{Learns};

    ghost then = { Learns };
}

/// The entry that `E` names is added, or the length is learnt.
pub(crate) struct Add<E: Entry> {
    of: PhantomData<E>,
}

impl<E: Entry> Play<(), View> for Add<E> {
    ghost use Rattle.step_count.specs.ViewSteps.{Adds};

    ghost then = { Adds E.entry };
}

/// A caller opens, by the licence of openings, or the length is learnt.
pub(crate) struct Open;

impl Play<(), View> for Open {
    ghost use Rattle.step_count.specs.ViewSteps.{Opens};

    ghost then = { Opens };
}

/// What was seen is copied.
pub(crate) struct Copied;

impl Split<View> for Copied {
    ghost use Rattle.step_count.specs.ViewSteps.{noted};

    ghost left = { λ v. v };

    ghost right = { noted };
}

/// A region's licence leaves.
pub(crate) struct Leaves<N: Chosen> {
    of: PhantomData<N>,
}

impl<N: Chosen> Split<View> for Leaves<N> {
    ghost use Rattle.step_count.specs.ViewSteps.{without_licence, licence_alone};

    ghost left = { without_licence N.region };

    ghost right = { licence_alone N.region };
}

/// The callers leave, with what was seen.
pub(crate) struct Departs;

impl Split<View> for Departs {
    ghost use Rattle.step_count.specs.ViewSteps.{without_callers, callers_alone};

    ghost left = { without_callers };

    ghost right = { callers_alone };
}

/// What two seats know comes together in the first.
pub(crate) struct Both;

impl Join<View> for Both {
    ghost use Rattle.step_count.specs.ViewSteps.{met, blank};

    ghost both = { met };

    ghost spent = { blank };
}

/// How many words the counter has.
pub(crate) const WORDS: usize = 32;

/// Which of them counts. The others are never written: they keep all else off its cache line and off the one that is fetched with it, so that
/// who reads something else doesn't wait for those who count. Seats are split and joined at the first word.
pub(crate) const COUNT: usize = 16;

/// The words with their seats.
pub(crate) type Counter = Table<(), View, Origin, CounterRule, Global>;

/// What each token has of the counter.
pub(crate) type TokenSeat = Seat<(), View>;
