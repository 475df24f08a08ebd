//! The counter of a store's entries, and the tokens of those who share it.
ghost use Rattle.std.specs.Prelude.{◌≡◌, ℕ, ◌+◌, ◌-◌, ◌<◌, ◌≤◌, [], Some, IfOk, OnErr, All, map};
ghost use Rattle.std.specs.Arc.{arc_value};
ghost use Rattle.row_key.specs.declared.regions.TheConstants.{NAME_REGIONS, MOST_DATA_REGIONS};
ghost use Rattle.step_count.specs.declared.counter_rule.TheConstants.{OPENINGS, WORDS};
ghost use Rattle.cell_model.specs.Sound.{IsBase};
ghost use Rattle.step_count.specs.FirstViews.{named, opener, unused_licences};
ghost use Rattle.step_count.specs.ViewSteps.{HasLicence, Lives, MayAdd, added, callers_alone, learned, licence_alone, met, noted, opened, without_callers, without_licence};

use crate::counter_rule::{
    Add, Base, Both, COUNT, Chosen, Copied, Counter, Departs, Entry, Learn, Leaves, Names, NoRule,
    Open, TokenSeat, WORDS,
};
use crate::view::Named;
use atomic_table::Table;
use std::alloc::{AllocError, Global};
use std::marker::Brand;
use std::sync::{Arc, Wait};

/// The counter, by which callers are opened. Its word is the length of the store's history, and stays where it is at 2^64 - 1.
///
/// It has the licence of openings, so it has all callers that opened.
#[derive(Drop)]
pub struct Steps {
    opener: Pass,
}

/// A caller's token: with it the caller learns the history's length and makes its entries.
#[derive(Drop)]
pub struct Pass {
    counter: Arc<Counter, Global>,
    seat: TokenSeat,
    // The place of the last entry that it added, or that a licence's holder before it did: the word, where nobody has added one since.
    last: u64,
    ghost words: { (arc_value counter).shared.table_id.words ≡ WORDS },
    ghost seated: { seat.table_id ≡ (arc_value counter).shared.table_id },
    ghost empty: { seat.me.1 ≡ [] },
}

/// A region's licence: the pass that takes it makes the entries that look at the region.
#[derive(Drop)]
pub struct Licence {
    seat: TokenSeat,
    // The place of the last entry that whoever had it added: the word, where all entries are of its region.
    last: u64,
    ghost empty: { seat.me.1 ≡ [] },
}

/// What a pass had seen, for another.
#[derive(Drop)]
pub struct Note {
    seat: TokenSeat,
    ghost empty: { seat.me.1 ≡ [] },
}

impl Steps {
    ghost use Rattle.step_count.specs.Tokens.{counter_of_steps, counter_of_pass, counter_of_licence, view_of_steps, view_of_pass, view_of_licence};

    /// A counter over the store that `B` names, and the licences of its regions, in order. It fails only for want of memory.
    pub fn make<B: Base>(alloc: Global, regions: u32) -> Result<(Steps, Vec<Licence>), AllocError>
        requires base { IsBase B.store }
        requires least { NAME_REGIONS < regions }
        requires most { regions ≤ NAME_REGIONS + MOST_DATA_REGIONS }
        ensures counter { IfOk result (λ made. All (λ licence. counter_of_licence licence ≡ counter_of_steps made.0) made.1.items) }
        ensures opener { IfOk result (λ made. view_of_steps made.0 ≡ opener (Some (named B.store (regions - NAME_REGIONS))) regions 0) }
        ensures views { IfOk result (λ made. map view_of_licence made.1.items ≡ unused_licences (Some (named B.store (regions - NAME_REGIONS))) 0 regions) }
    {
        let mut opener = Steps::begin::<B>(alloc, regions)?;
        let licences = opener.give_all(alloc, regions)?;
        Ok((Steps { opener }, licences))
    }

    // The first seat of the counter, which has every licence.
    fn begin<B: Base>(alloc: Global, regions: u32) -> Result<Pass, AllocError>
        requires base { IsBase B.store }
        requires least { NAME_REGIONS < regions }
        ensures { IfOk result (λ pass. view_of_pass pass ≡ opener (Some (named B.store (regions - NAME_REGIONS))) 0 regions) }
    {
        let (naming, mut origin) = Table::<(), Option<Named>, (), NoRule, Global>::of_words(
            alloc,
            &[0],
            &(),
        )?;
        naming
            .shared
            .store::<Names<B>>(&mut origin, 0, u64::from(regions));
        let (counter, seat) = Counter::of_words(alloc, &[0; WORDS], &origin)?;
        let counter = Arc::new(alloc, counter)?;
        Ok(Pass {
            counter,
            seat,
            last: 0,
        })
    }

    /// The licence of openings, with all that were made: no caller opens any more.
    pub fn close(self) -> Licence
        ensures counter { counter_of_licence result ≡ counter_of_steps self }
        ensures view { view_of_licence result ≡ view_of_steps self }
    {
        let Steps { opener } = self;
        let Pass {
            counter: _,
            seat,
            last,
        } = opener;
        Licence { seat, last }
    }
}

impl Pass {
    ghost use Rattle.step_count.specs.Tokens.{counter_of_steps, counter_of_pass, counter_of_licence, counter_of_note, view_of_steps, view_of_pass, view_of_licence, view_of_note};

    /// A new caller. One entry is made, its opening, whose place is the caller's number, and nobody else's. It fails only for want of
    /// memory, and then nobody opened. It doesn't return where the word stays.
    pub fn open_on<T: Wait>(rt: &T, steps: &mut Steps) -> Result<Pass, AllocError>
        requires { HasLicence OPENINGS (view_of_steps steps.old) }
        ensures steps_counter { counter_of_steps steps.new ≡ counter_of_steps steps.old }
        ensures counter { IfOk result (λ pass. counter_of_pass pass ≡ counter_of_steps steps.old) }
        ensures opened { IfOk result (λ pass. (number : ℕ) × (view_of_pass pass ≡ callers_alone (opened (view_of_steps steps.old) number))
            × (view_of_steps steps.new ≡ without_callers (opened (view_of_steps steps.old) number))) }
        ensures live { IfOk result (λ pass. Lives (view_of_pass pass)) }
        ensures err { OnErr result (view_of_steps steps.new ≡ view_of_steps steps.old) }
    {
        let counter = Arc::try_clone(&steps.opener.counter)?;
        steps.opener.open(rt);
        let seat = steps.opener.depart();
        Ok(Pass {
            counter,
            seat,
            last: 0,
        })
    }

    // The opening entry of a caller.
    fn open<T: Wait>(&mut self, rt: &T)
        requires { HasLicence OPENINGS (view_of_pass self.old) }
        ensures counter { counter_of_pass self.new ≡ counter_of_pass self.old }
        ensures view { (number : ℕ) × (view_of_pass self.new ≡ opened (view_of_pass self.old) number) }
        ensures live { Lives (view_of_pass self.new) }
    {
        let mut seen = self.learn();
        for _ in rt.forever() {
            if seen == u64::MAX {
                seen = self.learn();
            } else {
                let found = self
                    .counter
                    .shared
                    .compare_exchange::<Open>(&mut self.seat, COUNT, seen, seen + 1);
                if found == seen {
                    return;
                }
                seen = found;
            }
        }
        unreachable!()
    }

    // The callers of this seat, for a seat of their own.
    fn depart(&mut self) -> TokenSeat
        ensures counter { counter_of_pass self.new ≡ counter_of_pass self.old }
        ensures view { view_of_pass self.new ≡ without_callers (view_of_pass self.old) }
        ensures seat_counter { result.table_id ≡ counter_of_pass self.old }
        ensures seat_view { result.me ≡ (callers_alone (view_of_pass self.old), []) }
    {
        self.counter.shared.split_seat::<Departs>(&mut self.seat)
    }

    /// The history's length at this moment. What the pass has then learnt tells too that no two of the callers that it is are one.
    pub fn learn(&mut self) -> u64
        ensures counter { counter_of_pass self.new ≡ counter_of_pass self.old }
        ensures view { view_of_pass self.new ≡ learned (view_of_pass self.old) result }
        ensures up { (view_of_pass self.old).length ≤ result }
        ensures live { Lives (view_of_pass self.new) }
    {
        self.counter.shared.load::<Learn>(&mut self.seat, COUNT)
    }

    /// What this pass has seen, for another.
    pub fn note(&mut self) -> Note
        ensures counter { counter_of_pass self.new ≡ counter_of_pass self.old }
        ensures view { view_of_pass self.new ≡ view_of_pass self.old }
        ensures note_counter { counter_of_note result ≡ counter_of_pass self.old }
        ensures note_view { view_of_note result ≡ noted (view_of_pass self.old) }
    {
        let seat = self.counter.shared.split_seat::<Copied>(&mut self.seat);
        Note { seat }
    }

    /// Sees all that another had seen.
    pub fn meet(&mut self, note: Note)
        requires { counter_of_note note ≡ counter_of_pass self.old }
        ensures counter { counter_of_pass self.new ≡ counter_of_pass self.old }
        ensures view { view_of_pass self.new ≡ met (view_of_pass self.old) (view_of_note note) }
    {
        let Note { seat } = note;
        self.counter.shared.join_seat::<Both>(&mut self.seat, seat);
    }

    /// Takes another's place: the pass has seen all that either had, and has the other's numbers too, of which none was its own. It goes on
    /// under its own number.
    pub fn absorb(&mut self, other: Pass)
        requires { counter_of_pass other ≡ counter_of_pass self.old }
        ensures counter { counter_of_pass self.new ≡ counter_of_pass self.old }
        ensures view { view_of_pass self.new ≡ met (view_of_pass self.old) (view_of_pass other) }
    {
        let Pass {
            counter: _,
            seat,
            last: _,
        } = other;
        self.counter.shared.join_seat::<Both>(&mut self.seat, seat);
    }

    /// Takes a region's licence, and sees all that those who had it had seen.
    pub fn take(&mut self, licence: Licence)
        requires { counter_of_licence licence ≡ counter_of_pass self.old }
        ensures counter { counter_of_pass self.new ≡ counter_of_pass self.old }
        ensures view { view_of_pass self.new ≡ met (view_of_pass self.old) (view_of_licence licence) }
    {
        let Licence { seat, last } = licence;
        self.last = self.last.max(last);
        self.counter.shared.join_seat::<Both>(&mut self.seat, seat);
    }

    /// Gives a region's licence away, with what this pass has seen.
    pub fn give(&mut self, region: u32) -> Licence
        requires { HasLicence region (view_of_pass self.old) }
        ensures counter { counter_of_pass self.new ≡ counter_of_pass self.old }
        ensures view { view_of_pass self.new ≡ without_licence region (view_of_pass self.old) }
        ensures licence_counter { counter_of_licence result ≡ counter_of_pass self.old }
        ensures licence_view { view_of_licence result ≡ licence_alone region (view_of_pass self.old) }
    {
        self.give_chosen::<Brand>(region)
    }

    // Gives the licence of the region that `N` names.
    fn give_chosen<N: Chosen>(&mut self, region: u32) -> Licence
        requires number { N.region ≡ region }
        requires held { HasLicence N.region (view_of_pass self.old) }
        ensures counter { counter_of_pass self.new ≡ counter_of_pass self.old }
        ensures view { view_of_pass self.new ≡ without_licence N.region (view_of_pass self.old) }
        ensures licence_counter { counter_of_licence result ≡ counter_of_pass self.old }
        ensures licence_view { view_of_licence result ≡ licence_alone N.region (view_of_pass self.old) }
    {
        let _region = region;
        let seat = self.counter.shared.split_seat::<Leaves<N>>(&mut self.seat);
        Licence {
            seat,
            last: self.last,
        }
    }

    // The licences of regions of the first seat, in order. It keeps that of openings.
    fn give_all(&mut self, alloc: Global, regions: u32) -> Result<Vec<Licence>, AllocError>
        requires view { view_of_pass self.old ≡ opener (view_of_pass self.old).named 0 regions }
        requires most { regions ≤ OPENINGS }
        ensures self_counter { counter_of_pass self.new ≡ counter_of_pass self.old }
        ensures left { IfOk result (λ licences. view_of_pass self.new ≡ opener (view_of_pass self.old).named regions 0) }
        ensures counter { IfOk result (λ licences. All (λ licence. counter_of_licence licence ≡ counter_of_pass self.old) licences.items) }
        ensures views { IfOk result (λ licences. map view_of_licence licences.items ≡ unused_licences (view_of_pass self.old).named 0 regions) }
    {
        let mut licences = Vec::new(alloc);
        for number in 0..regions {
            licences.push(self.give(number))?;
        }
        Ok(licences)
    }

    /// Adds the entry that `E` names, and answers its place. The pass has the licence of the entry's region. It doesn't return where the
    /// word stays.
    pub fn advance<E: Entry, T: Wait>(&mut self, rt: &T) -> u64
        requires { MayAdd (view_of_pass self.old) E.entry }
        ensures counter { counter_of_pass self.new ≡ counter_of_pass self.old }
        ensures view { view_of_pass self.new ≡ added (view_of_pass self.old) result E.entry }
        ensures up { (view_of_pass self.old).length + 1 ≤ result }
        ensures live { Lives (view_of_pass self.new) }
    {
        let mut seen = self.last;
        for _ in rt.forever() {
            if seen == u64::MAX {
                seen = self.learn();
            } else {
                let found = self
                    .counter
                    .shared
                    .compare_exchange::<Add<E>>(&mut self.seat, COUNT, seen, seen + 1);
                if found == seen {
                    self.last = seen + 1;
                    return seen + 1;
                }
                seen = found;
            }
        }
        unreachable!()
    }
}
