// A store's history with all that follows from it.
ghost use Rattle.std.specs.Prelude.{◌≡◌, ◌≤◌, [], true};
ghost use Rattle.sparse_index.specs.Lists.{list_at};
ghost use Rattle.ss_base.specs.declared.name.Name.{Name as Hook};
ghost use Rattle.ss_base.specs.Profile.{numbers_of};
ghost use Rattle.history.specs.StandingList.{standing};
ghost use Rattle.history.specs.Legal.{is_allowed, is_legal};
ghost use Rattle.legal_history.specs.Recorded.{is_end};
ghost use Rattle.store_core.specs.View.{author_after, past_of, rules_of, recorded_of, made, Adds};
ghost use Rattle.store_core.specs.Answers.{AddAnswer};

use crate::PointFault;
use crate::journal::Journal;
use history::{Entry, Limits, Logged, Point, Rules};
use sparse_index::Index;
use ss_base::Profile;
use std::alloc::Global;
use std::marker::Model;

/// A store's history: it holds the entries of the journal, which are legal for its profile and limits, with at most `L`
/// manifests at a hook and `M` champions of a segment. Each call adds the one entry that is allowed there, and answers
/// what that entry says. Contracts see the profile, the limits and the entries.
#[derive(Drop)]
pub struct State<const L: usize, const M: usize> {
    profile: Profile,
    journal: Journal<L>,
}

impl<const L: usize, const M: usize> Model for State<L, M> {
    ghost use Rattle.store_core.specs.View.{StateView, IsStateOf};

    ghost Value = { StateView };

    ghost view = { λ s. record { profile = s.profile; limits = s.journal.rules.limits; entries = s.journal.entries } };

    ghost invariant = { λ s. IsStateOf L M s.profile s.journal };
}

impl<const L: usize, const M: usize> Logged for State<L, M> {
    ghost use Rattle.std.specs.Prelude.{[], ◌∷◌};
    ghost use Rattle.ss_base.specs.Profile.{profile_code};

    ghost entries = { λ state. state.entries };

    ghost base = { λ state. profile_code state.profile ∷ state.limits.entries ∷ state.limits.weight ∷ [] };
}

impl<const L: usize, const M: usize> State<L, M> {
    // No entries.
    pub(crate) fn empty(alloc: Global, profile: Profile, limits: Limits) -> State<L, M>
        requires standings { (1 ≤ L) × (L ≤ 255) }
        requires champions { (1 ≤ M) × (M ≤ 255) }
        ensures { result ≡ record { profile = profile; limits = limits; entries = [] } }
    {
        let rules = Rules {
            bits: profile.numbers().bits,
            standings: L as u32,
            champions: M as u32,
            limits,
        };
        State {
            profile,
            journal: Journal::new(alloc, rules),
        }
    }

    /// The entries, the oldest first. They are legal.
    pub fn entries(&self) -> &[Entry]
        ensures entries { result.now ≡ self.now.entries }
        ensures legal { is_legal (rules_of L M self.now) (past_of self.now) ≡ true }
    {
        self.journal.history().entries()
    }

    /// The store's profile.
    pub fn profile(&self) -> Profile
        ensures { result ≡ self.now.profile }
    {
        self.profile
    }

    /// How many first bits of a hook are zero.
    pub fn bits(&self) -> u32
        ensures { result ≡ (numbers_of self.now.profile).bits }
    {
        self.journal.history().rules().bits
    }

    /// The author that comes next: one above the greatest of the entries, or 0. None where the greatest is 2^32 - 1.
    pub fn next_author(&self) -> Option<u32>
        ensures { result ≡ author_after (past_of self.now) }
    {
        self.journal.next_author()
    }

    /// The index of hooks: at every hook it has what stands there by the entries.
    pub fn index(&self) -> &Index<L>
        ensures { (hook : Hook) → list_at result.now hook ≡ standing L hook (past_of self.now) }
    {
        self.journal.index()
    }

    // The entries with all that is kept beside them.
    pub(crate) fn journal(&self) -> &Journal<L>
        ensures journal { result.now ≡ recorded_of L M self.now }
        ensures legal { is_legal (rules_of L M self.now) (past_of self.now) ≡ true }
        ensures champions { (1 ≤ M) × (M ≤ 255) }
    {
        let _entries = self.journal.history().entries();
        &self.journal
    }

    // Adds the entry of an author, which is allowed. Full: with it the limits would be broken. After an Err all is as
    // before.
    pub(crate) fn add(&mut self, author: u32, point: Point) -> Result<(), PointFault>
        requires { is_allowed (rules_of L M self.old) (past_of self.old) author point ≡ true }
        ensures { AddAnswer self.old self.new (made author point) result }
    {
        let entry = Entry { author, point };
        if !self.journal.fits(&entry) {
            return Err(PointFault::Full);
        }
        match self.journal.add(entry) {
            Ok(()) => Ok(()),
            Err(_) => Err(PointFault::Memory),
        }
    }

    // Adds the entry that ends a session or a reading, which is allowed. There is always room for it.
    pub(crate) fn add_end(&mut self, author: u32, point: Point)
        requires allowed { is_allowed (rules_of L M self.old) (past_of self.old) author point ≡ true }
        requires ends { is_end point ≡ true }
        ensures { Adds self.old self.new (made author point) }
    {
        let _entries = self.journal.history().entries();
        match self.journal.add(Entry { author, point }) {
            Ok(()) => {}
            Err(_) => {}
        }
    }
}
