// A legal history with all that is kept beside it.
ghost use Rattle.std.specs.Prelude.{◌≡◌, ◌<◌, ◌≤◌, ◌^◌, [], ◌∷◌, ◌++◌, true, take, OnOk, OnErr, IfOk, IfSome, IsOk};
ghost use Rattle.sparse_index.specs.Lists.{list_at};
ghost use Rattle.ss_base.specs.declared.name.Name.{Name as Hook};
ghost use Rattle.history.specs.StandingList.{standing};
ghost use Rattle.history.specs.Need.{erasable};
ghost use Rattle.history.specs.TotalsOf.{totals};
ghost use Rattle.history.specs.Sessions.{commits_of};
ghost use Rattle.history.specs.Legal.{is_allowed, is_within, may_follow, reply_to_begin, reply_to_look};
ghost use Rattle.store_core.specs.View.{author_after, stream_kept};
ghost use Rattle.legal_history.specs.Recorded.{past_of, is_end};

use crate::Kept;
use crate::following::{ends_choice, follow, make_room};
use crate::keeping::all_kept_at;
use history::{Entry, Rules, Seen, Totals};
use history_totals::Tally;
use legal_history::LegalHistory;
use pins_counts::Counts;
use sparse_index::Index;
use ss_base::{ManifestId, Memory, Object, StreamName};
use std::alloc::Global;
use std::marker::Model;

/// A legal history with its index of hooks, its counts of uses and holds and its running totals. Contracts see the
/// rules and the entries alone.
#[derive(Drop)]
pub(crate) struct Journal<const L: usize> {
    history: LegalHistory,
    index: Index<L>,
    counts: Counts,
    tally: Tally,
}

impl<const L: usize> Model for Journal<L> {
    ghost use Rattle.legal_history.specs.Recorded.{Recorded, past_of};
    ghost use Rattle.store_core.specs.Journal.{AreInStep};

    ghost Value = { Recorded };

    ghost view = { λ j. j.history };

    ghost invariant = { λ j. AreInStep L (past_of j.history) j.index j.counts j.tally };
}

impl<const L: usize> Journal<L> {
    /// No entries. `L` is from 1 to 255.
    pub(crate) fn new(alloc: Global, rules: Rules) -> Journal<L>
        requires { (1 ≤ L) × (L ≤ 255) }
        ensures { result ≡ record { rules = rules; entries = [] } }
    {
        let history = LegalHistory::new(alloc, rules);
        history_counts::nothing_is_counted();
        let tally = Tally::new();
        Journal {
            history,
            index: history_index::empty_index(alloc),
            counts: Counts::new(alloc),
            tally,
        }
    }

    /// The history, of which all else can be asked.
    pub(crate) fn history(&self) -> &LegalHistory
        ensures { result.now ≡ self.now }
    {
        &self.history
    }

    /// The index of hooks: at every hook it has what stands there.
    pub(crate) fn index(&self) -> &Index<L>
        ensures { (hook : Hook) → list_at result.now hook ≡ standing L hook (past_of self.now) }
    {
        &self.index
    }

    /// Whether the limits are kept with this entry, which is allowed.
    pub(crate) fn fits(&self, entry: &Entry) -> bool
        requires { is_allowed self.now.rules (past_of self.now) entry.now.author entry.now.point ≡ true }
        ensures { result ≡ is_within self.now.rules.limits (entry.now ∷ past_of self.now) }
    {
        let rules = self.history.rules();
        self.tally.fits(&rules, self.history.entries(), entry)
    }

    /// The first 16 objects, at most, that can be erased.
    pub(crate) fn erasable(&self, alloc: Global) -> Result<Vec<Object>, Memory>
        ensures { IfOk result (λ objects. objects.items ≡ take 16 (erasable (past_of self.now))) }
    {
        let _entries = self.history.entries();
        history_counts::dead_is_erasable();
        self.counts.dead(alloc, 16)
    }

    /// The totals.
    #[tactic(auto, unfolding(history_totals::specs::TallyOf::tally_of))]
    pub(crate) fn totals(&self) -> Totals
        ensures { result ≡ totals (past_of self.now) }
    {
        self.tally.totals
    }

    /// One above the greatest author, or 0. None where the greatest is 2^32 - 1.
    #[tactic(auto, unfolding(history_totals::specs::TallyOf::tally_of))]
    pub(crate) fn next_author(&self) -> Option<u32>
        ensures { result ≡ author_after (past_of self.now) }
    {
        self.tally.next_author()
    }

    /// What a Begin under this name is answered: the next session, or none where the name is held.
    #[tactic(auto, unfolding(history::specs::Legal::reply_to_begin))]
    pub(crate) fn reply_to_begin(&self, name: &StreamName) -> Option<u32>
        ensures { result ≡ reply_to_begin name.now (past_of self.now) }
    {
        if self.history.is_held(name) {
            None
        } else {
            Some(self.history.session_count())
        }
    }

    /// What a Look under this name is answered: the next reader and the stream's session, or none.
    #[tactic(auto, unfolding(history::specs::Legal::reply_to_look))]
    pub(crate) fn reply_to_look(&self, name: &StreamName) -> Option<Seen>
        ensures { result ≡ reply_to_look name.now (past_of self.now) }
    {
        match self.history.retained(name) {
            Some(session) => Some(Seen {
                reader: self.history.reading_count(),
                session,
            }),
            None => None,
        }
    }

    /// What is kept of the manifests of the stream that is seen, in order; nothing where none is.
    pub(crate) fn manifests_seen(
        &self,
        alloc: Global,
        seen: Option<Seen>,
    ) -> Result<Vec<Kept>, Memory>
        ensures { IfOk result (λ found. IfSome seen (λ s. found.items ≡ stream_kept s.session (past_of self.now))) }
    {
        match seen {
            Some(seen) => {
                let numbers = self.history.commits(seen.session);
                let found = all_kept_at(alloc, self.history.entries(), numbers)?;
                Ok(found)
            }
            None => Ok(Vec::new(alloc)),
        }
    }

    /// The manifest of the session's next Commit.
    pub(crate) fn next_manifest(&self, session: u32) -> ManifestId
        ensures { result ≡ record { session = session; seq = commits_of session (past_of self.now) } }
    {
        let _entries = self.history.entries();
        let rules = self.history.rules();
        let _most = most_entries(&rules);
        ManifestId {
            session,
            seq: self.history.commits(session).len() as u32,
        }
    }

    /// Adds an entry that may follow. After want of memory all is as before; an entry that ends a session or a reading
    /// takes none.
    pub(crate) fn add(&mut self, entry: Entry) -> Result<(), Memory>
        requires { may_follow self.old.rules entry (past_of self.old) ≡ true }
        ensures ok { OnOk result (self.new ≡ record self.old { entries = self.old.entries ++ entry ∷ [] }) }
        ensures err { OnErr result (self.new ≡ self.old) }
        ensures ends { is_end entry.point ≡ true → IsOk result }
    {
        make_room(&mut self.index, &mut self.counts, &entry)?;
        let was_pending = ends_choice(&self.history, &entry.point);
        self.history.push(entry)?;
        let Some((entry, before)) = self.history.entries().split_last() else {
            return Ok(());
        };
        follow(
            &self.history,
            before,
            entry,
            was_pending,
            &mut self.index,
            &mut self.counts,
            &mut self.tally,
        );
        Ok(())
    }
}

// How many entries there may be.
fn most_entries(rules: &Rules) -> u32
    ensures most { result ≡ rules.now.limits.entries }
    ensures fits { result < 2 ^ 32 }
{
    rules.limits.entries
}
