// A state from the entries of a journal.
ghost use Rattle.std.specs.Prelude.{◌≡◌, ◌≤◌, ◌^◌, IfNone, IfSome, IfOk};
ghost use Rattle.history.specs.Sessions.{hooks_chosen, is_unfinished, is_reading};
ghost use Rattle.history.specs.Legal.{is_allowed};
ghost use Rattle.legal_history.specs.Recorded.{past_of as past_recorded};
ghost use Rattle.store_core.specs.View.{past_of, rules_of};
ghost use Rattle.store_core.specs.Replay.{NoneIs, IsLeast, TakeAnswer, OpenAnswer};

use crate::allowed::is_allowed;
use crate::{OpenFault, PointFault, State};
use history::{Entry, Limits, Point};
use legal_history::LegalHistory;
use ss_base::{Memory, Name, Profile};
use std::alloc::Global;

#[tactic(auto, unfolding(history::specs::Sessions::hooks_chosen))]
fn hooks_chosen(point: &Point) -> &[Name]
    ensures { result.now ≡ hooks_chosen point.now }
{
    match point {
        Point::Choose { hooks, .. } => hooks.as_slice(),
        Point::Begin { .. } => &[],
        Point::Commit { .. } => &[],
        Point::Finish { .. } => &[],
        Point::Abort { .. } => &[],
        Point::Delete { .. } => &[],
        Point::Look { .. } => &[],
        Point::Done { .. } => &[],
        Point::Reclaim { .. } => &[],
        Point::Stat { .. } => &[],
    }
}

// The least session that is unfinished.
fn least_unfinished(history: &LegalHistory) -> Option<u32>
    ensures none { IfNone result (NoneIs (λ session. is_unfinished session (past_recorded history.now))) }
    ensures some { IfSome result (IsLeast (λ session. is_unfinished session (past_recorded history.now))) }
{
    let _entries = history.entries();
    for session in 0..history.session_count() {
        if history.is_unfinished(session) {
            return Some(session);
        }
    }
    None
}

// The least reading that is unfinished.
fn least_reading(history: &LegalHistory) -> Option<u32>
    ensures none { IfNone result (NoneIs (λ reader. is_reading reader (past_recorded history.now))) }
    ensures some { IfSome result (IsLeast (λ reader. is_reading reader (past_recorded history.now))) }
{
    let _entries = history.entries();
    for reader in 0..history.reading_count() {
        if history.is_reading(reader) {
            return Some(reader);
        }
    }
    None
}

impl<const L: usize, const M: usize> State<L, M> {
    // Whether the entry is allowed next.
    fn allows(&self, alloc: Global, entry: &Entry) -> Result<bool, Memory>
        ensures { IfOk result (λ allowed. allowed ≡ is_allowed (rules_of L M self.now) (past_of self.now) entry.now.author entry.now.point) }
    {
        let found = self.champions(alloc, hooks_chosen(&entry.point))?;
        let journal = self.journal();
        let allowed = is_allowed(journal, alloc, entry.author, &entry.point, found.as_slice())?;
        Ok(allowed)
    }

    // Adds the entry if it may follow, and answers whether it did.
    fn take(&mut self, alloc: Global, entry: Entry) -> Result<bool, Memory>
        ensures { TakeAnswer L M self.old self.new entry result }
    {
        let allowed = self.allows(alloc, &entry)?;
        if !allowed {
            return Ok(false);
        }
        let Entry { author, point } = entry;
        match self.add(author, point) {
            Ok(()) => Ok(true),
            Err(PointFault::Full) => Ok(false),
            Err(PointFault::Memory) => Err(Memory),
        }
    }

    /// The state of a journal with this profile and these entries, the oldest first. `limits` are at most 2^20 entries
    /// and a weight of 2^24. `Illegal`: the number of the first entry that may not follow those before it. Then
    /// `UnfinishedSession`, of the least session that neither finished nor was aborted; then `UnfinishedReading`, of the
    /// least reading that is not done.
    pub fn replay(
        alloc: Global,
        profile: Profile,
        limits: Limits,
        entries: Vec<Entry>,
    ) -> Result<State<L, M>, OpenFault>
        requires standings { (1 ≤ L) × (L ≤ 255) }
        requires champions { (1 ≤ M) × (M ≤ 255) }
        requires entries { limits.entries ≤ 2 ^ 20 }
        requires weight { limits.weight ≤ 2 ^ 24 }
        ensures { OpenAnswer L M (record { profile = profile; limits = limits; entries = entries.items }) result }
    {
        let mut state = State::empty(alloc, profile, limits);
        for entry in entries {
            let number = state.entries().len() as u32;
            match state.take(alloc, entry) {
                Ok(true) => {}
                Ok(false) => return Err(OpenFault::Illegal(number)),
                Err(_) => return Err(OpenFault::Memory),
            }
        }
        if let Some(session) = least_unfinished(state.journal().history()) {
            return Err(OpenFault::UnfinishedSession(session));
        }
        if let Some(reader) = least_reading(state.journal().history()) {
            return Err(OpenFault::UnfinishedReading(reader));
        }
        Ok(state)
    }
}
