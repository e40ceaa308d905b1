// The calls of a session.
ghost use Rattle.std.specs.Prelude.{◌≡◌, ℕ, List, MatchResult};
ghost use Rattle.journal_entry.specs.declared.entry.Entry.{Entry};
ghost use Rattle.history_calls.specs.Tokens.{IdleView, OpenView, ChosenView};
ghost use Rattle.history_calls.specs.SessionSteps.{CanChoose, CanCommit, CanFinish, CanAbort, CanAbortChosen, HasBegun, HasNotBegun, HasChosen, HasNotChosen, HasCommitted, HasNotCommitted, HasFinished, HasAborted, HasAbortedChosen};

use depot::Written;
use ss_base::{Name, Profile, StreamName};
use std::alloc::Global;
use store_core::{BeginFault, Choice, PointFault, Stored};

/// The calls by which one caller adds a session to a history. A token says where the caller is: idle, in an open
/// session, or in one with a pending choice; each call takes one and gives one. Between two of the caller's calls others
/// may add entries, where the history is shared. Each call adds at most one entry, and answers as a state does at its
/// turn.
pub trait SessionCalls {
    type Idle;

    type Open;

    type Chosen;

    /// What others may add between two calls.
    ghost others: { List Entry → Type 0 };

    /// How many manifests stand at a hook, and how many champions a segment has, at most.
    ghost standings: { ℕ };

    ghost champions: { ℕ };

    /// What a token stands for: the caller, what it has seen of the history, its session, its choice.
    ghost of_idle: { Self → Self.Idle → IdleView };

    ghost of_open: { Self → Self.Open → OpenView };

    ghost of_chosen: { Self → Self.Chosen → ChosenView };

    /// Begins a session under a name.
    fn begin(
        &mut self,
        idle: Self::Idle,
        name: StreamName,
    ) -> Result<Self::Open, (Self::Idle, BeginFault)>
        ensures { MatchResult result
            (λ token. HasBegun others standings champions (of_idle self.old idle) name (of_open self.new token))
            (λ back. HasNotBegun others standings champions (of_idle self.old idle) name (of_idle self.new back.0) back.1) };

    /// The session's number.
    fn session(&self, token: &Self::Open) -> u32
        ensures { result ≡ (of_open self.now token.now).session };

    /// The store's profile.
    fn profile(&self, token: &Self::Open) -> Profile
        ensures { result ≡ (of_open self.now token.now).seen.profile };

    /// Chooses champions for the session's next segment, which has these hooks.
    fn choose(
        &mut self,
        alloc: Global,
        token: Self::Open,
        hooks: Vec<Name>,
    ) -> Result<Self::Chosen, (Self::Open, PointFault)>
        requires { CanChoose (of_open self.old token) hooks.items }
        ensures { MatchResult result
            (λ chosen. HasChosen others standings champions (of_open self.old token) hooks.items (of_chosen self.new chosen))
            (λ back. HasNotChosen others standings champions (of_open self.old token) hooks.items (of_open self.new back.0) back.1) };

    /// The choice: the manifest that the commit will have, and what is kept of the champions.
    fn choice<'t>(&self, chosen: &'t Self::Chosen) -> &'t Choice
        ensures { result.now ≡ (of_chosen self.now chosen.now).choice };

    /// Commits the segment that was chosen for, whose manifest was written.
    fn commit(
        &mut self,
        chosen: Self::Chosen,
        stored: Stored,
        written: Written,
    ) -> Result<Self::Open, (Self::Chosen, PointFault)>
        requires { CanCommit (of_chosen self.old chosen) stored written }
        ensures { MatchResult result
            (λ token. HasCommitted others standings champions (of_chosen self.old chosen) stored (of_open self.new token))
            (λ back. HasNotCommitted others standings champions (of_chosen self.old chosen) stored (of_chosen self.new back.0) back.1) };

    /// Finishes the session, which started this many containers.
    fn finish(&mut self, token: Self::Open, containers: u32) -> Self::Idle
        requires { CanFinish (of_open self.old token) containers }
        ensures { HasFinished others standings champions (of_open self.old token) containers (of_idle self.new result) };

    /// Gives the session up, which started this many containers and wrote this many manifests.
    fn abort(&mut self, token: Self::Open, containers: u32, texts: u32) -> Self::Idle
        requires { CanAbort (of_open self.old token) containers texts }
        ensures { HasAborted others standings champions (of_open self.old token) containers texts (of_idle self.new result) };

    /// The same, with a choice pending.
    fn abort_chosen(&mut self, chosen: Self::Chosen, containers: u32, texts: u32) -> Self::Idle
        requires { CanAbortChosen (of_chosen self.old chosen) containers texts }
        ensures { HasAbortedChosen others standings champions (of_chosen self.old chosen) containers texts (of_idle self.new result) };
}
