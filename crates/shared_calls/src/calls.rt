// The calls on a store that many callers share.
ghost use Rattle.std.specs.Prelude.{◌≡◌, ℕ, Ok, Err, MatchResult};
ghost use Rattle.atomic_table.specs.Seated.{TableId};
ghost use Rattle.journal_entry.specs.declared.entry.Point.TheVariants.{Finish, Abort, Done};
ghost use Rattle.store_core.specs.View.{made, Adds};
ghost use Rattle.store_core.specs.Answers.{BeginAnswer, ChooseAnswer, CommitAnswer, LookAnswer, commit_entry};
ghost use Rattle.history_calls.specs.SessionSteps.{CanChoose, CanCommit, CanFinish, CanAbort, CanAbortChosen};
ghost use Rattle.history_calls.specs.ReadingSteps.{CanEnd};
ghost use Rattle.store_shared.specs.Tokens.{open_of, chosen_of, reading_of};
ghost use Rattle.store_shared.specs.Took.{TookTurn};

use depot::Written;
use ss_base::{Name, StreamName};
use std::alloc::Global;
use store_core::{BeginFault, NameFault, PointFault, Stored};
use store_shared::{Chosen, Pass, Reading, Session};

/// A store's calls of a session and of a reading, each with one turn of the pass that it takes. They answer as the
/// store's own do.
pub trait SharedCalls {
    ghost use Rattle.atomic_table.specs.Seated.{TableId};

    /// How many manifests stand at a hook, and how many champions a segment has, at most.
    ghost standings: { ℕ };

    ghost champions: { ℕ };

    /// Which store it is.
    ghost turns: { Self → TableId };

    fn begin(&self, pass: Pass, name: StreamName) -> Result<Session, (Pass, BeginFault)>
        requires turns { pass.turns ≡ turns self.now }
        ensures { MatchResult result
            (λ session. TookTurn standings champions pass session.pass (λ turn after. BeginAnswer turn after pass.number name (Ok session.session)))
            (λ back. TookTurn standings champions pass back.0 (λ turn after. BeginAnswer turn after pass.number name (Err back.1))) };

    fn choose(
        &self,
        alloc: Global,
        session: Session,
        hooks: Vec<Name>,
    ) -> Result<Chosen, (Session, PointFault)>
        requires turns { session.pass.turns ≡ turns self.now }
        requires choose { CanChoose (open_of session) hooks.items }
        ensures { MatchResult result
            (λ chosen. (chosen.session ≡ session.session) × TookTurn standings champions session.pass chosen.pass (λ turn after. ChooseAnswer standings champions turn after session.pass.number session.session hooks.items (Ok chosen.choice)))
            (λ back. (back.0.session ≡ session.session) × TookTurn standings champions session.pass back.0.pass (λ turn after. ChooseAnswer standings champions turn after session.pass.number session.session hooks.items (Err back.1))) };

    fn commit(
        &self,
        chosen: Chosen,
        stored: Stored,
        written: Written,
    ) -> Result<Session, (Chosen, PointFault)>
        requires turns { chosen.pass.turns ≡ turns self.now }
        requires commit { CanCommit (chosen_of chosen) stored written }
        ensures { MatchResult result
            (λ session. (session.session ≡ chosen.session) × TookTurn standings champions chosen.pass session.pass (λ turn after. Adds turn after (commit_entry turn chosen.pass.number chosen.session stored)))
            (λ back. (back.0.session ≡ chosen.session) × (back.0.choice ≡ chosen.choice) × TookTurn standings champions chosen.pass back.0.pass (λ turn after. CommitAnswer turn after chosen.pass.number chosen.session stored (Err back.1))) };

    fn finish(&self, session: Session, containers: u32) -> Pass
        requires turns { session.pass.turns ≡ turns self.now }
        requires finish { CanFinish (open_of session) containers }
        ensures { TookTurn standings champions session.pass result (λ turn after. Adds turn after (made session.pass.number (Finish session.session containers))) };

    fn abort(&self, session: Session, containers: u32, texts: u32) -> Pass
        requires turns { session.pass.turns ≡ turns self.now }
        requires abort { CanAbort (open_of session) containers texts }
        ensures { TookTurn standings champions session.pass result (λ turn after. Adds turn after (made session.pass.number (Abort session.session containers texts))) };

    fn abort_chosen(&self, chosen: Chosen, containers: u32, texts: u32) -> Pass
        requires turns { chosen.pass.turns ≡ turns self.now }
        requires abort { CanAbortChosen (chosen_of chosen) containers texts }
        ensures { TookTurn standings champions chosen.pass result (λ turn after. Adds turn after (made chosen.pass.number (Abort chosen.session containers texts))) };

    fn look(
        &self,
        alloc: Global,
        pass: Pass,
        name: StreamName,
    ) -> Result<Reading, (Pass, NameFault)>
        requires turns { pass.turns ≡ turns self.now }
        ensures { MatchResult result
            (λ reading. TookTurn standings champions pass reading.pass (λ turn after. LookAnswer turn after pass.number name (Ok reading.looked)))
            (λ back. TookTurn standings champions pass back.0 (λ turn after. LookAnswer turn after pass.number name (Err back.1))) };

    fn done(&self, reading: Reading) -> Pass
        requires turns { reading.pass.turns ≡ turns self.now }
        requires end { CanEnd (reading_of reading) }
        ensures { TookTurn standings champions reading.pass result (λ turn after. Adds turn after (made reading.pass.number (Done reading.looked.reader))) };
}
