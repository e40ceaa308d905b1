// The calls of a session.
ghost use Rattle.std.specs.Prelude.{◌≡◌, Ok, Err, MatchResult};
ghost use Rattle.journal_entry.specs.declared.entry.Point.TheVariants.{Finish as FinishPoint, Abort as AbortPoint};
ghost use Rattle.store_core.specs.View.{made, Adds};
ghost use Rattle.store_core.specs.Answers.{BeginAnswer, ChooseAnswer, CommitAnswer, commit_entry};
ghost use Rattle.history_calls.specs.SessionSteps.{CanChoose, CanCommit, CanFinish, CanAbort, CanAbortChosen};
ghost use Rattle.store_shared.specs.Tokens.{open_of, chosen_of};
ghost use Rattle.store_shared.specs.Took.{TookTurn};

use crate::{Chosen, Session, Store};
use depot::Written;
use ss_base::{Name, StreamName};
use std::alloc::Global;
use std::sync::Wait;
use store_core::{BeginFault, PointFault, Stored};
use turn_lock::Pass;

impl<const L: usize, const M: usize> Store<L, M> {
    /// Begins a session under a name. `Taken`: the name is held, which an entry says then. `Full`: with the entry the
    /// limits would be broken. After `Full` and `Memory` no entry is added.
    pub fn begin<R: Wait>(
        &self,
        rt: &R,
        pass: Pass,
        name: StreamName,
    ) -> Result<Session, (Pass, BeginFault)>
        requires turns { pass.turns ≡ self.now }
        ensures { MatchResult result
            (λ session. TookTurn L M pass session.pass (λ turn after. BeginAnswer turn after pass.number name (Ok session.session)))
            (λ back. TookTurn L M pass back.0 (λ turn after. BeginAnswer turn after pass.number name (Err back.1))) }
    {
        let author = pass.number();
        let mut inside = self.enter(rt, pass);
        let answer = inside.state.begin(author, name);
        let profile = inside.state.profile();
        let pass = self.leave(rt, inside);
        match answer {
            Ok(number) => Ok(Session::new(pass, number, profile)),
            Err(fault) => Err((pass, fault)),
        }
    }

    /// Chooses champions for the session's next segment, which has these hooks: distinct, at most 4,096, and their
    /// first bits are zero. `Full`: with the entry the limits would be broken. After an Err no entry is added.
    pub fn choose<R: Wait>(
        &self,
        rt: &R,
        alloc: Global,
        session: Session,
        hooks: Vec<Name>,
    ) -> Result<Chosen, (Session, PointFault)>
        requires turns { session.pass.turns ≡ self.now }
        requires choose { CanChoose (open_of session) hooks.items }
        ensures { MatchResult result
            (λ chosen. (chosen.session ≡ session.session) × TookTurn L M session.pass chosen.pass (λ turn after. ChooseAnswer L M turn after session.pass.number session.session hooks.items (Ok chosen.choice)))
            (λ back. (back.0.session ≡ session.session) × TookTurn L M session.pass back.0.pass (λ turn after. ChooseAnswer L M turn after session.pass.number session.session hooks.items (Err back.1))) }
    {
        let Session {
            pass,
            number,
            profile,
        } = session;
        let author = pass.number();
        let mut inside = self.enter(rt, pass);
        let answer = inside.state.choose(alloc, author, number, hooks);
        let session = Session::new(self.leave(rt, inside), number, profile);
        match answer {
            Ok(choice) => Ok(Chosen { session, choice }),
            Err(fault) => Err((session, fault)),
        }
    }

    /// Commits the segment that was chosen for, whose manifest was written with the text of `stored`, behind puts of at
    /// least 36 bytes and its own for each fresh chunk. `Full`: with the entry the limits would be broken. After an Err
    /// no entry is added.
    pub fn commit<R: Wait>(
        &self,
        rt: &R,
        chosen: Chosen,
        stored: Stored,
        written: Written,
    ) -> Result<Session, (Chosen, PointFault)>
        requires turns { chosen.pass.turns ≡ self.now }
        requires commit { CanCommit (chosen_of chosen) stored written }
        ensures { MatchResult result
            (λ session. (session.session ≡ chosen.session) × TookTurn L M chosen.pass session.pass (λ turn after. Adds turn after (commit_entry turn chosen.pass.number chosen.session stored)))
            (λ back. (back.0.session ≡ chosen.session) × (back.0.choice ≡ chosen.choice) × TookTurn L M chosen.pass back.0.pass (λ turn after. CommitAnswer turn after chosen.pass.number chosen.session stored (Err back.1))) }
    {
        let _ = written;
        let Chosen { session, choice } = chosen;
        let Session {
            pass,
            number,
            profile,
        } = session;
        let author = pass.number();
        let mut inside = self.enter(rt, pass);
        let answer = inside.state.commit(author, number, stored);
        let session = Session::new(self.leave(rt, inside), number, profile);
        match answer {
            Ok(_) => Ok(session),
            Err(fault) => Err((Chosen { session, choice }, fault)),
        }
    }

    /// Ends a session, which started this many containers: more than the ordinal of each of its own that it used. It
    /// takes no memory and always has room.
    pub fn finish<R: Wait>(&self, rt: &R, session: Session, containers: u32) -> Pass
        requires turns { session.pass.turns ≡ self.now }
        requires finish { CanFinish (open_of session) containers }
        ensures { TookTurn L M session.pass result (λ turn after. Adds turn after (made session.pass.number (FinishPoint session.session containers))) }
    {
        let Session {
            pass,
            number,
            profile: _,
        } = session;
        let author = pass.number();
        let mut inside = self.enter(rt, pass);
        inside.state.finish(author, number, containers);
        self.leave(rt, inside)
    }

    /// Gives a session up, which started this many containers and wrote this many manifests. It takes no memory and
    /// always has room.
    pub fn abort<R: Wait>(&self, rt: &R, session: Session, containers: u32, texts: u32) -> Pass
        requires turns { session.pass.turns ≡ self.now }
        requires abort { CanAbort (open_of session) containers texts }
        ensures { TookTurn L M session.pass result (λ turn after. Adds turn after (made session.pass.number (AbortPoint session.session containers texts))) }
    {
        let Session {
            pass,
            number,
            profile: _,
        } = session;
        let author = pass.number();
        let mut inside = self.enter(rt, pass);
        inside.state.abort(author, number, containers, texts);
        self.leave(rt, inside)
    }

    /// The same, with a choice pending: of its segment no manifest or one was written.
    pub fn abort_chosen<R: Wait>(&self, rt: &R, chosen: Chosen, containers: u32, texts: u32) -> Pass
        requires turns { chosen.pass.turns ≡ self.now }
        requires abort { CanAbortChosen (chosen_of chosen) containers texts }
        ensures { TookTurn L M chosen.pass result (λ turn after. Adds turn after (made chosen.pass.number (AbortPoint chosen.session containers texts))) }
    {
        let Chosen { session, choice: _ } = chosen;
        self.abort(rt, session, containers, texts)
    }
}
