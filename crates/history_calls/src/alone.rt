// A caller that has the history to itself.
ghost use Rattle.std.specs.Prelude.{◌≡◌, []};

use crate::{ReadingCalls, SessionCalls};
use depot::Written;
use ss_base::{Name, Profile, StreamName};
use std::alloc::Global;
use store_core::{BeginFault, Choice, Looked, NameFault, PointFault, State, Stored};

/// A caller with nothing begun, by its number.
#[derive(Clone, Copy, Debug)]
pub struct Caller {
    pub author: u32,
}

/// A session that was begun and has no pending choice.
#[derive(Debug, Drop)]
pub struct OpenSession {
    author: u32,
    session: u32,
}

/// A session with a pending choice.
#[derive(Debug, Drop)]
pub struct ChosenSession {
    author: u32,
    session: u32,
    choice: Choice,
}

/// A stream that is read.
#[derive(Debug, Drop)]
pub struct OpenReading {
    author: u32,
    looked: Looked,
}

impl<const L: usize, const M: usize> SessionCalls for State<L, M> {
    type Idle = Caller;

    type Open = OpenSession;

    type Chosen = ChosenSession;

    ghost others = { λ came. came ≡ [] };

    ghost standings = { L };

    ghost champions = { M };

    ghost of_idle = { λ state idle. record { author = idle.author; seen = state } };

    ghost of_open = { λ state open_to. record { author = open_to.author; seen = state; session = open_to.session } };

    ghost of_chosen = { λ state chosen. record { author = chosen.author; seen = state; session = chosen.session; choice = chosen.choice } };

    fn begin(
        &mut self,
        idle: Caller,
        name: StreamName,
    ) -> Result<OpenSession, (Caller, BeginFault)> {
        let _entries = self.entries();
        let author = idle.author;
        match State::begin(self, author, name) {
            Ok(session) => Ok(OpenSession { author, session }),
            Err(fault) => Err((idle, fault)),
        }
    }

    fn session(&self, token: &OpenSession) -> u32 {
        token.session
    }

    fn profile(&self, token: &OpenSession) -> Profile {
        let _ = token;
        State::profile(self)
    }

    fn choose(
        &mut self,
        alloc: Global,
        token: OpenSession,
        hooks: Vec<Name>,
    ) -> Result<ChosenSession, (OpenSession, PointFault)> {
        let _entries = self.entries();
        match State::choose(self, alloc, token.author, token.session, hooks) {
            Ok(choice) => Ok(ChosenSession {
                author: token.author,
                session: token.session,
                choice,
            }),
            Err(fault) => Err((token, fault)),
        }
    }

    fn choice<'t>(&self, chosen: &'t ChosenSession) -> &'t Choice {
        &chosen.choice
    }

    fn commit(
        &mut self,
        chosen: ChosenSession,
        stored: Stored,
        written: Written,
    ) -> Result<OpenSession, (ChosenSession, PointFault)> {
        let _ = written;
        let _entries = self.entries();
        match State::commit(self, chosen.author, chosen.session, stored) {
            Ok(_) => Ok(OpenSession {
                author: chosen.author,
                session: chosen.session,
            }),
            Err(fault) => Err((chosen, fault)),
        }
    }

    fn finish(&mut self, token: OpenSession, containers: u32) -> Caller {
        let _entries = self.entries();
        State::finish(self, token.author, token.session, containers);
        Caller {
            author: token.author,
        }
    }

    fn abort(&mut self, token: OpenSession, containers: u32, texts: u32) -> Caller {
        let _entries = self.entries();
        State::abort(self, token.author, token.session, containers, texts);
        Caller {
            author: token.author,
        }
    }

    fn abort_chosen(&mut self, chosen: ChosenSession, containers: u32, texts: u32) -> Caller {
        let _entries = self.entries();
        State::abort(self, chosen.author, chosen.session, containers, texts);
        Caller {
            author: chosen.author,
        }
    }
}

impl<const L: usize, const M: usize> ReadingCalls for State<L, M> {
    type Idle = Caller;

    type Reading = OpenReading;

    ghost others = { λ came. came ≡ [] };

    ghost standings = { L };

    ghost champions = { M };

    ghost of_idle = { λ state idle. record { author = idle.author; seen = state } };

    ghost of_reading = { λ state reading. record { author = reading.author; seen = state; looked = reading.looked } };

    fn look(
        &mut self,
        alloc: Global,
        idle: Caller,
        name: StreamName,
    ) -> Result<OpenReading, (Caller, NameFault)> {
        let _entries = self.entries();
        let author = idle.author;
        match State::look(self, alloc, author, name) {
            Ok(looked) => Ok(OpenReading { author, looked }),
            Err(fault) => Err((idle, fault)),
        }
    }

    fn looked<'t>(&self, reading: &'t OpenReading) -> &'t Looked {
        &reading.looked
    }

    fn done(&mut self, reading: OpenReading) -> Caller {
        let _entries = self.entries();
        State::done(self, reading.author, reading.looked.reader);
        Caller {
            author: reading.author,
        }
    }
}
