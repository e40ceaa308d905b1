// What is kept beside the entries.
ghost use Rattle.std.specs.Prelude.{◌≡◌, ℕ, List, [], None, true, IsOk, OnOk, OnErr};
ghost use Rattle.legal_history.specs.Names.{session_at};
ghost use Rattle.legal_history.specs.Recorded.{is_end};
ghost use Rattle.legal_history.specs.Parts.{HasBegun, HasNoted, AsBefore};

use crate::names::Names;
use crate::readings::Readings;
use crate::sessions::Sessions;
use history::Point;
use ss_base::{Memory, StreamName};
use std::alloc::Global;

#[derive(Drop)]
pub(crate) struct Parts {
    pub(crate) sessions: Sessions,
    pub(crate) readings: Readings,
    pub(crate) names: Names,
}

impl Parts {
    pub(crate) fn new(alloc: Global) -> Parts
        ensures sessions { result.sessions ≡ [] }
        ensures readings { result.readings ≡ [] }
        ensures names { (q : List ℕ) → session_at result.names.sessions q ≡ None }
    {
        Parts {
            sessions: Sessions::new(alloc),
            readings: Readings::new(alloc),
            names: Names::new(alloc),
        }
    }

    // Notes what the entry with this number does.
    pub(crate) fn note(&mut self, number: u32, point: &Point) -> Result<(), Memory>
        ensures ok { OnOk result (HasNoted number point.now self.old self.new) }
        ensures err { OnErr result (AsBefore self.old self.new) }
        ensures ends { is_end point.now ≡ true → IsOk result }
    {
        match point {
            Point::Begin {
                name,
                session: Some(session),
            } => self.begin(number, *name, *session),
            Point::Begin { session: None, .. } => Ok(()),
            Point::Choose { .. } => self.sessions.note(number, point),
            Point::Commit { .. } => self.sessions.note(number, point),
            Point::Finish { .. } => self.sessions.note(number, point),
            Point::Abort { .. } => self.sessions.note(number, point),
            Point::Delete { .. } => self.sessions.note(number, point),
            Point::Look { .. } => self.readings.note(number, point),
            Point::Done { .. } => self.readings.note(number, point),
            Point::Reclaim { .. } => Ok(()),
            Point::Stat { .. } => Ok(()),
        }
    }

    fn begin(&mut self, number: u32, name: StreamName, session: u32) -> Result<(), Memory>
        ensures ok { OnOk result (HasBegun number name session self.old self.new) }
        ensures err { OnErr result (AsBefore self.old self.new) }
    {
        self.sessions.begin_session(number)?;
        if self.names.set(name, session).is_err() {
            self.sessions.give_up_last();
            return Err(Memory);
        }
        Ok(())
    }
}
