// What is kept of the sessions, of which a session's number is its place.
ghost use Rattle.std.specs.Prelude.{◌≡◌, ◌||◌, if◌then◌else◌, ◌∷◌, ◌++◌, [], map, length, true, List, IfOk, OnOk, OnErr, IsOk};
ghost use Rattle.history.specs.OwnEnd.{end_among};
ghost use Rattle.legal_history.specs.Recorded.{is_end};
ghost use Rattle.legal_history.specs.Agrees.{is_open, is_kept};
ghost use Rattle.legal_history.specs.Rows.{Row, last_of, row_at, chosen, begun, committed, finished, aborted, deleted, changed, commit_number, noted};

use crate::session::Session;
use crate::stage::Stage;
use crate::uses::end_among;
use history::Point;
use ss_base::{ContainerId, ManifestId, Memory};
use std::alloc::Global;
use std::marker::Model;

#[derive(Drop)]
pub(crate) struct Sessions {
    alloc: Global,
    rows: Vec<Session>,
}

impl Model for Sessions {
    ghost use Rattle.std.specs.Prelude.{List};
    ghost use Rattle.legal_history.specs.Rows.{Row};

    ghost Value = { List Row };

    ghost view = { λ s. s.rows.items };
}

impl Sessions {
    pub(crate) fn new(alloc: Global) -> Sessions
        ensures { result ≡ [] }
    {
        Sessions {
            alloc,
            rows: Vec::new(alloc),
        }
    }

    pub(crate) fn len(&self) -> usize
        ensures { result ≡ length self.now }
    {
        self.rows.len()
    }

    pub(crate) fn begin(&self, session: u32) -> Option<u32>
        ensures { result ≡ last_of (row_at session self.now).begins }
    {
        match self.rows.get(session as usize) {
            Some(row) => Some(row.begin()),
            None => None,
        }
    }

    pub(crate) fn stage(&self, session: u32) -> Stage
        ensures { result ≡ (row_at session self.now).stage }
    {
        match self.rows.get(session as usize) {
            Some(row) => row.stage(),
            None => Stage::Unfinished,
        }
    }

    pub(crate) fn is_unfinished(&self, session: u32) -> bool
        ensures { result ≡ is_open (row_at session self.now) }
    {
        self.begin(session).is_some() && matches!(self.stage(session), Stage::Unfinished)
    }

    pub(crate) fn is_retained(&self, session: u32) -> bool
        ensures { result ≡ is_kept (row_at session self.now) }
    {
        matches!(self.stage(session), Stage::Retained)
    }

    // The session, if it is retained.
    pub(crate) fn if_retained(&self, session: u32) -> Option<u32>
        ensures { result ≡ (if is_kept (row_at session self.now) then Some session else None) }
    {
        if self.is_retained(session) {
            Some(session)
        } else {
            None
        }
    }

    // Whether the session holds its name.
    pub(crate) fn holds(&self, session: u32) -> bool
        ensures { result ≡ (is_open (row_at session self.now) || is_kept (row_at session self.now)) }
    {
        self.is_unfinished(session) || self.is_retained(session)
    }

    pub(crate) fn choices(&self, session: u32) -> &[u32]
        ensures { result.now ≡ (row_at session self.now).choices }
    {
        match self.rows.get(session as usize) {
            Some(row) => row.choices(),
            None => &[],
        }
    }

    pub(crate) fn last_choice(&self, session: u32) -> Option<u32>
        ensures { result ≡ last_of (row_at session self.now).choices }
    {
        self.choices(session).last().copied()
    }

    pub(crate) fn commits(&self, session: u32) -> &[u32]
        ensures { result.now ≡ (row_at session self.now).commits }
    {
        match self.rows.get(session as usize) {
            Some(row) => row.commits(),
            None => &[],
        }
    }

    pub(crate) fn champions(&self, session: u32) -> &[u32]
        ensures { result.now ≡ (row_at session self.now).champions }
    {
        match self.rows.get(session as usize) {
            Some(row) => row.champions(),
            None => &[],
        }
    }

    pub(crate) fn is_pending(&self, session: u32) -> bool
        ensures { result ≡ (row_at session self.now).is_pending }
    {
        match self.rows.get(session as usize) {
            Some(row) => row.is_pending(),
            None => false,
        }
    }

    pub(crate) fn own_end(&self, session: u32) -> u64
        ensures { result ≡ (row_at session self.now).own_end }
    {
        match self.rows.get(session as usize) {
            Some(row) => row.own_end(),
            None => 0,
        }
    }

    /// Notes what an entry does to its session. The entry has this number.
    pub(crate) fn note(&mut self, number: u32, point: &Point) -> Result<(), Memory>
        ensures ok { OnOk result (self.new ≡ noted number point.now self.old) }
        ensures err { OnErr result (self.new ≡ self.old) }
        ensures ends { is_end point.now ≡ true → IsOk result }
    {
        match point {
            Point::Begin {
                session: Some(_),
                ..
            } => self.begin_session(number),
            Point::Choose {
                session,
                champions,
                ..
            } => self.choose(*session, number, champions.as_slice()),
            Point::Commit { manifest, uses, .. } => {
                self.commit(manifest.session, number, uses.as_slice())
            }
            Point::Finish { session, .. } => {
                self.finish(*session);
                Ok(())
            }
            Point::Abort { session, .. } => {
                self.abort(*session);
                Ok(())
            }
            Point::Delete {
                session: Some(session),
                ..
            } => {
                self.delete(*session);
                Ok(())
            }
            _ => Ok(()),
        }
    }

    pub(crate) fn begin_session(&mut self, number: u32) -> Result<(), Memory>
        ensures ok { OnOk result (self.new ≡ self.old ++ begun number ∷ []) }
        ensures err { OnErr result (self.new ≡ self.old) }
    {
        self.rows.push(Session::new(self.alloc, number))?;
        Ok(())
    }

    // Takes the last session away.
    pub(crate) fn give_up_last(&mut self)
        ensures { (rows : List Row) (row : Row) → self.old ≡ rows ++ row ∷ [] → self.new ≡ rows }
    {
        let _ = self.rows.pop();
    }

    fn choose(&mut self, session: u32, number: u32, champions: &[ManifestId]) -> Result<(), Memory>
        ensures ok { OnOk result (self.new ≡ changed session (chosen number (map (commit_number self.old) champions.now)) self.old) }
        ensures err { OnErr result (self.new ≡ self.old) }
    {
        let numbers = self.commit_numbers(champions)?;
        self.choose_these(session, number, numbers)
    }

    fn choose_these(&mut self, session: u32, number: u32, champions: Vec<u32>) -> Result<(), Memory>
        ensures ok { OnOk result (self.new ≡ changed session (chosen number champions.items) self.old) }
        ensures err { OnErr result (self.new ≡ self.old) }
    {
        let place = session as usize;
        if place >= self.rows.len() {
            return Ok(());
        }
        self.rows[place].choose(number, champions)
    }

    fn commit_number(&self, id: ManifestId) -> u32
        ensures { result ≡ commit_number self.now id }
    {
        match self.commits(id.session).get(id.seq as usize) {
            Some(number) => *number,
            None => 0,
        }
    }

    fn commit_numbers(&self, ids: &[ManifestId]) -> Result<Vec<u32>, Memory>
        ensures { IfOk result (λ numbers. numbers.items ≡ map (commit_number self.now) ids.now) }
    {
        let mut numbers = Vec::new(self.alloc);
        for id in ids {
            numbers.push(self.commit_number(*id))?;
        }
        Ok(numbers)
    }

    fn commit(&mut self, session: u32, number: u32, uses: &[ContainerId]) -> Result<(), Memory>
        ensures ok { OnOk result (self.new ≡ changed session (committed number (end_among session uses.now)) self.old) }
        ensures err { OnErr result (self.new ≡ self.old) }
    {
        let place = session as usize;
        if place >= self.rows.len() {
            return Ok(());
        }
        let end = end_among(session, uses);
        self.rows[place].commit(number, end)
    }

    fn finish(&mut self, session: u32)
        ensures { self.new ≡ changed session finished self.old }
    {
        let place = session as usize;
        if place < self.rows.len() {
            self.rows[place].finish();
        }
    }

    fn abort(&mut self, session: u32)
        ensures { self.new ≡ changed session aborted self.old }
    {
        let place = session as usize;
        if place < self.rows.len() {
            self.rows[place].abort();
        }
    }

    fn delete(&mut self, session: u32)
        ensures { self.new ≡ changed session deleted self.old }
    {
        let place = session as usize;
        if place < self.rows.len() {
            self.rows[place].delete();
        }
    }
}
