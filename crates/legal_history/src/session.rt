// What is kept of one session.
ghost use Rattle.std.specs.Prelude.{◌≡◌, ◌∷◌, [], max, OnOk, OnErr};
ghost use Rattle.legal_history.specs.Rows.{begun, chosen, committed, finished, aborted, deleted};

use crate::stage::Stage;
use ss_base::Memory;
use std::alloc::Global;
use std::marker::Model;

// A session by the numbers of its entries, of which the champions' are the Commits of its last champions.
#[derive(Drop)]
pub(crate) struct Session {
    begin: u32,
    stage: Stage,
    choices: Vec<u32>,
    commits: Vec<u32>,
    is_pending: bool,
    champions: Vec<u32>,
    own_end: u64,
}

impl Model for Session {
    ghost use Rattle.std.specs.Prelude.{◌∷◌, []};
    ghost use Rattle.legal_history.specs.Rows.{Row};

    ghost Value = { Row };

    ghost view = { λ s. record { begins = s.begin ∷ []; stage = s.stage; choices = s.choices.items; commits = s.commits.items; is_pending = s.is_pending; champions = s.champions.items; own_end = s.own_end } };
}

impl Session {
    pub(crate) fn new(alloc: Global, begin: u32) -> Session
        ensures { result ≡ begun begin }
    {
        Session {
            begin,
            stage: Stage::Unfinished,
            choices: Vec::new(alloc),
            commits: Vec::new(alloc),
            is_pending: false,
            champions: Vec::new(alloc),
            own_end: 0,
        }
    }

    pub(crate) fn begin(&self) -> u32
        ensures { self.now.begins ≡ result ∷ [] }
    {
        self.begin
    }

    pub(crate) fn stage(&self) -> Stage
        ensures { result ≡ self.now.stage }
    {
        self.stage
    }

    pub(crate) fn choices(&self) -> &[u32]
        ensures { result.now ≡ self.now.choices }
    {
        &self.choices
    }

    pub(crate) fn commits(&self) -> &[u32]
        ensures { result.now ≡ self.now.commits }
    {
        &self.commits
    }

    pub(crate) fn is_pending(&self) -> bool
        ensures { result ≡ self.now.is_pending }
    {
        self.is_pending
    }

    pub(crate) fn champions(&self) -> &[u32]
        ensures { result.now ≡ self.now.champions }
    {
        &self.champions
    }

    pub(crate) fn own_end(&self) -> u64
        ensures { result ≡ self.now.own_end }
    {
        self.own_end
    }

    // A Choose, whose champions the entries with these numbers commit.
    pub(crate) fn choose(&mut self, number: u32, champions: Vec<u32>) -> Result<(), Memory>
        ensures ok { OnOk result (self.new ≡ chosen number champions.items self.old) }
        ensures err { OnErr result (self.new ≡ self.old) }
    {
        self.choices.push(number)?;
        self.is_pending = true;
        self.champions = champions;
        Ok(())
    }

    // A Commit, above whose own ordinals the end is.
    pub(crate) fn commit(&mut self, number: u32, end: u64) -> Result<(), Memory>
        ensures ok { OnOk result (self.new ≡ committed number end self.old) }
        ensures err { OnErr result (self.new ≡ self.old) }
    {
        self.commits.push(number)?;
        self.is_pending = false;
        self.own_end = larger(end, self.own_end);
        Ok(())
    }

    pub(crate) fn finish(&mut self)
        ensures { self.new ≡ finished self.old }
    {
        self.stage = Stage::Retained;
    }

    pub(crate) fn abort(&mut self)
        ensures { self.new ≡ aborted self.old }
    {
        self.stage = Stage::Aborted;
        self.is_pending = false;
    }

    pub(crate) fn delete(&mut self)
        ensures { self.new ≡ deleted self.old }
    {
        self.stage = Stage::Deleted;
    }
}

pub(crate) fn larger(a: u64, b: u64) -> u64
    ensures { result ≡ max a b }
{
    if a < b { b } else { a }
}
