// Which session last began under each name. Only that one may hold it.
ghost use Rattle.std.specs.Prelude.{◌≡◌, ℕ, List, None, OnOk, OnErr};
ghost use Rattle.legal_history.specs.Names.{session_at, OneNamed, SameNames};

use ss_base::{Memory, StreamName};
use std::alloc::Global;
use std::collections::BTreeMap;

#[derive(Drop)]
pub(crate) struct Names {
    sessions: BTreeMap<StreamName, u32>,
}

impl Names {
    pub(crate) fn new(alloc: Global) -> Names
        ensures { (q : List ℕ) → session_at result.sessions q ≡ None }
    {
        Names {
            sessions: BTreeMap::new(alloc),
        }
    }

    pub(crate) fn get(&self, name: &StreamName) -> Option<u32>
        ensures { result ≡ session_at self.now.sessions name.now }
    {
        self.sessions.get(name).copied()
    }

    pub(crate) fn set(&mut self, name: StreamName, session: u32) -> Result<(), Memory>
        ensures ok { OnOk result (OneNamed self.old.sessions self.new.sessions name session) }
        ensures err { OnErr result (SameNames self.old.sessions self.new.sessions) }
    {
        self.sessions.insert(name, session)?;
        Ok(())
    }
}
