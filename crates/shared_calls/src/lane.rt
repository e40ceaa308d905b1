// A lane at work on a store.

use crate::SharedCalls;
use depot::Written;
use outside::{Gate, PointKind};
use ss_base::{Name, StreamName};
use std::alloc::Global;
use std::sync::Wait;
use store_core::{BeginFault, NameFault, PointFault, Stored};
use store_shared::{Chosen, Pass, Reading, Session, Store};

/// A lane's calls on a store. Before each turn the lane passes the gate with its number and the kind of the point that
/// the turn may add. A turn lasts no longer than one call of the state.
#[derive(Drop)]
pub struct Lane<'s, R, G, const L: usize, const M: usize> {
    pub rt: &'s R,
    pub store: &'s Store<L, M>,
    pub gate: &'s G,
    pub lane: u32,
}

impl<'s, R: Wait, G: Gate, const L: usize, const M: usize> SharedCalls for Lane<'s, R, G, L, M> {
    ghost standings = { L };

    ghost champions = { M };

    ghost turns = { λ lane. lane.store.now };

    fn begin(&self, pass: Pass, name: StreamName) -> Result<Session, (Pass, BeginFault)> {
        self.gate.pass(self.lane, PointKind::Begin);
        self.store.begin(self.rt, pass, name)
    }

    fn choose(
        &self,
        alloc: Global,
        session: Session,
        hooks: Vec<Name>,
    ) -> Result<Chosen, (Session, PointFault)> {
        self.gate.pass(self.lane, PointKind::Choose);
        self.store.choose(self.rt, alloc, session, hooks)
    }

    fn commit(
        &self,
        chosen: Chosen,
        stored: Stored,
        written: Written,
    ) -> Result<Session, (Chosen, PointFault)> {
        self.gate.pass(self.lane, PointKind::Commit);
        self.store.commit(self.rt, chosen, stored, written)
    }

    fn finish(&self, session: Session, containers: u32) -> Pass {
        self.gate.pass(self.lane, PointKind::Finish);
        self.store.finish(self.rt, session, containers)
    }

    fn abort(&self, session: Session, containers: u32, texts: u32) -> Pass {
        self.gate.pass(self.lane, PointKind::Abort);
        self.store.abort(self.rt, session, containers, texts)
    }

    fn abort_chosen(&self, chosen: Chosen, containers: u32, texts: u32) -> Pass {
        self.gate.pass(self.lane, PointKind::Abort);
        self.store.abort_chosen(self.rt, chosen, containers, texts)
    }

    fn look(
        &self,
        alloc: Global,
        pass: Pass,
        name: StreamName,
    ) -> Result<Reading, (Pass, NameFault)> {
        self.gate.pass(self.lane, PointKind::Look);
        self.store.look(self.rt, alloc, pass, name)
    }

    fn done(&self, reading: Reading) -> Pass {
        self.gate.pass(self.lane, PointKind::Done);
        self.store.done(self.rt, reading)
    }
}
