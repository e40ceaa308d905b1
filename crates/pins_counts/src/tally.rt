// The numbers, the sessions and what is gone.
ghost use Rattle.std.specs.Prelude.{◌≡◌, ℕ, ◌+◌, ◌-◌, ◌<◌, ◌≤◌, ◌^◌, ◌||◌, ◌∷◌, ◌++◌, [], None, Some, false, IsTrue, OnOk, OnErr, take, filter, length, slice_get, slice_set, vec_len};
ghost use Rattle.std.specs.FinMap as map;
ghost use Rattle.std.specs.FinSet as set;
ghost use Rattle.ss_base.specs.declared.object.Object.{Object as Stored};
ghost use Rattle.ss_base.specs.Ids.{same_object};
ghost use Rattle.ss_base.specs.KnownObjects.{numbered};
ghost use Rattle.pins_counts.specs.Counts.{number, is_ready, is_gone, one_if, object_of, is_idle};
ghost use Rattle.pins_counts.specs.Waiting.{ended_at, objects_at, IsQuiet};

use crate::fact::{Fact, fact_of, lower, make_fact, raise};
use crate::kind::Kind;
use crate::run::{after_gone, set_gone};
use fx_hash::FxMap;
use ss_base::{Ended, Memory, Object};
use std::alloc::Global;
use std::collections::HashMap;
use std::hash::BuildHasherDefault;
use std::marker::Model;

const MAX_SESSIONS: usize = 4_294_967_294;

// What is counted. Nothing here knows which sessions may have dead objects.
#[derive(Drop)]
pub(crate) struct Tally {
    sessions: Vec<Option<Ended>>,
    room: usize,
    facts: FxMap<Object, Fact>,
}

impl Model for Tally {
    ghost use Rattle.std.specs.Prelude.{◌+◌, ◌≤◌, ◌<◌, ◌^◌, vec_len, vec_capacity};
    ghost use Rattle.pins_counts.specs.Counts.{Counted};
    ghost use Rattle.pins_counts.specs.Codes.{counted_code};
    ghost use Rattle.pins_counts.specs.Facts.{numbers_of, gone_of, IsSound};

    ghost Value = { Counted };

    ghost coded = { counted_code };

    ghost view = { λ c. record { numbers = numbers_of c.facts.entries; sessions = c.sessions.items; gone = gone_of c.facts.entries; room = c.room } };

    ghost invariant = { λ c. (vec_len c.sessions + c.room ≤ vec_capacity c.sessions) × (vec_len c.sessions + c.room < 2 ^ 32) × IsSound c.facts };
}

impl Tally {
    pub(crate) fn new(alloc: Global) -> Tally
        ensures { result ≡ record { numbers = map.empty; sessions = []; gone = set.empty; room = 0 } }
    {
        Tally {
            sessions: Vec::new(alloc),
            room: 0,
            facts: HashMap::with_hasher(alloc, BuildHasherDefault::new()),
        }
    }

    pub(crate) fn room(&self) -> usize
        ensures { result ≡ self.now.room }
    {
        self.room
    }

    // How many sessions there are.
    pub(crate) fn len(&self) -> usize
        ensures value { result ≡ length self.now.sessions }
        ensures fits { result < 2 ^ 32 }
    {
        self.sessions.len()
    }

    // Makes room for one session, where there is none.
    pub(crate) fn room_session(&mut self) -> Result<(), Memory>
        requires { self.old.room ≡ 0 }
        ensures ok { OnOk result (self.new ≡ record self.old { room = 1 }) }
        ensures err { OnErr result (self.new ≡ self.old) }
    {
        if self.sessions.len() >= MAX_SESSIONS {
            return Err(Memory);
        }
        self.sessions.try_reserve(1)?;
        self.room = 1;
        Ok(())
    }

    // Adds the next session, which isn't closed.
    pub(crate) fn add_session(&mut self)
        requires { 0 < self.old.room }
        ensures { self.new ≡ record self.old { sessions = self.old.sessions ++ None ∷ []; room = self.old.room - 1 } }
    {
        let _ = self.sessions.push(None);
        self.room -= 1;
    }

    // Closes a session with these counts.
    pub(crate) fn close(&mut self, session: u32, containers: u32, texts: u32)
        requires { slice_get self.old.sessions session ≡ Some None }
        ensures { self.new ≡ record self.old { sessions = slice_set self.old.sessions session (Some (record { containers = containers; texts = texts })) } }
    {
        self.sessions[session as usize] = Some(Ended { containers, texts });
    }

    // Makes room for the object's number. After want of memory nothing has changed.
    pub(crate) fn make_ready(&mut self, object: Object) -> Result<(), Memory>
        ensures ready { OnOk result ((q : Stored) → is_ready self.new q ≡ (same_object q object || is_ready self.old q)) }
        ensures numbers { (q : Stored) → number self.new q ≡ number self.old q }
        ensures err { OnErr result (self.new ≡ self.old) }
        ensures rest { self.new ≡ record self.old { numbers = self.new.numbers } }
    {
        make_fact(&mut self.facts, object)?;
        Ok(())
    }

    // Adds one to the object's number.
    pub(crate) fn add_one(&mut self, object: Object)
        requires ready { IsTrue (is_ready self.old object) }
        requires below { number self.old object < 2 ^ 32 - 1 }
        ensures numbers { (q : Stored) → number self.new q ≡ number self.old q + one_if (same_object q object) }
        ensures ready { (q : Stored) → is_ready self.new q ≡ is_ready self.old q }
        ensures rest { self.new ≡ record self.old { numbers = self.new.numbers } }
    {
        raise(&mut self.facts, object);
    }

    // Takes one from the object's number, and says what is left.
    pub(crate) fn take_one(&mut self, object: Object) -> u32
        requires ready { IsTrue (is_ready self.old object) }
        requires above { 0 < number self.old object }
        ensures numbers { (q : Stored) → number self.old q ≡ number self.new q + one_if (same_object q object) }
        ensures ready { (q : Stored) → is_ready self.new q ≡ is_ready self.old q }
        ensures rest { self.new ≡ record self.old { numbers = self.new.numbers } }
        ensures left { number self.old object ≡ result + 1 }
    {
        lower(&mut self.facts, object)
    }

    // Adds the object to those that are gone.
    pub(crate) fn mark(&mut self, object: Object)
        requires { IsTrue (is_ready self.old object) }
        ensures gone { (q : Stored) → is_gone self.new q ≡ (is_gone self.old q || same_object q object) }
        ensures rest { self.new ≡ record self.old { gone = self.new.gone } }
    {
        set_gone(&mut self.facts, object);
    }

    pub(crate) fn number_of(&self, object: Object) -> u32
        ensures { result ≡ number self.now object }
    {
        fact_of(&self.facts, object).number
    }

    // Whether the object isn't gone and has the number 0.
    fn is_idle(&self, object: Object) -> bool
        ensures { result ≡ is_idle self.now object }
    {
        let fact = fact_of(&self.facts, object);
        match fact.gone {
            Some(_) => false,
            None => fact.number == 0,
        }
    }

    // What a session had when it was closed.
    pub(crate) fn ended(&self, session: u32) -> Option<Ended>
        ensures { result ≡ ended_at self.now session }
    {
        match self.sessions.get(session as usize) {
            Some(ended) => *ended,
            None => None,
        }
    }

    // Adds what is dead of one kind and session, until `limit` are found.
    pub(crate) fn add_dead_in(
        &self,
        kind: Kind,
        session: u32,
        limit: usize,
        found: &mut Vec<Object>,
    ) -> Result<(), Memory>
        requires { vec_len found.old ≤ limit }
        ensures { OnOk result (found.new.items ≡ take limit (found.old.items ++ filter (is_idle self.now) (objects_at kind self.now session))) }
    {
        let ended = &self.ended(session);
        if let Some(ended) = ended {
            self.add_dead_of(kind, session, kind.count(*ended), limit, found)?;
        }
        Ok(())
    }

    // Adds what is dead of the objects of one kind and session below `count`, until `limit` are found.
    fn add_dead_of(
        &self,
        kind: Kind,
        session: u32,
        count: u32,
        limit: usize,
        found: &mut Vec<Object>,
    ) -> Result<(), Memory>
        requires { vec_len found.old ≤ limit }
        ensures { OnOk result (found.new.items ≡ take limit (found.old.items ++ filter (is_idle self.now) (numbered (object_of kind session) 0 count))) }
    {
        let mut next = 0;
        while next < count && found.len() < limit {
            let object = kind.object(session, next);
            if self.is_idle(object) {
                found.push(object)?;
            }
            next = after_gone(&self.facts, object, count);
        }
        Ok(())
    }

    // Whether a session has a dead object of the kind.
    pub(crate) fn has_dead(&self, kind: Kind, session: u32) -> bool
        ensures { result ≡ false → IsQuiet kind self.now session }
    {
        match self.ended(session) {
            Some(ended) => self.has_dead_below(kind, session, kind.count(ended)),
            None => false,
        }
    }

    // Whether one of the objects of one kind and session below `count` is dead.
    fn has_dead_below(&self, kind: Kind, session: u32, count: u32) -> bool
        ensures { result ≡ false → (n : ℕ) → n < count → is_idle self.now (object_of kind session n) ≡ false }
    {
        let mut next = 0;
        while next < count {
            let object = kind.object(session, next);
            if self.is_idle(object) {
                return true;
            }
            next = after_gone(&self.facts, object, count);
        }
        false
    }
}
