// How often each object is needed, and which objects nothing needs.
ghost use Rattle.std.specs.Prelude.{◌≡◌, ℕ, ◌+◌, ◌-◌, ◌^◌, ◌<◌, ◌≤◌, ◌||◌, ◌∷◌, ◌++◌, [], IsTrue, OnOk, OnErr, IfOk, All, take, filter, slice_get, slice_set, vec_len, None, Some, MatchOption};
ghost use Rattle.std.specs.List.{IsDistinct};
ghost use Rattle.std.specs.FinMap as map;
ghost use Rattle.std.specs.FinSet as set;
ghost use Rattle.std.specs.Ordering.{eq_by_cmp};
ghost use Rattle.ss_base.specs.declared.object.Object.{Object as Stored};
ghost use Rattle.ss_base.specs.declared.object.Object.TheVariants.{Container, Manifest};
ghost use Rattle.ss_base.specs.Ids.{same_object, has_object};
ghost use Rattle.ss_base.specs.KnownObjects.{objects_of};
ghost use Rattle.ss_base.specs.Order.{object_cmp};
ghost use Rattle.pins_counts.specs.Counts.{number, use_number, hold_number, is_ready, is_gone, one_if, containers, object_of, count_of, is_idle, dead_objects};
ghost use Rattle.pins_counts.specs.Waiting.{IsQuiet};

use crate::awaiting::{await_dead, await_session, pass_quiet};
use crate::kind::Kind;
use crate::tally::Tally;
use crate::waiting::Waiting;
use ss_base::{ContainerId, ManifestId, Memory, Object};
use std::alloc::Global;
use std::marker::Model;

/// How often each object is needed, which sessions are closed, and which objects are gone. Contracts see a number per
/// object, a list with what each closed session had, the set of what is gone, and how many sessions may be added. An
/// object without a number of its own has 0.
#[derive(Drop)]
pub struct Counts {
    tally: Tally,
    // The closed sessions that may have dead containers, and those that may have dead manifests.
    containers: Waiting,
    manifests: Waiting,
}

impl Model for Counts {
    ghost use Rattle.pins_counts.specs.Counts.{Counted};
    ghost use Rattle.pins_counts.specs.Codes.{counted_code};
    ghost use Rattle.pins_counts.specs.Waiting.{IsAwaited};
    ghost use Rattle.pins_counts.specs.declared.kind.Kind.TheVariants.{Containers, Manifests};

    ghost Value = { Counted };

    ghost coded = { counted_code };

    ghost view = { λ c. c.tally };

    ghost invariant = { λ c. IsAwaited Containers c.tally c.containers × IsAwaited Manifests c.tally c.manifests };
}

impl Counts {
    /// Nothing counted. What is counted will be kept on `alloc`.
    pub fn new(alloc: Global) -> Counts
        ensures { result ≡ record { numbers = map.empty; sessions = []; gone = set.empty; room = 0 } }
    {
        Counts {
            tally: Tally::new(alloc),
            containers: Waiting::new(alloc),
            manifests: Waiting::new(alloc),
        }
    }

    /// Makes room for one session.
    pub fn room_session(&mut self) -> Result<(), Memory>
        ensures ok { OnOk result (0 < self.new.room) }
        ensures kept { self.old.room ≤ self.new.room }
        ensures rest { self.new ≡ record self.old { room = self.new.room } }
    {
        if self.tally.room() == 0 {
            let below = self.tally.len() + 1;
            self.containers.make_room(below)?;
            self.manifests.make_room(below)?;
            self.tally.room_session()?;
        }
        Ok(())
    }

    /// Adds the next session, which isn't closed.
    pub fn add_session(&mut self)
        requires { 0 < self.old.room }
        ensures { self.new ≡ record self.old { sessions = self.old.sessions ++ None ∷ []; room = self.old.room - 1 } }
    {
        self.tally.add_session();
    }

    /// Closes a session: its containers and its manifests' texts are those below the two counts.
    pub fn close(&mut self, session: u32, containers: u32, texts: u32)
        requires { slice_get self.old.sessions session ≡ Some None }
        ensures { self.new ≡ record self.old { sessions = slice_set self.old.sessions session (Some (record { containers = containers; texts = texts })) } }
    {
        self.tally.close(session, containers, texts);
        await_dead(&self.tally, Kind::Containers, session, &mut self.containers);
        await_dead(&self.tally, Kind::Manifests, session, &mut self.manifests);
    }

    /// Makes room for the numbers of these containers and of the manifest. What was ready stays so, also after want of
    /// memory.
    pub fn make_room(&mut self, uses: &[ContainerId], id: ManifestId) -> Result<(), Memory>
        ensures ok { OnOk result ((q : Stored) → IsTrue (has_object q (Manifest id ∷ containers uses.now)) → IsTrue (is_ready self.new q)) }
        ensures kept { (q : Stored) → IsTrue (is_ready self.old q) → IsTrue (is_ready self.new q) }
        ensures numbers { (q : Stored) → number self.new q ≡ number self.old q }
        ensures rest { self.new ≡ record self.old { numbers = self.new.numbers } }
    {
        for id in uses {
            self.make_ready(Object::Container(*id))?;
        }
        self.make_ready(Object::Manifest(id))
    }

    /// Holds the manifest once more.
    pub fn pin(&mut self, id: ManifestId)
        requires ready { IsTrue (is_ready self.old (Manifest id)) }
        requires below { hold_number self.old id < 2 ^ 32 - 1 }
        ensures numbers { (q : Stored) → number self.new q ≡ number self.old q + one_if (same_object q (Manifest id)) }
        ensures ready { (q : Stored) → is_ready self.new q ≡ is_ready self.old q }
        ensures rest { self.new ≡ record self.old { numbers = self.new.numbers } }
    {
        self.add_one(Object::Manifest(id));
    }

    /// Takes one hold of the manifest away.
    pub fn unpin(&mut self, id: ManifestId)
        requires ready { IsTrue (is_ready self.old (Manifest id)) }
        requires above { 0 < hold_number self.old id }
        ensures numbers { (q : Stored) → number self.old q ≡ number self.new q + one_if (same_object q (Manifest id)) }
        ensures ready { (q : Stored) → is_ready self.new q ≡ is_ready self.old q }
        ensures rest { self.new ≡ record self.old { numbers = self.new.numbers } }
    {
        self.take_one(Object::Manifest(id));
    }

    /// How often the manifest is held.
    pub fn holds(&self, id: ManifestId) -> u32
        ensures { result ≡ hold_number self.now id }
    {
        self.number_of(Object::Manifest(id))
    }

    /// Adds one use of each of these containers.
    pub fn add_uses(&mut self, uses: &[ContainerId])
        requires distinct { IsDistinct (eq_by_cmp object_cmp) (containers uses.now) }
        requires ready { All (λ c. IsTrue (is_ready self.old (Container c))) uses.now }
        requires below { All (λ c. use_number self.old c < 2 ^ 32 - 1) uses.now }
        ensures numbers { (q : Stored) → number self.new q ≡ number self.old q + one_if (has_object q (containers uses.now)) }
        ensures ready { (q : Stored) → is_ready self.new q ≡ is_ready self.old q }
        ensures rest { self.new ≡ record self.old { numbers = self.new.numbers } }
    {
        for id in uses {
            self.add_one(Object::Container(*id));
        }
    }

    /// Takes one use of each of these containers away.
    pub fn drop_uses(&mut self, uses: &[ContainerId])
        requires distinct { IsDistinct (eq_by_cmp object_cmp) (containers uses.now) }
        requires ready { All (λ c. IsTrue (is_ready self.old (Container c))) uses.now }
        requires above { All (λ c. 0 < use_number self.old c) uses.now }
        ensures numbers { (q : Stored) → number self.old q ≡ number self.new q + one_if (has_object q (containers uses.now)) }
        ensures ready { (q : Stored) → is_ready self.new q ≡ is_ready self.old q }
        ensures rest { self.new ≡ record self.old { numbers = self.new.numbers } }
    {
        for id in uses {
            self.take_one(Object::Container(*id));
        }
    }

    /// The first `limit`, ascending, of the objects of closed sessions that aren't gone and whose number is 0.
    pub fn dead(&self, alloc: Global, limit: usize) -> Result<Vec<Object>, Memory>
        ensures { IfOk result (λ objects. objects.items ≡ take limit (dead_objects self.now)) }
    {
        let mut found = Vec::new(alloc);
        self.add_dead(Kind::Containers, limit, &mut found)?;
        self.add_dead(Kind::Manifests, limit, &mut found)?;
        Ok(found)
    }

    /// Adds these objects to those that are gone. After want of memory none is added, and what was ready stays so.
    pub fn mark_gone(&mut self, objects: &[Object]) -> Result<(), Memory>
        ensures ok { OnOk result ((q : Stored) → is_gone self.new q ≡ (is_gone self.old q || has_object q objects.now)) }
        ensures err { OnErr result (self.new.gone ≡ self.old.gone) }
        ensures kept { (q : Stored) → IsTrue (is_ready self.old q) → IsTrue (is_ready self.new q) }
        ensures numbers { (q : Stored) → number self.new q ≡ number self.old q }
        ensures rest { self.new ≡ record self.old { numbers = self.new.numbers; gone = self.new.gone } }
    {
        for object in objects {
            self.make_ready(*object)?;
        }
        self.mark_all(objects);
        Ok(())
    }

    /// Makes room for the object's number. After want of memory nothing has changed.
    pub fn make_ready(&mut self, object: Object) -> Result<(), Memory>
        ensures ready { OnOk result ((q : Stored) → is_ready self.new q ≡ (same_object q object || is_ready self.old q)) }
        ensures numbers { (q : Stored) → number self.new q ≡ number self.old q }
        ensures err { OnErr result (self.new ≡ self.old) }
        ensures rest { self.new ≡ record self.old { numbers = self.new.numbers } }
    {
        self.tally.make_ready(object)
    }

    // Adds one to the object's number.
    fn add_one(&mut self, object: Object)
        requires ready { IsTrue (is_ready self.old object) }
        requires below { number self.old object < 2 ^ 32 - 1 }
        ensures numbers { (q : Stored) → number self.new q ≡ number self.old q + one_if (same_object q object) }
        ensures ready { (q : Stored) → is_ready self.new q ≡ is_ready self.old q }
        ensures rest { self.new ≡ record self.old { numbers = self.new.numbers } }
    {
        self.tally.add_one(object);
    }

    // Takes one from the object's number.
    fn take_one(&mut self, object: Object)
        requires ready { IsTrue (is_ready self.old object) }
        requires above { 0 < number self.old object }
        ensures numbers { (q : Stored) → number self.old q ≡ number self.new q + one_if (same_object q object) }
        ensures ready { (q : Stored) → is_ready self.new q ≡ is_ready self.old q }
        ensures rest { self.new ≡ record self.old { numbers = self.new.numbers } }
    {
        let left = self.tally.take_one(object);
        if left == 0 {
            match object {
                Object::Container(id) => {
                    await_session(&self.tally, id.session, &mut self.containers)
                }
                Object::Manifest(id) => {
                    await_session(&self.tally, id.session, &mut self.manifests)
                }
            }
        }
    }

    /// Adds these objects, whose numbers have room, to those that are gone.
    pub fn mark_all(&mut self, objects: &[Object])
        requires { All (λ object. IsTrue (is_ready self.old object)) objects.now }
        ensures gone { (q : Stored) → is_gone self.new q ≡ (is_gone self.old q || has_object q objects.now) }
        ensures rest { self.new ≡ record self.old { gone = self.new.gone } }
    {
        for object in objects {
            self.mark(*object);
        }
        pass_quiet(&self.tally, Kind::Containers, &mut self.containers);
        pass_quiet(&self.tally, Kind::Manifests, &mut self.manifests);
    }

    fn mark(&mut self, object: Object)
        requires { IsTrue (is_ready self.old object) }
        ensures gone { (q : Stored) → is_gone self.new q ≡ (is_gone self.old q || same_object q object) }
        ensures rest { self.new ≡ record self.old { gone = self.new.gone } }
    {
        self.tally.mark(object);
    }

    pub(crate) fn number_of(&self, object: Object) -> u32
        ensures { result ≡ number self.now object }
    {
        self.tally.number_of(object)
    }

    // Adds what is dead of one kind, until `limit` are found.
    fn add_dead(&self, kind: Kind, limit: usize, found: &mut Vec<Object>) -> Result<(), Memory>
        requires { vec_len found.old ≤ limit }
        ensures { OnOk result (found.new.items ≡ take limit (found.old.items ++ filter (is_idle self.now) (objects_of (object_of kind) (count_of kind) 0 self.now.sessions))) }
    {
        let mut next = 0;
        while found.len() < limit {
            match self.next_waiting(kind, next) {
                None => return Ok(()),
                Some(session) => {
                    self.tally.add_dead_in(kind, session, limit, found)?;
                    next = session as usize + 1;
                }
            }
        }
        Ok(())
    }

    // The first session from one on that may have a dead object of the kind.
    fn next_waiting(&self, kind: Kind, from: usize) -> Option<u32>
        ensures { MatchOption result ((q : ℕ) → from ≤ q → IsQuiet kind self.now q) (λ s. (from ≤ s) × ((q : ℕ) → from ≤ q → q < s → IsQuiet kind self.now q)) }
    {
        match kind {
            Kind::Containers => self.containers.first_from(from),
            Kind::Manifests => self.manifests.first_from(from),
        }
    }
}
