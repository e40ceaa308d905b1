// A shelf in memory.
ghost use Rattle.std.specs.Prelude.{◌≡◌, ◌≤◌, ◌++◌, Some, None, vec_len, IfOk, OnOk, OnErr};
ghost use Rattle.std.specs.Option.{option_copied};
ghost use Rattle.std.specs.FinMap as map;
ghost use Rattle.outside.specs.CallPlan.{planned, GoesByPlan};
ghost use Rattle.outside.specs.Faults.{HasCause};
ghost use Rattle.outside.specs.Shelf.{bytes_of, part_of, next_read};

use crate::call_plan::CallPlan;
use crate::object_map::ObjectMap;
use crate::{Shelf, Trouble};
use ss_base::Memory;
use std::alloc::Global;
use std::marker::Model;

/// A shelf in memory. The calls of [`Shelf`] on it are counted from 1, and a call whose number is in `fails`
/// answers `Fault` and changes nothing. It tells its objects and keeps no record.
#[derive(Drop)]
pub struct MemShelf {
    objects: ObjectMap,
    reads: u64,
    plan: CallPlan,
}

impl Model for MemShelf {
    ghost use Rattle.outside.specs.MemShelf.{ShelfState, state_code};

    ghost Value = { ShelfState };

    ghost coded = { state_code };

    ghost view = { λ s. record { held = s.objects; reads = s.reads; plan = s.plan } };
}

impl MemShelf {
    /// An empty shelf whose calls with these numbers fail. Its objects will be kept on `alloc`.
    pub fn new(alloc: Global, fails: Vec<u32>) -> MemShelf
        ensures held { result.held ≡ map.empty }
        ensures reads { result.reads ≡ 0 }
        ensures plan { result.plan ≡ planned fails.items }
    {
        MemShelf {
            objects: ObjectMap::new(alloc),
            reads: 0,
            plan: CallPlan::new(fails),
        }
    }

    /// The object's bytes, where it is there. This is no call of [`Shelf`].
    pub fn get(&self, name: &str) -> Option<&[u8]>
        ensures { option_copied result ≡ map.get self.now.held name.now }
    {
        self.objects.get(name)
    }

    /// Makes the object hold exactly these bytes. This is no call of [`Shelf`].
    pub fn set(&mut self, name: &str, bytes: &[u8]) -> Result<(), Memory>
        ensures ok { OnOk result (self.new ≡ record self.old { held = map.insert self.old.held name.now bytes.now }) }
        ensures err { OnErr result (self.new ≡ self.old) }
    {
        self.objects.put(name, bytes)
    }
}

impl Shelf for MemShelf {
    ghost held = { λ s. Some s.held };

    ghost gave = { λ _. None };

    ghost wrote = { λ _. None };

    ghost erased = { λ _. None };

    ghost reads = { λ s. s.reads };

    ghost faults = { λ s. s.plan.faults };

    fn has(&mut self, name: &str) -> Result<bool, Trouble>
        ensures answer { IfOk result (λ there. there ≡ map.contains_key self.old.held name.now) }
        ensures held { self.new.held ≡ self.old.held }
        ensures reads { self.new.reads ≡ self.old.reads }
        ensures plan { GoesByPlan self.old.plan self.new.plan result }
        ensures cause { HasCause self.old.plan.faults self.new.plan.faults result }
    {
        if self.plan.next_fails() {
            return Err(Trouble::Fault);
        }
        Ok(self.objects.get(name).is_some())
    }

    fn read(&mut self, alloc: Global, name: &str, at: u64, max: usize) -> Result<Vec<u8>, Trouble>
        ensures most { IfOk result (λ bytes. vec_len bytes ≤ max) }
        ensures bytes { IfOk result (λ bytes. bytes.items ≡ part_of (bytes_of self.old.held name.now) at max) }
        ensures held { self.new.held ≡ self.old.held }
        ensures reads { self.new.reads ≡ next_read self.old.reads }
        ensures plan { GoesByPlan self.old.plan self.new.plan result }
        ensures cause { HasCause self.old.plan.faults self.new.plan.faults result }
    {
        self.reads = self.reads.wrapping_add(1);
        if self.plan.next_fails() {
            return Err(Trouble::Fault);
        }
        Ok(self.objects.part_of(name, at, max).to_vec(alloc)?)
    }

    fn create(&mut self, name: &str, bytes: &[u8]) -> Result<(), Trouble>
        ensures ok { OnOk result (self.new.held ≡ map.insert self.old.held name.now bytes.now) }
        ensures err { OnErr result (self.new.held ≡ self.old.held) }
        ensures reads { self.new.reads ≡ self.old.reads }
        ensures plan { GoesByPlan self.old.plan self.new.plan result }
        ensures cause { HasCause self.old.plan.faults self.new.plan.faults result }
    {
        if self.plan.next_fails() {
            return Err(Trouble::Fault);
        }
        self.objects.put(name, bytes)?;
        Ok(())
    }

    fn append(&mut self, name: &str, bytes: &[u8]) -> Result<(), Trouble>
        ensures ok { OnOk result (self.new.held ≡ map.insert self.old.held name.now (bytes_of self.old.held name.now ++ bytes.now)) }
        ensures err { OnErr result (self.new.held ≡ self.old.held) }
        ensures reads { self.new.reads ≡ self.old.reads }
        ensures plan { GoesByPlan self.old.plan self.new.plan result }
        ensures cause { HasCause self.old.plan.faults self.new.plan.faults result }
    {
        if self.plan.next_fails() {
            return Err(Trouble::Fault);
        }
        self.objects.add(name, bytes)?;
        Ok(())
    }

    fn erase(&mut self, name: &str) -> Result<(), Trouble>
        ensures ok { OnOk result (self.new.held ≡ map.remove self.old.held name.now) }
        ensures err { OnErr result (self.new.held ≡ self.old.held) }
        ensures reads { self.new.reads ≡ self.old.reads }
        ensures plan { GoesByPlan self.old.plan self.new.plan result }
        ensures cause { HasCause self.old.plan.faults self.new.plan.faults result }
    {
        if self.plan.next_fails() {
            return Err(Trouble::Fault);
        }
        self.objects.remove(name);
        Ok(())
    }
}
