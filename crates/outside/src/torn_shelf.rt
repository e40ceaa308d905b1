// A shelf in memory of which one call fails halfway.
ghost use Rattle.std.specs.Prelude.{◌≡◌, ◌≤◌, ◌++◌, [], ◌∷◌, Some, None, take, vec_len, IfOk, OnOk, OnErr, IsErrOf};
ghost use Rattle.std.specs.Option.{option_copied};
ghost use Rattle.std.specs.FinMap as map;
ghost use Rattle.outside.specs.CallPlan.{planned, count_up};
ghost use Rattle.outside.specs.Faults.{Rose, HasCause};
ghost use Rattle.outside.specs.Shelf.{bytes_of, part_of, next_read, CreateLeaves, AppendLeaves};
ghost use Rattle.outside.specs.TornShelf.{GoesByOnePlan};

use crate::object_map::ObjectMap;
use crate::one_fault::OneFault;
use crate::{Shelf, Trouble};
use ss_base::Memory;
use std::alloc::Global;
use std::marker::Model;

/// A shelf in memory, as [`crate::MemShelf`] is. The calls of [`Shelf`] on it are counted from 1, and the call with
/// one number answers `Fault`. Where that is a create or an append, a front of its bytes is done first; a want of
/// memory there is answered as `Memory`, and then nothing is done. It tells its objects and keeps no record.
#[derive(Drop)]
pub struct TornShelf {
    objects: ObjectMap,
    reads: u64,
    plan: OneFault,
    keep: usize,
}

impl Model for TornShelf {
    ghost use Rattle.outside.specs.TornShelf.{TornState, torn_code};

    ghost Value = { TornState };

    ghost coded = { torn_code };

    ghost view = { λ s. record { held = s.objects; reads = s.reads; plan = s.plan; keep = s.keep } };
}

impl TornShelf {
    /// An empty shelf whose call number `at` fails. A create or an append that fails so does the first `keep` bytes
    /// of its piece, or all where it is shorter. Its objects will be kept on `alloc`.
    pub fn new(alloc: Global, at: u32, keep: usize) -> TornShelf
        ensures held { result.held ≡ map.empty }
        ensures reads { result.reads ≡ 0 }
        ensures plan { result.plan ≡ planned (at ∷ []) }
        ensures keep { result.keep ≡ keep }
    {
        TornShelf {
            objects: ObjectMap::new(alloc),
            reads: 0,
            plan: OneFault::new(at),
            keep,
        }
    }

    /// The object's bytes, where it is there. This is no call of [`Shelf`].
    pub fn get(&self, name: &str) -> Option<&[u8]>
        ensures { option_copied result ≡ map.get self.now.held name.now }
    {
        self.objects.get(name)
    }

    /// Makes the object hold exactly these bytes. This is no call of [`Shelf`].
    pub fn set(&mut self, name: &str, bytes: &[u8]) -> Result<(), Memory>
        ensures ok { OnOk result (self.new ≡ record self.old { held = map.insert self.old.held name.now bytes.now }) }
        ensures err { OnErr result (self.new ≡ self.old) }
    {
        self.objects.put(name, bytes)
    }

    // Counts the fault of the call that fails.
    fn fault(&mut self) -> Trouble
        ensures fault { result ≡ Trouble.Fault }
        ensures counted { self.new ≡ record self.old { plan = record self.old.plan { faults = count_up self.old.plan.faults } } }
        ensures later { self.old.plan.faults ≤ self.new.plan.faults }
        ensures rose { Rose self.old.plan.faults self.new.plan.faults }
    {
        self.plan.fail();
        Trouble::Fault
    }
}

impl Shelf for TornShelf {
    ghost held = { λ s. Some s.held };

    ghost gave = { λ _. None };

    ghost wrote = { λ _. None };

    ghost erased = { λ _. None };

    ghost reads = { λ s. s.reads };

    ghost faults = { λ s. s.plan.faults };

    fn has(&mut self, name: &str) -> Result<bool, Trouble>
        ensures answer { IfOk result (λ there. there ≡ map.contains_key self.old.held name.now) }
        ensures held { self.new.held ≡ self.old.held }
        ensures keep { self.new.keep ≡ self.old.keep }
        ensures reads { self.new.reads ≡ self.old.reads }
        ensures plan { GoesByOnePlan self.old.plan self.new.plan result }
        ensures cause { HasCause self.old.plan.faults self.new.plan.faults result }
    {
        if self.plan.next_fails() {
            return Err(self.fault());
        }
        Ok(self.objects.get(name).is_some())
    }

    fn read(&mut self, alloc: Global, name: &str, at: u64, max: usize) -> Result<Vec<u8>, Trouble>
        ensures most { IfOk result (λ bytes. vec_len bytes ≤ max) }
        ensures bytes { IfOk result (λ bytes. bytes.items ≡ part_of (bytes_of self.old.held name.now) at max) }
        ensures held { self.new.held ≡ self.old.held }
        ensures keep { self.new.keep ≡ self.old.keep }
        ensures reads { self.new.reads ≡ next_read self.old.reads }
        ensures plan { GoesByOnePlan self.old.plan self.new.plan result }
        ensures cause { HasCause self.old.plan.faults self.new.plan.faults result }
    {
        self.reads = self.reads.wrapping_add(1);
        if self.plan.next_fails() {
            return Err(self.fault());
        }
        Ok(self.objects.part_of(name, at, max).to_vec(alloc)?)
    }

    fn create(&mut self, name: &str, bytes: &[u8]) -> Result<(), Trouble>
        ensures ok { OnOk result (self.new.held ≡ map.insert self.old.held name.now bytes.now) }
        ensures fault { IsErrOf result Trouble.Fault → self.new.held ≡ map.insert self.old.held name.now (take self.old.keep bytes.now) }
        ensures memory { IsErrOf result Trouble.Memory → self.new.held ≡ self.old.held }
        ensures torn { OnErr result (CreateLeaves (Some self.old.held) (Some self.new.held) name.now bytes.now) }
        ensures keep { self.new.keep ≡ self.old.keep }
        ensures reads { self.new.reads ≡ self.old.reads }
        ensures plan { GoesByOnePlan self.old.plan self.new.plan result }
        ensures cause { HasCause self.old.plan.faults self.new.plan.faults result }
    {
        if self.plan.next_fails() {
            self.objects.put(name, front(bytes, self.keep))?;
            return Err(self.fault());
        }
        self.objects.put(name, bytes)?;
        Ok(())
    }

    fn append(&mut self, name: &str, bytes: &[u8]) -> Result<(), Trouble>
        ensures ok { OnOk result (self.new.held ≡ map.insert self.old.held name.now (bytes_of self.old.held name.now ++ bytes.now)) }
        ensures fault { IsErrOf result Trouble.Fault → self.new.held ≡ map.insert self.old.held name.now (bytes_of self.old.held name.now ++ take self.old.keep bytes.now) }
        ensures memory { IsErrOf result Trouble.Memory → self.new.held ≡ self.old.held }
        ensures torn { OnErr result (AppendLeaves (Some self.old.held) (Some self.new.held) name.now bytes.now) }
        ensures keep { self.new.keep ≡ self.old.keep }
        ensures reads { self.new.reads ≡ self.old.reads }
        ensures plan { GoesByOnePlan self.old.plan self.new.plan result }
        ensures cause { HasCause self.old.plan.faults self.new.plan.faults result }
    {
        if self.plan.next_fails() {
            self.objects.add(name, front(bytes, self.keep))?;
            return Err(self.fault());
        }
        self.objects.add(name, bytes)?;
        Ok(())
    }

    fn erase(&mut self, name: &str) -> Result<(), Trouble>
        ensures ok { OnOk result (self.new.held ≡ map.remove self.old.held name.now) }
        ensures err { OnErr result (self.new.held ≡ self.old.held) }
        ensures keep { self.new.keep ≡ self.old.keep }
        ensures reads { self.new.reads ≡ self.old.reads }
        ensures plan { GoesByOnePlan self.old.plan self.new.plan result }
        ensures cause { HasCause self.old.plan.faults self.new.plan.faults result }
    {
        if self.plan.next_fails() {
            return Err(self.fault());
        }
        self.objects.remove(name);
        Ok(())
    }
}

// The first `keep` bytes, or all where there are fewer.
fn front(bytes: &[u8], keep: usize) -> &[u8]
    ensures { result.now ≡ take keep bytes.now }
{
    &bytes[..keep.min(bytes.len())]
}
