// The calls of one handle on shared objects.
ghost use Rattle.std.specs.Prelude.{◌≡◌, ◌<◌, ◌≤◌, ◌++◌, ◌∷◌, [], map, vec_len, vec_capacity, string_bytes, IfOk, OnOk, OnErr};
ghost use Rattle.outside.specs.Shelf.{read_of, write_of};
ghost use Rattle.outside.specs.CallRecord.{given_of, written_of};

use crate::object_map::ObjectMap;
use ss_base::Memory;
use std::alloc::Global;
use std::marker::Model;
use std::sync::{RwLock, Wait};

/// A read that answered Ok.
#[derive(Drop)]
pub struct ReadCall {
    pub name: String,
    pub at: u64,
    pub max: usize,
    pub bytes: Vec<u8>,
}

/// A create or an append that answered Ok.
#[derive(Drop)]
pub struct WriteCall {
    pub name: String,
    pub bytes: Vec<u8>,
}

/// The calls that answered Ok, in order. A call takes the lock for its work on the objects alone, and room for its
/// record is made before, so that each call that is done is recorded, and no other is.
#[derive(Drop)]
pub struct CallRecord {
    alloc: Global,
    gave: Vec<ReadCall>,
    wrote: Vec<WriteCall>,
    erased: Vec<String>,
}

impl Model for CallRecord {
    ghost use Rattle.std.specs.Prelude.{map, string_bytes};
    ghost use Rattle.outside.specs.CallRecord.{Calls, given_of, written_of};

    ghost Value = { Calls };

    ghost view = { λ r. record { gave = map given_of r.gave.items; wrote = map written_of r.wrote.items; erased = map string_bytes r.erased.items } };
}

impl CallRecord {
    /// No calls. Records will be kept on `alloc`.
    pub fn new(alloc: Global) -> CallRecord
        ensures { result ≡ record { gave = []; wrote = []; erased = [] } }
    {
        CallRecord {
            alloc,
            gave: Vec::new(alloc),
            wrote: Vec::new(alloc),
            erased: Vec::new(alloc),
        }
    }

    /// The reads.
    pub fn gave(&self) -> &[ReadCall]
        ensures { map given_of result.now ≡ self.now.gave }
    {
        &self.gave
    }

    /// The creates and appends.
    pub fn wrote(&self) -> &[WriteCall]
        ensures { map written_of result.now ≡ self.now.wrote }
    {
        &self.wrote
    }

    /// The names of the erases.
    pub fn erased(&self) -> &[String]
        ensures { map string_bytes result.now ≡ self.now.erased }
    {
        &self.erased
    }

    /// The object's bytes from the place `at` on, as many as `max` or to the end.
    #[tactic(auto, using(crate::proofs::RecordLaws::map_more))]
    pub fn read<R: Wait>(
        &mut self,
        rt: &R,
        objects: &RwLock<ObjectMap>,
        alloc: Global,
        name: &str,
        at: u64,
        max: usize,
    ) -> Result<Vec<u8>, Memory>
        ensures most { IfOk result (λ bytes. vec_len bytes ≤ max) }
        ensures ok { IfOk result (λ bytes. self.new ≡ record self.old { gave = self.old.gave ++ read_of name.now at max bytes.items ∷ [] }) }
        ensures err { OnErr result (self.new ≡ self.old) }
    {
        let bytes = copy_part(rt, objects, alloc, name, at, max)?;
        let call = ReadCall {
            name: String::from_str(self.alloc, name)?,
            at,
            max,
            bytes: bytes.to_vec(self.alloc)?,
        };
        self.gave.push(call)?;
        Ok(bytes)
    }

    /// Makes the object hold exactly these bytes.
    #[tactic(auto, using(crate::proofs::RecordLaws::map_more))]
    pub fn create<R: Wait>(
        &mut self,
        rt: &R,
        objects: &RwLock<ObjectMap>,
        name: &str,
        bytes: &[u8],
    ) -> Result<(), Memory>
        ensures ok { OnOk result (self.new ≡ record self.old { wrote = self.old.wrote ++ write_of name.now bytes.now ∷ [] }) }
        ensures err { OnErr result (self.new ≡ self.old) }
    {
        let call = write_call(self.alloc, name, bytes)?;
        self.wrote.reserve(1)?;
        objects.write(rt).put(name, bytes)?;
        push_reserved(&mut self.wrote, call);
        Ok(())
    }

    /// Adds these bytes at the object's end, which is made where it is absent.
    #[tactic(auto, using(crate::proofs::RecordLaws::map_more))]
    pub fn append<R: Wait>(
        &mut self,
        rt: &R,
        objects: &RwLock<ObjectMap>,
        name: &str,
        bytes: &[u8],
    ) -> Result<(), Memory>
        ensures ok { OnOk result (self.new ≡ record self.old { wrote = self.old.wrote ++ write_of name.now bytes.now ∷ [] }) }
        ensures err { OnErr result (self.new ≡ self.old) }
    {
        let call = write_call(self.alloc, name, bytes)?;
        self.wrote.reserve(1)?;
        objects.write(rt).add(name, bytes)?;
        push_reserved(&mut self.wrote, call);
        Ok(())
    }

    /// Takes the object away, where it is there.
    #[tactic(auto, using(crate::proofs::RecordLaws::map_more))]
    pub fn erase<R: Wait>(
        &mut self,
        rt: &R,
        objects: &RwLock<ObjectMap>,
        name: &str,
    ) -> Result<(), Memory>
        ensures ok { OnOk result (self.new ≡ record self.old { erased = self.old.erased ++ name.now ∷ [] }) }
        ensures err { OnErr result (self.new ≡ self.old) }
    {
        let call = String::from_str(self.alloc, name)?;
        self.erased.reserve(1)?;
        objects.write(rt).remove(name);
        push_reserved(&mut self.erased, call);
        Ok(())
    }
}

// A copy of a part of an object, for which alone the lock is held.
fn copy_part<R: Wait>(
    rt: &R,
    objects: &RwLock<ObjectMap>,
    alloc: Global,
    name: &str,
    at: u64,
    max: usize,
) -> Result<Vec<u8>, Memory>
    ensures { IfOk result (λ bytes. vec_len bytes ≤ max) }
{
    let objects = objects.read(rt);
    Ok(objects.part_of(name, at, max).to_vec(alloc)?)
}

fn write_call(alloc: Global, name: &str, bytes: &[u8]) -> Result<WriteCall, Memory>
    ensures { IfOk result (λ call. written_of call ≡ write_of name.now bytes.now) }
{
    Ok(WriteCall {
        name: String::from_str(alloc, name)?,
        bytes: bytes.to_vec(alloc)?,
    })
}

// Adds a call for which there is room.
fn push_reserved<T: Drop>(calls: &mut Vec<T>, call: T)
    requires { vec_len calls.old < vec_capacity calls.old }
    ensures { calls.new.items ≡ calls.old.items ++ call ∷ [] }
{
    match calls.push(call) {
        Ok(()) => {}
        Err(_) => unreachable!(),
    }
}
