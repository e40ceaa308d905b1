// Shelves for several lanes, with a record of each lane's calls.
ghost use Rattle.std.specs.Prelude.{◌≡◌, [], Some, None, IfOk};

use crate::call_record::CallRecord;
use crate::object_map::ObjectMap;
use crate::{Shelf, Trouble};
use ss_base::Memory;
use std::alloc::Global;
use std::marker::Model;
use std::sync::{Arc, RwLock, Wait};

/// A handle on objects in memory that others work on too, behind a lock. It does not tell the objects, which
/// others may change between two calls of it. It tells its own calls: those that answered Ok, in order, also an
/// erase of an absent object. It never answers `Fault`. A read holds the lock, with other reads, for the copy of
/// its bytes.
#[derive(Drop)]
pub struct RecordShelf<'a, R: Wait + Sync> {
    rt: &'a R,
    alloc: Global,
    objects: Arc<RwLock<ObjectMap>, Global>,
    calls: CallRecord,
    reads: u64,
}

impl<'a, R: Wait + Sync> Model for RecordShelf<'a, R> {
    ghost use Rattle.outside.specs.CallRecord.{RecordState};

    ghost Value = { RecordState };

    ghost view = { λ s. record { calls = s.calls; reads = s.reads } };
}

impl<'a, R: Wait + Sync> RecordShelf<'a, R> {
    /// The first handle, on no objects. Objects and records will be kept on `alloc`.
    pub fn new(rt: &'a R, alloc: Global) -> Result<RecordShelf<'a, R>, Memory>
        ensures calls { IfOk result (λ shelf. shelf.calls ≡ record { gave = []; wrote = []; erased = [] }) }
        ensures reads { IfOk result (λ shelf. shelf.reads ≡ 0) }
    {
        let objects = Arc::new(alloc, RwLock::new(ObjectMap::new(alloc)))?;
        Ok(RecordShelf {
            rt,
            alloc,
            objects,
            calls: CallRecord::new(alloc),
            reads: 0,
        })
    }

    /// A further handle on the same objects, with an empty record.
    pub fn another(&self) -> Result<RecordShelf<'a, R>, Memory>
        ensures calls { IfOk result (λ shelf. shelf.calls ≡ record { gave = []; wrote = []; erased = [] }) }
        ensures reads { IfOk result (λ shelf. shelf.reads ≡ 0) }
    {
        Ok(RecordShelf {
            rt: self.rt,
            alloc: self.alloc,
            objects: Arc::try_clone(&self.objects)?,
            calls: CallRecord::new(self.alloc),
            reads: 0,
        })
    }

    /// The calls of this handle that answered Ok.
    pub(crate) fn calls(&self) -> &CallRecord
        ensures { result.now ≡ self.now.calls }
    {
        &self.calls
    }
}

impl<R: Wait + Sync> Shelf for RecordShelf<'_, R> {
    ghost held = { λ _. None };

    ghost gave = { λ s. Some s.calls.gave };

    ghost wrote = { λ s. Some s.calls.wrote };

    ghost erased = { λ s. Some s.calls.erased };

    ghost reads = { λ s. s.reads };

    ghost faults = { λ _. 0 };

    fn has(&mut self, name: &str) -> Result<bool, Trouble> {
        Ok(self.objects.read(self.rt).get(name).is_some())
    }

    fn read(&mut self, alloc: Global, name: &str, at: u64, max: usize) -> Result<Vec<u8>, Trouble> {
        self.reads = self.reads.wrapping_add(1);
        Ok(
            self.calls
                .read(self.rt, &self.objects, alloc, name, at, max)?,
        )
    }

    fn create(&mut self, name: &str, bytes: &[u8]) -> Result<(), Trouble> {
        Ok(self.calls.create(self.rt, &self.objects, name, bytes)?)
    }

    fn append(&mut self, name: &str, bytes: &[u8]) -> Result<(), Trouble> {
        Ok(self.calls.append(self.rt, &self.objects, name, bytes)?)
    }

    fn erase(&mut self, name: &str) -> Result<(), Trouble> {
        Ok(self.calls.erase(self.rt, &self.objects, name)?)
    }
}
