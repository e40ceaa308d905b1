// What nothing needs any more is given over to be removed.
ghost use Rattle.std.specs.Prelude.{◌≡◌, IfOk};
ghost use Rattle.store_core.specs.Answers.{ReclaimAnswer};

use crate::{PointFault, State};
use history::{Items, Point};
use ss_base::{Memory, Object};
use std::alloc::Global;
use std::marker::Model;

/// An object that a history gave over to be removed. `State::reclaim` alone makes one, and it can't be copied, so who
/// has it may erase the object, once.
#[derive(Debug, Drop)]
pub struct Removal {
    object: Object,
}

impl Model for Removal {
    ghost use Rattle.ss_base.specs.declared.object.Object.{Object};

    ghost Value = { Object };

    ghost view = { λ r. r.object };
}

/// The object.
pub fn removal_object(removal: &Removal) -> Object
    ensures { result ≡ removal.now }
{
    removal.object
}

fn removals(alloc: Global, objects: &[Object]) -> Result<Vec<Removal>, Memory>
    ensures { IfOk result (λ removals. removals.items ≡ objects.now) }
{
    let mut removals = Vec::new(alloc);
    for object in objects {
        removals.push(Removal { object: *object })?;
    }
    Ok(removals)
}

impl<const L: usize, const M: usize> State<L, M> {
    /// Gives the first 16 objects, at most, that nothing needs over to be removed, each as a `Removal`, and records
    /// them. `Full`: with the entry the limits would be broken. After an Err all is as before.
    pub fn reclaim(&mut self, alloc: Global, author: u32) -> Result<Vec<Removal>, PointFault>
        ensures { ReclaimAnswer self.old self.new author result }
    {
        let Ok(objects) = self.journal().erasable(alloc) else {
            return Err(PointFault::Memory);
        };
        let Ok(removals) = removals(alloc, objects.as_slice()) else {
            return Err(PointFault::Memory);
        };
        let point = Point::Reclaim {
            objects: Items::new(objects),
        };
        match self.add(author, point) {
            Ok(()) => Ok(removals),
            Err(PointFault::Full) => Err(PointFault::Full),
            Err(PointFault::Memory) => Err(PointFault::Memory),
        }
    }
}
