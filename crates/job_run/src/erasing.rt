// Objects that were given over are erased.
ghost use Rattle.std.specs.Prelude.{◌≡◌};
ghost use Rattle.depot.specs.Seen.{shelf_of, seen};
ghost use Rattle.job_run.specs.Erasing.{worse, AreErased};

use depot::Depot;
use outside::{Shelf, Trouble};
use std::alloc::Global;
use store_core::Removal;

/// Tries to erase each object once, in order, and answers the trouble that was met: want of memory, or a fault where
/// there was no want of memory.
pub(crate) fn erase_all<K: Shelf>(
    alloc: Global,
    depot: &mut Depot<'_, K>,
    removals: Vec<Removal>,
) -> Option<Trouble>
    ensures same_reference { (shelf_of depot.new).ghost_name ≡ (shelf_of depot.old).ghost_name }
    ensures erased { AreErased (seen ⟦<K as Shelf>⟧ depot.old) (seen ⟦<K as Shelf>⟧ depot.new) removals.items result }
{
    let mut met = None;
    for removal in removals {
        if let Err((_, trouble)) = depot.remove(alloc, removal) {
            met = worse(met, trouble);
        }
    }
    met
}

fn worse(met: Option<Trouble>, trouble: Trouble) -> Option<Trouble>
    ensures { result ≡ worse met (Some trouble) }
{
    match met {
        Some(Trouble::Memory) => met,
        _ => Some(trouble),
    }
}
