// A reclaim as a job.
ghost use Rattle.std.specs.Prelude.{◌≡◌};
ghost use Rattle.outside.specs.Views.{shelf_view};
ghost use Rattle.depot.specs.Seen.{shelf_of, seen};
ghost use Rattle.job_run.specs.Erasing.{ReclaimDone, ReclaimsDone, of_point, of_erases};

use crate::erasing::erase_all;
use depot::Depot;
use outside::{Shelf, Trouble};
use report::{JobAnswer, ReclaimFault};
use std::alloc::Global;
use store_core::{PointFault, State};

// How many objects a reclaim gives over at most.
const MOST_OBJECTS: usize = 16;

pub(crate) fn run_reclaim<const L: usize, const M: usize, K: Shelf>(
    alloc: Global,
    state: &mut State<L, M>,
    author: u32,
    depot: &mut K,
) -> JobAnswer
    ensures { ReclaimDone author state.old state.new (shelf_view ⟦<K as Shelf>⟧ depot.old) (shelf_view ⟦<K as Shelf>⟧ depot.new) result }
{
    let removals = match state.reclaim(alloc, author) {
        Ok(removals) => removals,
        Err(fault) => return of_point(fault),
    };
    let mut depot = Depot::over(depot);
    of_erases(erase_all(alloc, &mut depot, removals))
}

/// Reclaims until one gives over fewer than 16 objects, is refused, or has an erase that fails.
pub(crate) fn run_reclaims<const L: usize, const M: usize, K: Shelf>(
    alloc: Global,
    state: &mut State<L, M>,
    author: u32,
    depot: &mut K,
) -> JobAnswer
    ensures { ReclaimsDone author state.old state.new (shelf_view ⟦<K as Shelf>⟧ depot.old) (shelf_view ⟦<K as Shelf>⟧ depot.new) result }
{
    let mut depot = Depot::over(depot);
    reclaim_all(alloc, state, author, &mut depot)
}

fn reclaim_all<const L: usize, const M: usize, K: Shelf>(
    alloc: Global,
    state: &mut State<L, M>,
    author: u32,
    depot: &mut Depot<'_, K>,
) -> JobAnswer
    ensures same_reference { (shelf_of depot.new).ghost_name ≡ (shelf_of depot.old).ghost_name }
    ensures done { ReclaimsDone author state.old state.new (seen ⟦<K as Shelf>⟧ depot.old) (seen ⟦<K as Shelf>⟧ depot.new) result }
{
    loop {
        let removals = match state.reclaim(alloc, author) {
            Ok(removals) => removals,
            Err(fault) => return of_point(fault),
        };
        let count = removals.len();
        let met = erase_all(alloc, depot, removals);
        if met.is_some() {
            return of_erases(met);
        }
        if count < MOST_OBJECTS {
            return JobAnswer::Ok;
        }
    }
}

fn of_point(fault: PointFault) -> JobAnswer
    ensures { result ≡ of_point fault }
{
    match fault {
        PointFault::Full => JobAnswer::Reclaim(ReclaimFault::Full),
        PointFault::Memory => JobAnswer::Reclaim(ReclaimFault::Memory),
    }
}

fn of_erases(trouble: Option<Trouble>) -> JobAnswer
    ensures { result ≡ of_erases trouble }
{
    match trouble {
        None => JobAnswer::Ok,
        Some(Trouble::Fault) => JobAnswer::Reclaim(ReclaimFault::DepotFault),
        Some(Trouble::Memory) => JobAnswer::Reclaim(ReclaimFault::Memory),
    }
}
