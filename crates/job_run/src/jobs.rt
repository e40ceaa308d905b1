// One job.
ghost use Rattle.outside.specs.Views.{shelf_view};
ghost use Rattle.job_run.specs.Jobs.{JobDone, CommandDone, KeepsCache};

use crate::backups::run_backup;
use crate::deletions::run_delete;
use crate::reclaiming::{run_reclaim, run_reclaims};
use crate::restores::run_restore;
use crate::totals::run_stat;
use job_script::JobKind;
use manifest_cache::ManifestCache;
use outside::Shelf;
use report::JobAnswer;
use std::alloc::Global;
use store_core::State;

/// Does a job as this author, and answers what it answers. A backup keeps the bytes of a file of `files` in `depot`; a
/// restore writes a stream into one; a delete gives a name free; a reclaim gives over at most 16 objects that nothing
/// needs, and tries to erase each of them once; a stat tells the totals. A backup asks `cache` for manifests before it reads
/// them, and puts in those that it read; no other job changes it. The entries of the job stand in the state behind
/// those before.
pub fn run_job<const L: usize, const M: usize, F: Shelf, K: Shelf>(
    alloc: Global,
    state: &mut State<L, M>,
    author: u32,
    kind: &JobKind,
    files: &mut F,
    depot: &mut K,
    cache: &mut ManifestCache,
) -> JobAnswer
    ensures done { JobDone L M author kind.now state.old state.new
        (record { files = shelf_view ⟦<F as Shelf>⟧ files.old; depot = shelf_view ⟦<K as Shelf>⟧ depot.old })
        (record { files = shelf_view ⟦<F as Shelf>⟧ files.new; depot = shelf_view ⟦<K as Shelf>⟧ depot.new })
        cache.old.entries cache.new.entries result }
    ensures cache { KeepsCache kind.now cache.old.entries cache.new.entries }
{
    match kind {
        JobKind::Backup { input, name } => {
            run_backup(alloc, state, author, input, *name, files, depot, cache)
        }
        JobKind::Restore { name, output } => {
            run_restore(alloc, state, author, *name, output, files, depot)
        }
        JobKind::Delete { name } => run_delete(state, author, *name),
        JobKind::Reclaim => run_reclaim(alloc, state, author, depot),
        JobKind::Stat => run_stat(state, author),
    }
}

/// The same for a command: it reclaims until a Reclaim gives over fewer than 16 objects, is refused, or has an erase
/// that fails.
pub fn run_command<const L: usize, const M: usize, F: Shelf, K: Shelf>(
    alloc: Global,
    state: &mut State<L, M>,
    author: u32,
    kind: &JobKind,
    files: &mut F,
    depot: &mut K,
    cache: &mut ManifestCache,
) -> JobAnswer
    ensures done { CommandDone L M author kind.now state.old state.new
        (record { files = shelf_view ⟦<F as Shelf>⟧ files.old; depot = shelf_view ⟦<K as Shelf>⟧ depot.old })
        (record { files = shelf_view ⟦<F as Shelf>⟧ files.new; depot = shelf_view ⟦<K as Shelf>⟧ depot.new })
        cache.old.entries cache.new.entries result }
    ensures cache { KeepsCache kind.now cache.old.entries cache.new.entries }
{
    match kind {
        JobKind::Reclaim => run_reclaims(alloc, state, author, depot),
        _ => run_job(alloc, state, author, kind, files, depot, cache),
    }
}
