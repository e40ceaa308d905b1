// What a lane of a test has, and what it does again and again.
ghost use Rattle.std.specs.Prelude.{◌≡◌};

use depot::Depot;
use manifest_cache::ManifestCache;
use outside::{MemShelf, OpenGate, RecordShelf, Shelf};
use restore::restore_shared;
use session::backup_shared;
use ss_base::StreamName;
use std::alloc::Global;
use std::sync::Wait;
use store_shared::{Pass, Store};

// What a lane does besides, each time that it backs its stream up and deletes it.
#[derive(Clone, Copy)]
pub(crate) enum Work {
    // It restores the stream before it deletes it.
    Restore,
    // It reclaims what nothing needs once the stream is deleted.
    Reclaim,
}

// A lane with a pass, its number, its files, of which `in` is its stream, a handle on the depot's objects, the name that
// it backs its stream up under, and its work.
#[derive(Drop)]
pub(crate) struct Lane<'a, R: Wait + Sync> {
    pub pass: Pass,
    pub number: u32,
    pub files: MemShelf,
    pub objects: RecordShelf<'a, R>,
    pub name: StreamName,
    pub work: Work,
}

fn are_equal(files: &MemShelf) -> bool {
    let Some(input) = files.get("in") else {
        return false;
    };
    let Some(output) = files.get("out") else {
        return false;
    };
    input == output
}

// Where this is the lane's work, restores the stream and erases what was written. Answers whether it came back.
fn restores<R: Wait + Sync>(
    rt: &R,
    alloc: Global,
    store: &Store<8, 8>,
    pass: Pass,
    lane: (u32, StreamName, Work),
    files: &mut MemShelf,
    depot: &mut Depot<'_, RecordShelf<'_, R>>,
) -> (Pass, bool)
    requires { pass.turns ≡ store.now }
    ensures { result.0.turns ≡ store.now }
{
    let (number, name, work) = lane;
    let Work::Restore = work else {
        return (pass, true);
    };
    let (pass, restored) = restore_shared(
        alloc, store, rt, pass, number, &OpenGate, files, name, "out", depot,
    );
    let came_back = restored.is_ok() && are_equal(files);
    let erased = files.erase("out");
    (pass, came_back && erased.is_ok())
}

// Where this is the lane's work, has what a reclaim gives over removed. Answers whether no call failed.
fn reclaims<R: Wait + Sync>(
    rt: &R,
    alloc: Global,
    store: &Store<8, 8>,
    pass: Pass,
    work: Work,
    depot: &mut Depot<'_, RecordShelf<'_, R>>,
) -> (Pass, bool)
    requires { pass.turns ≡ store.now }
    ensures { result.0.turns ≡ store.now }
{
    let Work::Reclaim = work else {
        return (pass, true);
    };
    let (pass, answer) = store.reclaim(rt, alloc, pass);
    let Ok(removals) = answer else {
        return (pass, false);
    };
    let mut all = true;
    for removal in removals {
        all = depot.remove(alloc, removal).is_ok() && all;
    }
    (pass, all)
}

// Backs the stream up and deletes it, and does the lane's work. Answers whether all of it went well.
fn comes_and_goes<R: Wait + Sync>(
    rt: &R,
    alloc: Global,
    store: &Store<8, 8>,
    pass: Pass,
    lane: (u32, StreamName, Work),
    files: &mut MemShelf,
    depot: &mut Depot<'_, RecordShelf<'_, R>>,
    cache: &mut ManifestCache,
) -> (Pass, bool)
    requires { pass.turns ≡ store.now }
    ensures { result.0.turns ≡ store.now }
{
    let (number, name, work) = lane;
    let (pass, stored) = backup_shared(
        alloc, store, rt, pass, number, &OpenGate, files, "in", name, depot, cache,
    );
    let (pass, came_back) = restores(rt, alloc, store, pass, lane, files, depot);
    let (pass, deleted) = store.delete(rt, pass, name);
    let (pass, reclaimed) = reclaims(rt, alloc, store, pass, work, depot);
    (
        pass,
        stored.is_ok() && came_back && deleted.is_ok() && reclaimed,
    )
}

// So often; answers whether all of it went well each time.
pub(crate) fn repeats<R: Wait + Sync>(
    rt: &R,
    alloc: Global,
    store: &Store<8, 8>,
    lane: Lane<'_, R>,
    times: u32,
) -> (Pass, bool)
    requires { lane.pass.turns ≡ store.now }
    ensures { result.0.turns ≡ store.now }
{
    let Lane {
        mut pass,
        number,
        mut files,
        mut objects,
        name,
        work,
    } = lane;
    let Ok(mut cache) = ManifestCache::new(alloc, 64) else {
        return (pass, false);
    };
    let mut depot = Depot::over(&mut objects);
    let mut all = true;
    for _ in 0..times {
        let (back, went) = comes_and_goes(
            rt,
            alloc,
            store,
            pass,
            (number, name, work),
            &mut files,
            &mut depot,
            &mut cache,
        );
        pass = back;
        all = all && went;
    }
    (pass, all)
}
