// Each way in which an entry can break the rule of its kind, and what is allowed beside it.
use crate::OpenFault::Illegal;
use crate::cases::*;
use crate::entry_lines::*;
use history::{Entry, Items, Limits, Point};
use ss_base::Object::Container;
use ss_base::{ContainerId, ManifestId, Name};
use std::alloc::Global;
use std::test::Fail;

fn whole() -> &'static str {
    "two backups: backups 15 => opens\n\
     three segments: segments 8 => opens\n\
     two champions: champions 12 => session 2\n\
     deleted while read: reading 9 => opens"
}

#[test]
fn whole_histories(rt: HostRuntime) -> Result<(), Fail> {
    all_answered(&rt, rt.alloc(), whole())
}

fn begins() -> &'static str {
    "none, a new name: backups 0 | a0 begin zeros taken => illegal 0\n\
     none, deleted: backups 10 | a4 begin zeros taken => illegal 10\n\
     none, aborted: segments 7 | a1 begin x taken => illegal 7\n\
     unfinished: backups 1 | a1 begin zeros s1 => illegal 1\n\
     retained: backups 4 | a1 begin zeros s1 => illegal 4\n\
     too high: backups 0 | a0 begin zeros s1 => illegal 0\n\
     too high later: backups 4 | a1 begin again s2 => illegal 4\n\
     used before: backups 4 | a1 begin again s0 => illegal 4"
}

#[test]
fn begins_that_are_refused(rt: HostRuntime) -> Result<(), Fail> {
    all_answered(&rt, rt.alloc(), begins())
}

fn choices() -> &'static str {
    "not begun: backups 0 | a0 choose s0 hooks h champions - => illegal 0\n\
     finished: backups 4 | a0 choose s0 hooks h champions m0.0 => illegal 4\n\
     aborted: segments 7 | a0 choose s0 hooks h champions - => illegal 7\n\
     another author: backups 1 | a1 choose s0 hooks h champions - => illegal 1\n\
     pending: backups 2 | a0 choose s0 hooks h champions - => illegal 2\n\
     a hook twice: backups 1 | a0 choose s0 hooks h,h champions - => illegal 1\n\
     twice, apart: backups 1 | a0 choose s0 hooks h,g,h champions - => illegal 1\n\
     a first bit: backups 1 | a0 choose s0 hooks h,n champions - => illegal 1\n\
     none stands: backups 1 | a0 choose s0 hooks h champions m0.0 => illegal 1\n\
     one missing: backups 5 | a1 choose s1 hooks h champions - => illegal 5\n\
     one twice: backups 5 | a1 choose s1 hooks h champions m0.0,m0.0 => illegal 5\n\
     one elsewhere: champions 9 | a2 choose s2 hooks h champions m1.0 => illegal 9\n\
     no first: champions 9 | a2 choose s2 hooks h,g champions m0.0 => illegal 9\n\
     no second: champions 9 | a2 choose s2 hooks h,g champions m1.0 => illegal 9\n\
     order: champions 9 | a2 choose s2 hooks h,g champions m0.0,m1.0 => illegal 9"
}

#[test]
fn choices_that_are_refused(rt: HostRuntime) -> Result<(), Fail> {
    all_answered(&rt, rt.alloc(), choices())
}

fn commits() -> &'static str {
    "not begun: backups 0 | a0 commit m0.0 chunks 1 bytes 1 fresh 0 0 uses - => illegal 0\n\
     no choice: backups 1 | a0 commit m0.0 chunks 1 bytes 1 fresh 0 0 uses - => illegal 1\n\
     no more: backups 3 | a0 commit m0.1 chunks 1 bytes 1 fresh 0 0 uses - => illegal 3\n\
     finished: backups 4 | a0 commit m0.1 chunks 1 bytes 1 fresh 0 0 uses - => illegal 4\n\
     aborted: segments 7 | a0 commit m0.2 chunks 1 bytes 1 fresh 0 0 uses - => illegal 7\n\
     another author: backups 2 | a1 commit m0.0 chunks 1 bytes 1 fresh 0 0 uses - => illegal 2\n\
     another session: backups 2 | a0 commit m1.0 chunks 1 bytes 1 fresh 0 0 uses - => illegal 2\n\
     too high: backups 2 | a0 commit m0.1 chunks 1 bytes 1 fresh 0 0 uses - => illegal 2\n\
     too high later: segments 4 | a0 commit m0.2 chunks 1 bytes 1 fresh 0 0 uses - => illegal 4\n\
     used before: segments 4 | a0 commit m0.0 chunks 1 bytes 1 fresh 0 0 uses - => illegal 4"
}

#[test]
fn commits_that_are_refused(rt: HostRuntime) -> Result<(), Fail> {
    all_answered(&rt, rt.alloc(), commits())
}

fn counts() -> &'static str {
    "no chunk: backups 2 | a0 commit m0.0 chunks 0 bytes 1 fresh 0 0 uses c0.0 => illegal 2\n\
     4,097 chunks: backups 2 | a0 commit m0.0 chunks 4097 bytes 4097 fresh 0 0 uses c0.0 => illegal 2\n\
     fewer bytes than chunks: backups 2 | a0 commit m0.0 chunks 2 bytes 1 fresh 0 0 uses c0.0 => illegal 2\n\
     too many bytes: backups 2 | a0 commit m0.0 chunks 4096 bytes 45875201 fresh 0 0 uses c0.0 => illegal 2\n\
     more fresh than chunks: backups 2 | a0 commit m0.0 chunks 2 bytes 3 fresh 3 3 uses c0.0 => illegal 2\n\
     more fresh bytes than bytes: backups 2 | a0 commit m0.0 chunks 2 bytes 3 fresh 2 4 uses c0.0 => illegal 2"
}

#[test]
fn counts_that_are_refused(rt: HostRuntime) -> Result<(), Fail> {
    all_answered(&rt, rt.alloc(), counts())
}

// Uses that are not ascending, an own one with the ordinal 2^32 - 1, and those of other sessions that no champion of
// the pending choice has.
fn uses() -> &'static str {
    "order: backups 2 | a0 commit m0.0 chunks 1 bytes 1 fresh 0 0 uses c0.1,c0.0 => illegal 2\n\
     twice: backups 2 | a0 commit m0.0 chunks 1 bytes 1 fresh 0 0 uses c0.0,c0.0 => illegal 2\n\
     sessions: backups 6 | a1 commit m1.0 chunks 1 bytes 1 fresh 0 0 uses c1.0,c0.0 => illegal 6\n\
     no ordinal: backups 2 | a0 commit m0.0 chunks 1 bytes 1 fresh 0 0 uses c0.4294967295 => illegal 2\n\
     to come: backups 2 | a0 commit m0.0 chunks 1 bytes 1 fresh 0 0 uses c1.0 => illegal 2\n\
     unused: backups 6 | a1 commit m1.0 chunks 1 bytes 1 fresh 0 0 uses c0.1 => illegal 6\n\
     another's: champions 10 | a2 commit m2.0 chunks 1 bytes 1 fresh 0 0 uses c1.0 => illegal 10\n\
     earlier: champions 12 | a2 commit m2.1 chunks 1 bytes 1 fresh 0 0 uses c0.0 => illegal 12"
}

#[test]
fn uses_that_are_refused(rt: HostRuntime) -> Result<(), Fail> {
    all_answered(&rt, rt.alloc(), uses())
}

fn finishes() -> &'static str {
    "not begun: backups 0 | a0 finish s0 containers 0 => illegal 0\n\
     finished: backups 4 | a0 finish s0 containers 1 => illegal 4\n\
     aborted: segments 7 | a0 finish s0 containers 2 => illegal 7\n\
     another author: backups 3 | a1 finish s0 containers 1 => illegal 3\n\
     pending: backups 2 | a0 finish s0 containers 1 => illegal 2\n\
     an ordinal used: backups 3 | a0 finish s0 containers 0 => illegal 3\n\
     an ordinal used earlier: segments 5 | a0 finish s0 containers 1 => illegal 5"
}

#[test]
fn finishes_that_are_refused(rt: HostRuntime) -> Result<(), Fail> {
    all_answered(&rt, rt.alloc(), finishes())
}

fn aborts() -> &'static str {
    "not begun: backups 0 | a0 abort s0 containers 0 texts 0 => illegal 0\n\
     finished: backups 4 | a0 abort s0 containers 1 texts 1 => illegal 4\n\
     aborted: segments 7 | a0 abort s0 containers 2 texts 2 => illegal 7\n\
     another author: backups 3 | a1 abort s0 containers 1 texts 1 => illegal 3\n\
     an ordinal used: backups 3 | a0 abort s0 containers 0 texts 1 => illegal 3\n\
     an ordinal used earlier: segments 6 | a0 abort s0 containers 1 texts 2 => illegal 6\n\
     a text less: backups 3 | a0 abort s0 containers 1 texts 0 => illegal 3\n\
     a text more: backups 3 | a0 abort s0 containers 1 texts 2 => illegal 3\n\
     two texts more, pending: backups 2 | a0 abort s0 containers 0 texts 2 => illegal 2\n\
     a text less, pending: segments 6 | a0 abort s0 containers 2 texts 1 => illegal 6\n\
     two more of two, pending: segments 6 | a0 abort s0 containers 2 texts 4 => illegal 6"
}

#[test]
fn aborts_that_are_refused(rt: HostRuntime) -> Result<(), Fail> {
    all_answered(&rt, rt.alloc(), aborts())
}

fn deletes() -> &'static str {
    "none: backups 9 | a3 delete zeros none => illegal 9\n\
     another session: backups 9 | a3 delete zeros s1 => illegal 9\n\
     a new name: backups 0 | a3 delete zeros s0 => illegal 0\n\
     unfinished: backups 3 | a3 delete zeros s0 => illegal 3\n\
     aborted: segments 7 | a3 delete x s0 => illegal 7\n\
     deleted: backups 10 | a3 delete zeros s0 => illegal 10"
}

#[test]
fn deletes_that_are_refused(rt: HostRuntime) -> Result<(), Fail> {
    all_answered(&rt, rt.alloc(), deletes())
}

fn looks() -> &'static str {
    "none: reading 4 | a1 look x none => illegal 4\n\
     session: backups 8 | a1 look zeros r0 s1 => illegal 8\n\
     a new name: reading 0 | a1 look x r0 s0 => illegal 0\n\
     unfinished: reading 3 | a1 look x r0 s0 => illegal 3\n\
     aborted: segments 7 | a1 look x r0 s0 => illegal 7\n\
     deleted: reading 6 | a1 look x r1 s0 => illegal 6\n\
     reader too high: reading 4 | a1 look x r1 s0 => illegal 4\n\
     reader used before: reading 5 | a1 look x r0 s0 => illegal 5"
}

#[test]
fn looks_that_are_refused(rt: HostRuntime) -> Result<(), Fail> {
    all_answered(&rt, rt.alloc(), looks())
}

fn ends_of_readings() -> &'static str {
    "not begun: reading 4 | a1 done r0 => illegal 4\n\
     another reader: reading 5 | a1 done r1 => illegal 5\n\
     another author: reading 5 | a2 done r0 => illegal 5\n\
     done: reading 8 | a1 done r0 => illegal 8"
}

#[test]
fn ends_of_readings_that_are_refused(rt: HostRuntime) -> Result<(), Fail> {
    all_answered(&rt, rt.alloc(), ends_of_readings())
}

fn reclaims() -> &'static str {
    "none named: backups 10 | a4 reclaim - => illegal 10\n\
     a container less: backups 13 | a7 reclaim m1.0 => illegal 13\n\
     a manifest less: backups 13 | a7 reclaim c0.0 => illegal 13\n\
     order: reading 8 | a3 reclaim m0.0,c0.0 => illegal 8\n\
     used: backups 10 | a4 reclaim c0.0,m0.0 => illegal 10\n\
     retained: backups 9 | a4 reclaim m0.0 => illegal 9\n\
     unfinished: segments 6 | a1 reclaim c0.0 => illegal 6\n\
     being read: reading 6 | a3 reclaim c0.0,m0.0 => illegal 6\n\
     unknown: backups 10 | a4 reclaim m0.0,m0.1 => illegal 10\n\
     twice: backups 10 | a4 reclaim m0.0,m0.0 => illegal 10\n\
     named before: backups 11 | a4 reclaim m0.0 => illegal 11"
}

#[test]
fn reclaims_that_are_refused(rt: HostRuntime) -> Result<(), Fail> {
    all_answered(&rt, rt.alloc(), reclaims())
}

fn totals_given() -> &'static str {
    "streams: backups 8 | a2 stat streams 1 bytes 1538 fresh 257 containers 1 reclaimed 0 entries 8 => illegal 8\n\
     bytes: backups 8 | a2 stat streams 2 bytes 1537 fresh 257 containers 1 reclaimed 0 entries 8 => illegal 8\n\
     fresh: backups 8 | a2 stat streams 2 bytes 1538 fresh 256 containers 1 reclaimed 0 entries 8 => illegal 8\n\
     containers: backups 8 | a2 stat streams 2 bytes 1538 fresh 257 containers 2 reclaimed 0 entries 8 => illegal 8\n\
     reclaimed: backups 8 | a2 stat streams 2 bytes 1538 fresh 257 containers 1 reclaimed 1 entries 8 => illegal 8\n\
     entries: backups 8 | a2 stat streams 2 bytes 1538 fresh 257 containers 1 reclaimed 0 entries 9 => illegal 8"
}

#[test]
fn totals_that_are_refused(rt: HostRuntime) -> Result<(), Fail> {
    all_answered(&rt, rt.alloc(), totals_given())
}

// Entries beside those above, kind by kind.
fn allowed() -> &'static str {
    "begin, unfinished: backups 1 | a1 begin zeros taken => session 0\n\
     begin, retained: backups 4 | a1 begin zeros taken => opens\n\
     begin, deleted: backups 10 | a4 begin zeros s2 => session 2\n\
     begin, aborted: segments 7 | a1 begin x s1 => session 1\n\
     no hooks: backups 1 | a0 choose s0 hooks - champions - => session 0\n\
     two: champions 9 | a2 choose s2 hooks h,g champions m1.0,m0.0 => session 2\n\
     no use: backups 2 | a0 commit m0.0 chunks 1 bytes 1 fresh 0 0 uses - => session 0\n\
     greatest: backups 2 | a0 commit m0.0 chunks 4096 bytes 45875200 fresh 4096 45875200 uses - => session 0\n\
     last: backups 2 | a0 commit m0.0 chunks 1 bytes 1 fresh 0 0 uses c0.4294967294 => session 0\n\
     both: backups 6 | a1 commit m1.0 chunks 1 bytes 1 fresh 0 0 uses c0.0,c1.0 => session 1\n\
     chosen: champions 12 | a2 commit m2.1 chunks 1 bytes 1 fresh 0 0 uses c1.0 => session 2\n\
     more containers: backups 3 | a0 finish s0 containers 9 => opens\n\
     above all ordinals: segments 5 | a0 finish s0 containers 2 => opens\n\
     abort at once: backups 1 | a0 abort s0 containers 0 texts 0 => opens\n\
     abort without a text: backups 2 | a0 abort s0 containers 0 texts 0 => opens\n\
     abort with one: backups 2 | a0 abort s0 containers 0 texts 1 => opens\n\
     abort with two: segments 6 | a0 abort s0 containers 2 texts 2 => opens\n\
     nothing to delete: backups 0 | a3 delete zeros none => opens\n\
     delete, unfinished: backups 3 | a3 delete zeros none => session 0\n\
     nothing to read: reading 0 | a1 look x none => opens\n\
     look, unfinished: reading 3 | a1 look x none => session 0\n\
     look, deleted: reading 6 | a1 look x none => reading 0\n\
     a second reader: reading 5 | a2 look x r1 s0 => reading 0\n\
     later totals: reading 9 | a4 stat streams 0 bytes 0 fresh 0 containers 1 reclaimed 2 entries 9 => opens"
}

#[test]
fn entries_beside_those_that_are_refused(rt: HostRuntime) -> Result<(), Fail> {
    all_answered(&rt, rt.alloc(), allowed())
}

fn distinct_hooks(alloc: Global, n: u16) -> Result<Items<Name>, Fail> {
    let mut hooks = Vec::new(alloc);
    for i in 0..n {
        let [high, low] = i.to_be_bytes();
        let mut digest = [0; 32];
        digest[0] = high;
        digest[1] = low;
        hooks.push(Name(digest))?;
    }
    Ok(Items::new(hooks))
}

#[test]
fn too_many_hooks(rt: HostRuntime) -> Result<(), Fail> {
    let alloc = rt.alloc();
    for (n, wanted) in [(4096, "session 0"), (4097, "illegal 1")] {
        let mut entries = read_history(alloc, "backups 1")?;
        entries.push(choice(alloc, distinct_hooks(alloc, n)?))?;
        assert_eq!(rt; refusal(alloc, LIMITS, entries)?, read_answer(wanted)?);
    }
    Ok(())
}

fn containers(alloc: Global, n: u32) -> Result<Vec<ContainerId>, Fail> {
    let mut ids = Vec::new(alloc);
    for ordinal in 0..n {
        ids.push(ContainerId {
            session: 0,
            ordinal,
        })?;
    }
    Ok(ids)
}

fn commit_of_uses(uses: Vec<ContainerId>) -> Entry {
    let manifest = ManifestId { session: 0, seq: 0 };
    let point = commit(manifest, [1, 1, 0, 0], Items::new(uses));
    Entry { author: 0, point }
}

#[test]
fn too_many_uses(rt: HostRuntime) -> Result<(), Fail> {
    let alloc = rt.alloc();
    for (n, wanted) in [(4096, "session 0"), (4097, "illegal 2")] {
        let mut entries = read_history(alloc, "backups 2")?;
        entries.push(commit_of_uses(containers(alloc, n)?))?;
        assert_eq!(rt; refusal(alloc, LIMITS, entries)?, read_answer(wanted)?);
    }
    Ok(())
}

fn reclaim_of_containers(alloc: Global, n: u32) -> Result<Entry, Fail> {
    let mut objects = Vec::new(alloc);
    for id in containers(alloc, n)? {
        objects.push(Container(id))?;
    }
    let objects = Items::new(objects);
    Ok(Entry {
        author: 1,
        point: Point::Reclaim { objects },
    })
}

#[test]
fn sixteen_of_seventeen(rt: HostRuntime) -> Result<(), Fail> {
    let alloc = rt.alloc();
    for (n, wanted) in [(15, "illegal 2"), (16, "opens"), (17, "illegal 2")] {
        let mut entries = read_history(alloc, "backups 1 | a0 abort s0 containers 17 texts 0")?;
        entries.push(reclaim_of_containers(alloc, n)?)?;
        assert_eq!(rt; refusal(alloc, LIMITS, entries)?, read_answer(wanted)?);
    }
    Ok(())
}

// Limits of entries and of weight, and the first entry of the reading that passes one. An unfinished session or
// reading counts as an entry more; the choice weighs 2, the commit 1.
fn limits() -> [(u32, u32, Option<u32>); 9] {
    [
        (9, 3, None),
        (8, 3, Some(8)),
        (7, 3, Some(6)),
        (6, 3, Some(5)),
        (5, 3, Some(4)),
        (3, 3, Some(2)),
        (1, 3, Some(0)),
        (9, 2, Some(2)),
        (9, 1, Some(1)),
    ]
}

#[test]
fn limits_that_are_passed(rt: HostRuntime) -> Result<(), Fail> {
    let alloc = rt.alloc();
    for (entries, weight, illegal) in limits() {
        let limits = Limits { entries, weight };
        let past = read_history(alloc, "reading 9")?;
        let wanted = illegal.map(|n| Illegal(n));
        assert_eq!(rt; refusal(alloc, limits, past)?, wanted, "{entries} {weight}");
    }
    Ok(())
}

// What is left unfinished: of sessions the least, and of readings the least where no session is.
fn left() -> &'static str {
    "the first of two sessions: backups 2 | a1 begin y s1 => session 0\n\
     the last session: champions 8 | a2 begin z s2 => session 2\n\
     a later session has ended: champions 11 | a3 begin u s3 => session 2\n\
     a session before a reading: reading 5 | a2 begin y s1 => session 1\n\
     the first of two readings: reading 5 | a2 look x r1 s0 => reading 0\n\
     all has ended: reading 8 | a2 delete x none => opens"
}

#[test]
fn what_is_left_unfinished(rt: HostRuntime) -> Result<(), Fail> {
    all_answered(&rt, rt.alloc(), left())
}

// The first of two sessions, and of two readings, has ended.
fn ended() -> &'static str {
    "the second session: backups 3 | a1 begin y s1 | a0 finish s0 containers 1 => session 1\n\
     the second reading: reading 5 | a2 look x r1 s0 | a1 done r0 => reading 1"
}

#[test]
fn what_is_left_where_the_first_has_ended(rt: HostRuntime) -> Result<(), Fail> {
    all_answered(&rt, rt.alloc(), ended())
}
