// Jobs of which a call on the outside fails. Calls 1 to 3 on the depot read the journal.
use super::*;
use crate::transcripts::*;
use outside::{MemShelf, TornShelf};
use std::alloc::Global;
use std::test::Fail;

fn first_backups() -> &'static str {
    "depot 1$ backup in zeros\n\
     depot fault\n\
     status 4\n\
     depot 2$ backup in zeros\n\
     depot fault\n\
     status 4\n\
     depot 3$ backup in zeros\n\
     depot fault\n\
     status 4\n\
     size journal 8\n\
     files 1$ backup in zeros\n\
     job 1 lane 1 backup inputfault\n\
     status 3\n\
     size journal 8\n\
     --\n\
     depot 4$ backup in zeros\n\
     0 a0 begin zeros s0\n\
     1 a0 choose s0 hooks 2 champions -\n\
     2 a0 abort s0 containers 1 texts 0\n\
     job 1 lane 1 backup depotfault\n\
     status 4\n\
     --\n\
     depot 4$ backup b x\n\
     0 a0 begin x s0\n\
     1 a0 choose s0 hooks 1 champions -\n\
     2 a0 abort s0 containers 1 texts 0\n\
     job 1 lane 1 backup depotfault\n\
     status 4\n\
     --\n\
     depot 5$ backup in zeros\n\
     0 a0 begin zeros s0\n\
     1 a0 choose s0 hooks 2 champions -\n\
     2 a0 abort s0 containers 1 texts 1\n\
     job 1 lane 1 backup depotfault\n\
     status 4\n\
     --\n\
     depot 6$ backup in zeros\n\
     0 a0 begin zeros s0\n\
     1 a0 choose s0 hooks 2 champions -\n\
     2 a0 commit m0.0 chunks 4 bytes 769 fresh 2 257 uses c0.0\n\
     3 a0 finish s0 containers 1\n\
     job 1 lane 1 backup ok\n\
     depot fault\n\
     status 4\n\
     size journal 8\n\
     depot 6,sink 2$ backup in zeros\n\
     0 a0 begin zeros s0\n\
     1 a0 choose s0 hooks 2 champions -\n\
     2 a0 commit m0.0 chunks 4 bytes 769 fresh 2 257 uses c0.0\n\
     3 a0 finish s0 containers 1\n\
     job 1 lane 1 backup ok\n\
     status 4\n\
     size journal 8\n\
     --\n\
     depot 7$ backup in zeros\n\
     0 a0 begin zeros s0\n\
     1 a0 choose s0 hooks 2 champions -\n\
     2 a0 commit m0.0 chunks 4 bytes 769 fresh 2 257 uses c0.0\n\
     3 a0 finish s0 containers 1\n\
     job 1 lane 1 backup ok\n\
     status 0\n\
     size journal 216\n\
     --\n\
     sink 1$ backup in zeros\n\
     status 9\n\
     size journal 216\n"
}

#[test]
fn faults_of_a_first_backup(rt: HostRuntime) -> Result<(), Fail> {
    let came = follow_each(rt.alloc(), "$ init tiny\n", first_backups())?;
    assert_eq!(rt; came.as_str(), first_backups());
    Ok(())
}

// Of a second backup of the same bytes, and of a restore, in parts that each follow the first backup.
fn later_jobs() -> &'static str {
    "depot 4$ backup in again\n\
     4 a1 begin again s1\n\
     5 a1 choose s1 hooks 2 champions m0.0\n\
     6 a1 abort s1 containers 0 texts 0\n\
     job 1 lane 1 backup depotfault\n\
     status 4\n\
     --\n\
     depot 5$ backup in again\n\
     4 a1 begin again s1\n\
     5 a1 choose s1 hooks 2 champions m0.0\n\
     6 a1 abort s1 containers 0 texts 1\n\
     job 1 lane 1 backup depotfault\n\
     status 4\n\
     --\n\
     depot 4$ restore zeros o\n\
     4 a1 look zeros r0 s0\n\
     5 a1 done r0\n\
     job 1 lane 1 restore depotfault\n\
     status 4\n\
     size o 0\n\
     $ restore zeros p\n\
     6 a2 look zeros r1 s0\n\
     7 a2 done r1\n\
     job 1 lane 1 restore ok\n\
     status 0\n\
     --\n\
     depot 5$ restore zeros o\n\
     4 a1 look zeros r0 s0\n\
     5 a1 done r0\n\
     job 1 lane 1 restore depotfault\n\
     status 4\n\
     size o 0\n\
     --\n\
     depot 6$ restore zeros o\n\
     4 a1 look zeros r0 s0\n\
     5 a1 done r0\n\
     job 1 lane 1 restore depotfault\n\
     status 4\n\
     size o 256\n\
     --\n\
     depot 7$ restore zeros o\n\
     4 a1 look zeros r0 s0\n\
     5 a1 done r0\n\
     job 1 lane 1 restore depotfault\n\
     status 4\n\
     size o 512\n\
     --\n\
     depot 8$ restore zeros o\n\
     4 a1 look zeros r0 s0\n\
     5 a1 done r0\n\
     job 1 lane 1 restore depotfault\n\
     status 4\n\
     size o 768\n\
     --\n\
     depot 9$ restore zeros o\n\
     4 a1 look zeros r0 s0\n\
     5 a1 done r0\n\
     job 1 lane 1 restore ok\n\
     depot fault\n\
     status 4\n\
     size o 769\n\
     size journal 216\n\
     --\n\
     files 1$ restore zeros o\n\
     job 1 lane 1 restore outputfault\n\
     status 3\n\
     size journal 216\n\
     files 2$ restore zeros o\n\
     4 a1 look zeros r0 s0\n\
     5 a1 done r0\n\
     job 1 lane 1 restore outputfault\n\
     status 3\n\
     size o absent\n\
     --\n\
     files 3$ restore zeros o\n\
     4 a1 look zeros r0 s0\n\
     5 a1 done r0\n\
     job 1 lane 1 restore outputfault\n\
     status 3\n\
     size o 0\n\
     --\n\
     depot 4$ delete zeros\n\
     4 a1 delete zeros s0\n\
     job 1 lane 1 delete ok\n\
     depot fault\n\
     status 4\n\
     size journal 216\n\
     depot 4$ delete other\n\
     4 a1 delete other none\n\
     job 1 lane 1 delete nostream\n\
     depot fault\n\
     status 2\n\
     size journal 216\n"
}

#[test]
fn faults_of_later_jobs(rt: HostRuntime) -> Result<(), Fail> {
    let before = "$ init tiny\n$ backup in zeros\n";
    let came = follow_each(rt.alloc(), before, later_jobs())?;
    assert_eq!(rt; came.as_str(), later_jobs());
    Ok(())
}

fn torn_backup() -> &'static str {
    "0 a0 begin zeros s0\n\
     1 a0 choose s0 hooks 2 champions -\n\
     2 a0 commit m0.0 chunks 4 bytes 769 fresh 2 257 uses c0.0\n\
     3 a0 finish s0 containers 1\n\
     job 1 lane 1 backup ok\n\
     depot fault\n\
     status 4\n"
}

// How much of the entries stood in the journal, and what a run behind that does.
fn torn_appends() -> [(usize, &'static str); 4] {
    [
        (
            100,
            "$ stat\njournal bad entry at byte 100\nstatus 6\nsize journal 108\n",
        ),
        (
            92,
            "$ backup in zeros\njournal unfinished session 0\nstatus 6\nsize journal 100\n",
        ),
        (
            0,
            "$ backup in zeros\n\
             0 a0 begin zeros s0\n\
             1 a0 choose s0 hooks 2 champions -\n\
             2 a0 commit m0.0 chunks 4 bytes 769 fresh 2 257 uses c0.0\n\
             3 a0 finish s0 containers 1\n\
             job 1 lane 1 backup ok\n\
             status 0\n\
             size journal 216\n",
        ),
        (
            208,
            "$ restore zeros o\n\
             4 a1 look zeros r0 s0\n\
             5 a1 done r0\n\
             job 1 lane 1 restore ok\n\
             status 0\n\
             size o 769\n",
        ),
    ]
}

// A lane with a store whose journal's append, the sixth call of a first backup, is torn.
fn torn_lane(alloc: Global, keep: usize) -> Result<Lane<MemShelf, TornShelf>, Fail> {
    let files = files(alloc)?;
    let mut depot = TornShelf::new(alloc, 6, keep);
    depot.set("journal", b"SSJ1\x01\0\0\0")?;
    Ok(Lane { files, depot })
}

// A lane with the objects of a torn one.
fn lane_behind(alloc: Global, torn: &TornShelf) -> Result<Lane<MemShelf, MemShelf>, Fail> {
    let mut lane = lane(alloc)?;
    for name in ["journal", "c-0-0", "m-0-0"] {
        lane.depot.set(name, torn.get(name).ok_or("an object")?)?;
    }
    Ok(lane)
}

#[test]
fn torn_appends_of_a_first_backup(rt: HostRuntime) -> Result<(), Fail> {
    let alloc = rt.alloc();
    for (keep, transcript) in torn_appends() {
        let mut torn = torn_lane(alloc, keep)?;
        let printed = run_line(alloc, &mut torn, "backup in zeros", Vec::new(alloc))?;
        assert_eq!(rt; printed.as_str(), torn_backup());
        let mut lane = lane_behind(alloc, &torn.depot)?;
        let came = follow(alloc, &mut lane, transcript)?;
        assert_eq!(rt; came.as_str(), transcript);
    }
    Ok(())
}
