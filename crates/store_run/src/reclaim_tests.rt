// Reclaims as runs: what they print, and which objects are left. Calls 1 to 3 on the depot read the journal.
use super::*;
use crate::transcripts::*;
use outside::MemShelf;
use std::alloc::Global;
use std::test::Fail;

// An object whose erase failed is not named again.
fn failed_erases() -> &'static str {
    "depot 4$ reclaim\n\
     5 a2 reclaim c0.0,m0.0\n\
     job 1 lane 1 reclaim depotfault\n\
     status 4\n\
     size c-0-0 345\n\
     size m-0-0 absent\n\
     size journal 256\n\
     $ reclaim\n\
     6 a3 reclaim -\n\
     job 1 lane 1 reclaim ok\n\
     status 0\n\
     size c-0-0 345\n\
     --\n\
     depot 5$ reclaim\n\
     5 a2 reclaim c0.0,m0.0\n\
     job 1 lane 1 reclaim depotfault\n\
     status 4\n\
     size c-0-0 absent\n\
     size m-0-0 192\n\
     --\n\
     depot 4,depot 5$ reclaim\n\
     5 a2 reclaim c0.0,m0.0\n\
     job 1 lane 1 reclaim depotfault\n\
     status 4\n\
     size c-0-0 345\n\
     size m-0-0 192\n"
}

#[test]
fn erases_that_fail(rt: HostRuntime) -> Result<(), Fail> {
    let before = "$ init tiny\n$ backup in zeros\n$ delete zeros\n";
    let came = follow_each(rt.alloc(), before, failed_erases())?;
    assert_eq!(rt; came.as_str(), failed_erases());
    Ok(())
}

// What a backup stored before it was aborted.
fn aborted() -> &'static str {
    "depot 5$ backup in zeros\n\
     0 a0 begin zeros s0\n\
     1 a0 choose s0 hooks 2 champions -\n\
     2 a0 abort s0 containers 1 texts 1\n\
     job 1 lane 1 backup depotfault\n\
     status 4\n\
     size c-0-0 345\n\
     size m-0-0 absent\n\
     $ reclaim\n\
     3 a1 reclaim c0.0,m0.0\n\
     job 1 lane 1 reclaim ok\n\
     status 0\n\
     size c-0-0 absent\n\
     size m-0-0 absent\n\
     --\n\
     files 3$ backup long z\n\
     0 a0 begin z s0\n\
     1 a0 choose s0 hooks 1 champions -\n\
     2 a0 commit m0.0 chunks 8 bytes 2048 fresh 1 256 uses c0.0\n\
     3 a0 choose s0 hooks 1 champions m0.0\n\
     4 a0 commit m0.1 chunks 8 bytes 2048 fresh 0 0 uses c0.0\n\
     5 a0 abort s0 containers 1 texts 2\n\
     job 1 lane 1 backup inputfault\n\
     status 3\n\
     $ reclaim\n\
     6 a1 reclaim c0.0,m0.0,m0.1\n\
     job 1 lane 1 reclaim ok\n\
     status 0\n\
     size c-0-0 absent\n\
     size m-0-0 absent\n\
     size m-0-1 absent\n"
}

#[test]
fn aborted_backups_are_reclaimed(rt: HostRuntime) -> Result<(), Fail> {
    let came = follow_each(rt.alloc(), "$ init tiny\n", aborted())?;
    assert_eq!(rt; came.as_str(), aborted());
    Ok(())
}

// One command reclaims 16, 16 and 8 objects.
fn of_forty() -> &'static str {
    "81 a2 reclaim c0.0,m0.0,m0.1,m0.2,m0.3,m0.4,m0.5,m0.6,m0.7,m0.8,m0.9,m0.10,m0.11,m0.12,m0.13,m0.14\n\
     82 a2 reclaim m0.15,m0.16,m0.17,m0.18,m0.19,m0.20,m0.21,m0.22,m0.23,m0.24,m0.25,m0.26,m0.27,m0.28,m0.29,m0.30\n\
     83 a2 reclaim m0.31,m0.32,m0.33,m0.34,m0.35,m0.36,m0.37,m0.38\n\
     job 1 lane 1 reclaim ok\n\
     status 0\n"
}

// The first 16, of which an erase fails.
fn of_sixteen() -> &'static str {
    "81 a2 reclaim c0.0,m0.0,m0.1,m0.2,m0.3,m0.4,m0.5,m0.6,m0.7,m0.8,m0.9,m0.10,m0.11,m0.12,m0.13,m0.14\n\
     job 1 lane 1 reclaim depotfault\n\
     status 4\n"
}

// The others, by the command behind it.
fn of_the_rest() -> &'static str {
    "82 a3 reclaim m0.15,m0.16,m0.17,m0.18,m0.19,m0.20,m0.21,m0.22,m0.23,m0.24,m0.25,m0.26,m0.27,m0.28,m0.29,m0.30\n\
     83 a3 reclaim m0.31,m0.32,m0.33,m0.34,m0.35,m0.36,m0.37,m0.38\n\
     job 1 lane 1 reclaim ok\n\
     status 0\n"
}

// A store with a deleted stream of 39 segments of 8 chunks of 256 zeros: 39 manifests, and one container.
fn lane_of_forty(alloc: Global) -> Result<Lane<MemShelf, MemShelf>, Fail> {
    let mut lane = lane(alloc)?;
    lane.files.set("many", &vec![in alloc; 0; 79_872]?)?;
    for line in ["init tiny", "backup many z", "delete z"] {
        run_line(alloc, &mut lane, line, Vec::new(alloc))?;
    }
    Ok(lane)
}

fn has_manifest(alloc: Global, shelf: &MemShelf, seq: u32) -> Result<bool, Fail> {
    let name = format!(in alloc; "m-0-{seq}")?;
    Ok(shelf.get(&name).is_some())
}

fn copy(from: &MemShelf, to: &mut MemShelf, name: &str) -> Result<(), Fail> {
    to.set(name, from.get(name).ok_or("an object")?)?;
    Ok(())
}

// The same objects on a shelf whose call with this number fails.
fn with_fault(alloc: Global, shelf: &MemShelf, call: u32) -> Result<MemShelf, Fail> {
    let mut next = MemShelf::new(alloc, vec![in alloc; call; 1]?);
    copy(shelf, &mut next, "journal")?;
    copy(shelf, &mut next, "c-0-0")?;
    for seq in 0..39u32 {
        copy(shelf, &mut next, &format!(in alloc; "m-0-{seq}")?)?;
    }
    Ok(next)
}

#[test]
fn forty_objects_by_one_command(rt: HostRuntime) -> Result<(), Fail> {
    let alloc = rt.alloc();
    let mut lane = lane_of_forty(alloc)?;
    for seq in 0..39u32 {
        assert!(rt; has_manifest(alloc, &lane.depot, seq)?);
    }
    let printed = run_line(alloc, &mut lane, "reclaim", Vec::new(alloc))?;
    assert_eq!(rt; printed.as_str(), of_forty());
    assert!(rt; lane.depot.get("c-0-0").is_none());
    for seq in 0..39u32 {
        assert!(rt; !has_manifest(alloc, &lane.depot, seq)?);
    }
    Ok(())
}

// The ninth call erases the manifest of number 4.
#[test]
fn an_erase_of_forty_fails(rt: HostRuntime) -> Result<(), Fail> {
    let alloc = rt.alloc();
    let mut lane = lane_of_forty(alloc)?;
    lane.depot = with_fault(alloc, &lane.depot, 9)?;
    let printed = run_line(alloc, &mut lane, "reclaim", Vec::new(alloc))?;
    assert_eq!(rt; printed.as_str(), of_sixteen());
    assert!(rt; lane.depot.get("c-0-0").is_none());
    for seq in 0..39u32 {
        assert!(rt; has_manifest(alloc, &lane.depot, seq)? == (seq == 4 || seq >= 15));
    }
    let printed = run_line(alloc, &mut lane, "reclaim", Vec::new(alloc))?;
    assert_eq!(rt; printed.as_str(), of_the_rest());
    for seq in 0..39u32 {
        assert!(rt; has_manifest(alloc, &lane.depot, seq)? == (seq == 4));
    }
    Ok(())
}
