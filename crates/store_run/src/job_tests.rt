// Jobs as runs, one behind another in one store. What is printed was written by hand.
use crate::transcripts::*;
use std::test::Fail;

// The sums are of objects that another program wrote by their formats.
fn backups() -> &'static str {
    "$ init tiny\n\
     status 0\n\
     $ backup in zeros\n\
     0 a0 begin zeros s0\n\
     1 a0 choose s0 hooks 2 champions -\n\
     2 a0 commit m0.0 chunks 4 bytes 769 fresh 2 257 uses c0.0\n\
     3 a0 finish s0 containers 1\n\
     job 1 lane 1 backup ok\n\
     status 0\n\
     size c-0-0 345\n\
     size m-0-0 192\n\
     size journal 216\n\
     sum c-0-0 9b12399db8bf673ea56e1a188313590b612c93f23d44f263eaf7f7367060024b\n\
     sum m-0-0 23ec11eae3f6c1c3f0d8f9efc9b8864895a39dbe4e39a17c866fa596b17f5a46\n\
     sum journal 87649bab6963e861897f10428cb2632c793974107c30d99414e3d04ca4677f4d\n\
     $ backup in again\n\
     4 a1 begin again s1\n\
     5 a1 choose s1 hooks 2 champions m0.0\n\
     6 a1 commit m1.0 chunks 4 bytes 769 fresh 0 0 uses c0.0\n\
     7 a1 finish s1 containers 0\n\
     job 1 lane 1 backup ok\n\
     status 0\n\
     size c-1-0 absent\n\
     sum m-1-0 23ec11eae3f6c1c3f0d8f9efc9b8864895a39dbe4e39a17c866fa596b17f5a46\n\
     sum journal 422b2e89746544f4d3f617a3168f07e55690d9371c74f34e43918465b21f83df\n"
}

fn deletes() -> &'static str {
    "$ stat\n\
     8 a2 stat streams 2 bytes 1538 fresh 257 containers 1 reclaimed 0 entries 8\n\
     job 1 lane 1 stat ok\n\
     status 0\n\
     $ delete zeros\n\
     9 a3 delete zeros s0\n\
     job 1 lane 1 delete ok\n\
     status 0\n\
     $ delete zeros\n\
     10 a4 delete zeros none\n\
     job 1 lane 1 delete nostream\n\
     status 2\n\
     $ restore zeros o\n\
     11 a5 look zeros none\n\
     job 1 lane 1 restore nostream\n\
     status 2\n\
     size o absent\n\
     $ restore again o\n\
     12 a6 look again r0 s1\n\
     13 a6 done r0\n\
     job 1 lane 1 restore ok\n\
     status 0\n\
     size o 769\n\
     $ delete again\n\
     14 a7 delete again s1\n\
     job 1 lane 1 delete ok\n\
     status 0\n\
     $ stat\n\
     15 a8 stat streams 0 bytes 0 fresh 257 containers 1 reclaimed 0 entries 15\n\
     job 1 lane 1 stat ok\n\
     status 0\n"
}

fn reclaims() -> &'static str {
    "$ stat\n\
     8 a2 stat streams 2 bytes 1538 fresh 257 containers 1 reclaimed 0 entries 8\n\
     job 1 lane 1 stat ok\n\
     status 0\n\
     $ delete zeros\n\
     9 a3 delete zeros s0\n\
     job 1 lane 1 delete ok\n\
     status 0\n\
     $ reclaim\n\
     10 a4 reclaim m0.0\n\
     job 1 lane 1 reclaim ok\n\
     status 0\n\
     size m-0-0 absent\n\
     $ delete zeros\n\
     11 a5 delete zeros none\n\
     job 1 lane 1 delete nostream\n\
     status 2\n\
     $ delete again\n\
     12 a6 delete again s1\n\
     job 1 lane 1 delete ok\n\
     status 0\n\
     $ reclaim\n\
     13 a7 reclaim c0.0,m1.0\n\
     job 1 lane 1 reclaim ok\n\
     status 0\n\
     size c-0-0 absent\n\
     size m-1-0 absent\n\
     $ reclaim\n\
     14 a8 reclaim -\n\
     job 1 lane 1 reclaim ok\n\
     status 0\n"
}

#[test]
fn what_nothing_needs_is_reclaimed(rt: HostRuntime) -> Result<(), Fail> {
    let alloc = rt.alloc();
    let mut lane = lane(alloc)?;
    let came = follow(alloc, &mut lane, backups())?;
    assert_eq!(rt; came.as_str(), backups());
    let came = follow(alloc, &mut lane, reclaims())?;
    assert_eq!(rt; came.as_str(), reclaims());
    Ok(())
}

#[test]
fn two_backups_of_the_same_bytes(rt: HostRuntime) -> Result<(), Fail> {
    let alloc = rt.alloc();
    let mut lane = lane(alloc)?;
    let came = follow(alloc, &mut lane, backups())?;
    assert_eq!(rt; came.as_str(), backups());
    let came = follow(alloc, &mut lane, deletes())?;
    assert_eq!(rt; came.as_str(), deletes());
    assert!(rt; lane.files.get("o") == lane.files.get("in"));
    Ok(())
}

fn refusals() -> &'static str {
    "$ backup in zeros\n\
     4 a1 begin zeros taken\n\
     job 1 lane 1 backup taken\n\
     status 2\n\
     $ backup nofile z\n\
     job 1 lane 1 backup noinput\n\
     status 2\n\
     $ restore zeros in\n\
     job 1 lane 1 restore exists\n\
     status 2\n\
     sink 1$ delete other\n\
     status 2\n\
     sink 1$ stat\n\
     status 9\n\
     $ backup -x y\n\
     usage\n\
     status 1\n\
     $ backup in -y\n\
     usage\n\
     status 1\n\
     $ backup in a/b\n\
     usage\n\
     status 1\n\
     $ backup in\n\
     usage\n\
     status 1\n\
     $ restore a/b o\n\
     usage\n\
     status 1\n\
     $ delete a/b\n\
     usage\n\
     status 1\n\
     $ delete\n\
     usage\n\
     status 1\n\
     $ stat zeros\n\
     usage\n\
     status 1\n\
     $ reclaim zeros\n\
     usage\n\
     status 1\n\
     $ stat\n\
     7 a4 stat streams 1 bytes 769 fresh 257 containers 1 reclaimed 0 entries 7\n\
     job 1 lane 1 stat ok\n\
     status 0\n\
     size in 769\n\
     size o absent\n"
}

#[test]
fn jobs_that_are_refused(rt: HostRuntime) -> Result<(), Fail> {
    let before = "$ init tiny\n$ backup in zeros\n";
    let came = follow_each(rt.alloc(), before, refusals())?;
    assert_eq!(rt; came.as_str(), refusals());
    Ok(())
}

fn other_stores() -> &'static str {
    "$ backup a x\n\
     0 a0 begin x s0\n\
     1 a0 choose s0 hooks 0 champions -\n\
     2 a0 commit m0.0 chunks 1 bytes 1 fresh 1 1 uses c0.0\n\
     3 a0 finish s0 containers 1\n\
     job 1 lane 1 backup ok\n\
     status 0\n\
     $ backup a y\n\
     4 a1 begin y s1\n\
     5 a1 choose s1 hooks 0 champions -\n\
     6 a1 commit m1.0 chunks 1 bytes 1 fresh 1 1 uses c1.0\n\
     7 a1 finish s1 containers 1\n\
     job 1 lane 1 backup ok\n\
     status 0\n\
     --\n\
     $ backup empty e\n\
     0 a0 begin e s0\n\
     1 a0 finish s0 containers 0\n\
     job 1 lane 1 backup ok\n\
     status 0\n\
     $ restore e o\n\
     2 a1 look e r0 s0\n\
     3 a1 done r0\n\
     job 1 lane 1 restore ok\n\
     status 0\n\
     size o 0\n\
     --\n\
     $ backup zb p\n\
     0 a0 begin p s0\n\
     1 a0 choose s0 hooks 2 champions -\n\
     2 a0 commit m0.0 chunks 2 bytes 257 fresh 2 257 uses c0.0\n\
     3 a0 finish s0 containers 1\n\
     job 1 lane 1 backup ok\n\
     status 0\n\
     $ backup zc q\n\
     4 a1 begin q s1\n\
     5 a1 choose s1 hooks 2 champions m0.0\n\
     6 a1 commit m1.0 chunks 2 bytes 257 fresh 1 1 uses c0.0,c1.0\n\
     7 a1 finish s1 containers 1\n\
     job 1 lane 1 backup ok\n\
     status 0\n\
     $ backup zz r\n\
     8 a2 begin r s2\n\
     9 a2 choose s2 hooks 1 champions m1.0\n\
     10 a2 commit m2.0 chunks 1 bytes 256 fresh 0 0 uses c0.0\n\
     11 a2 finish s2 containers 0\n\
     job 1 lane 1 backup ok\n\
     status 0\n\
     --\n\
     files 3$ backup long z\n\
     0 a0 begin z s0\n\
     1 a0 choose s0 hooks 1 champions -\n\
     2 a0 commit m0.0 chunks 8 bytes 2048 fresh 1 256 uses c0.0\n\
     3 a0 choose s0 hooks 1 champions m0.0\n\
     4 a0 commit m0.1 chunks 8 bytes 2048 fresh 0 0 uses c0.0\n\
     5 a0 abort s0 containers 1 texts 2\n\
     job 1 lane 1 backup inputfault\n\
     status 3\n"
}

// Without hooks a segment is stored anew; an empty stream; champions on a tie; an input that fails behind two segments.
#[test]
fn other_streams(rt: HostRuntime) -> Result<(), Fail> {
    let came = follow_each(rt.alloc(), "$ init tiny\n", other_stores())?;
    assert_eq!(rt; came.as_str(), other_stores());
    Ok(())
}
