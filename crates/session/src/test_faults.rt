// Backups in which a call fails, or an entry has no room. The entries were worked out by hand, and the digests of the
// objects by another program.

use crate::test_state::{Fixture, limited, store};
use depot::BackupFault;
use std::alloc::Global;
use std::process::Abort;
use std::test::Fail;

// The input is asked for, read, and read again: 19 chunks are whole by then, and two segments of 8.
fn input_fails() -> [&'static str; 3] {
    [
        "",
        "a0 begin z s0\n\
         a0 abort s0 containers 0 texts 0",
        "a0 begin z s0\n\
         a0 choose s0 hooks 1 champions -\n\
         a0 commit m0.0 chunks 8 bytes 2048 fresh 1 256 uses c0.0\n\
         a0 choose s0 hooks 1 champions m0.0\n\
         a0 commit m0.1 chunks 8 bytes 2048 fresh 0 0 uses c0.0\n\
         a0 abort s0 containers 1 texts 2",
    ]
}

// What is left of the two segments.
fn two_segments() -> &'static str {
    "c-0-0 42453b2e46b38b7db24c51a661cf5ee4cc249fffb1d4d7267ee8700c9e6bfae5\n\
     c-0-1 -\n\
     m-0-0 6c2b3eb1cf92b241648deaa437c22c8061cc477d0f77e97dc3c556be1b0b5031\n\
     m-0-1 6c2b3eb1cf92b241648deaa437c22c8061cc477d0f77e97dc3c556be1b0b5031\n\
     m-0-2 -"
}

// The backup of this stream answers this, and leaves these entries and objects.
fn answers(
    rt: &impl Abort,
    alloc: Global,
    store: &mut Fixture,
    stream: (usize, &[u8]),
    answer: Result<u32, BackupFault>,
    shown: (&str, &str),
) -> Result<(), Fail> {
    let answered = store.backup(alloc, stream.0, stream.1, "z")?;
    assert!(rt; answered == answer);
    assert!(rt; store.shows(alloc, shown.0, shown.1)?);
    Ok(())
}

// The call of this number on the files fails.
fn input_fails_at(
    rt: &impl Abort,
    alloc: Global,
    call: u32,
    lines: &str,
    objects: &str,
) -> Result<(), Fail> {
    let mut store = store(alloc, (call, 0))?;
    let fault = Err(BackupFault::InputFault);
    answers(rt, alloc, &mut store, (5_000, b""), fault, (lines, objects))
}

#[test]
fn the_input_fails(rt: HostRuntime) -> Result<(), Fail> {
    let alloc = rt.alloc();
    let [unasked, unread, stored] = input_fails();
    input_fails_at(&rt, alloc, 1, unasked, "c-0-0 -\nm-0-0 -")?;
    input_fails_at(&rt, alloc, 2, unread, "c-0-0 -\nm-0-0 -")?;
    input_fails_at(&rt, alloc, 3, stored, two_segments())
}

// A stream of two segments is backed up under two names, until a call on the depot fails, as that with the first number
// does. Behind it are how many entries there are, and the last. The calls are a create, the first manifest, an append
// and the second manifest; then for each segment a load and a manifest.
fn depot_fails() -> &'static str {
    "1 3 a0 abort s0 containers 1 texts 0\n\
     2 3 a0 abort s0 containers 1 texts 1\n\
     3 5 a0 abort s0 containers 1 texts 1\n\
     4 5 a0 abort s0 containers 1 texts 2\n\
     5 9 a1 abort s1 containers 0 texts 0\n\
     6 9 a1 abort s1 containers 0 texts 1\n\
     7 11 a1 abort s1 containers 0 texts 1\n\
     8 11 a1 abort s1 containers 0 texts 2"
}

fn fails_at_last(
    rt: &impl Abort,
    alloc: Global,
    store: &mut Fixture,
    entries: usize,
    line: &str,
) -> Result<(), Fail> {
    let mut answer = store.backup(alloc, 2_048, b"b", "x")?;
    if answer.is_ok() {
        answer = store.backup_of(alloc, "in", "y")?;
    }
    assert!(rt; answer == Err(BackupFault::DepotFault));
    assert!(rt; store.ends(alloc, entries, line)?);
    Ok(())
}

fn depot_fails_at(
    rt: &impl Abort,
    alloc: Global,
    call: u32,
    entries: usize,
    line: &str,
) -> Result<(), Fail> {
    let mut store = store(alloc, (0, call))?;
    fails_at_last(rt, alloc, &mut store, entries, line)
}

#[test]
fn the_depot_fails(rt: HostRuntime) -> Result<(), Fail> {
    let alloc = rt.alloc();
    for row in depot_fails().lines() {
        let (call, rest) = row.split_once(' ').ok_or("a call")?;
        let (entries, line) = rest.split_once(' ').ok_or("a line")?;
        let call = call.parse::<u32>()?;
        depot_fails_at(&rt, alloc, call, entries.parse::<usize>()?, line)?;
    }
    Ok(())
}

// The history admits so many entries, and so great a weight; and what is then added.
fn limits() -> [(u8, u8, &'static str); 5] {
    [
        (1, 100, ""),
        (2, 100, unchosen()),
        (3, 100, uncommitted()),
        (100, 0, unchosen()),
        (100, 1, uncommitted()),
    ]
}

fn unchosen() -> &'static str {
    "a0 begin z s0\n\
     a0 abort s0 containers 0 texts 0"
}

fn uncommitted() -> &'static str {
    "a0 begin z s0\n\
     a0 choose s0 hooks 1 champions -\n\
     a0 abort s0 containers 1 texts 1"
}

fn whole() -> &'static str {
    "a0 begin z s0\n\
     a0 choose s0 hooks 1 champions -\n\
     a0 commit m0.0 chunks 1 bytes 1 fresh 1 1 uses c0.0\n\
     a0 finish s0 containers 1"
}

fn is_limited(
    rt: &impl Abort,
    alloc: Global,
    (entries, weight): (u8, u8),
    answer: Result<u32, BackupFault>,
    lines: &str,
) -> Result<(), Fail> {
    let mut store = limited(alloc, entries, weight, (0, 0))?;
    answers(rt, alloc, &mut store, (0, b"b"), answer, (lines, ""))
}

#[test]
fn entries_have_no_room(rt: HostRuntime) -> Result<(), Fail> {
    let alloc = rt.alloc();
    for (entries, weight, lines) in limits() {
        is_limited(&rt, alloc, (entries, weight), Err(BackupFault::Full), lines)?;
    }
    is_limited(&rt, alloc, (4, 2), Ok(0), whole())
}
