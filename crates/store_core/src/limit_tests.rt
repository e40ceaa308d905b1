// Limits, authors and profiles.
use crate::OpenFault::{Illegal, UnfinishedSession};
use crate::cases::*;
use crate::checked_call_tests::call;
use crate::entry_lines::*;
use crate::played_history_tests::{agrees, play, replays};
use crate::{OpenFault, State};
use history::{Entry, Items, Limits};
use ss_base::{Name, Profile};
use std::alloc::Global;
use std::process;
use std::test::Fail;

// The entries of the first so many lines that begin with this word.
fn added(alloc: Global, lines: &str, n: usize) -> Result<Vec<Entry>, Fail> {
    let mut entries = Vec::new(alloc);
    for (i, line) in lines.lines().enumerate() {
        if let Some(entry) = line.strip_prefix("added ") {
            if i < n {
                entries.push(read_entry(alloc, entry)?)?;
            }
        }
    }
    Ok(entries)
}

// Makes the call of a line, which says first whether its entry is added, or would break the limits.
fn call_line(
    rt: &impl process::Abort,
    alloc: Global,
    state: &mut State<8, 8>,
    line: &str,
) -> Result<(), Fail> {
    let (wanted, entry) = line.split_once(' ').ok_or("what is wanted")?;
    let entry = read_entry(alloc, entry)?;
    let is_added = call(rt, alloc, state, &entry)?;
    assert_eq!(rt; wanted, if is_added { "added" } else { "full" }, "{line}");
    Ok(())
}

// Makes the calls of the lines. After one that is refused all is as before.
fn play_within(
    rt: &impl process::Abort,
    alloc: Global,
    limits: Limits,
    lines: &str,
) -> Result<(), Fail> {
    let mut state = play::<8, 8>(rt, alloc, limits, "backups 0")?;
    for (i, line) in lines.lines().enumerate() {
        call_line(rt, alloc, &mut state, line)?;
        agrees(rt, alloc, &state)?;
        let copy = added(alloc, lines, i + 1)?;
        replays(rt, alloc, limits, &state, copy)?;
    }
    Ok(())
}

const fn within(entries: u32, weight: u32) -> Limits {
    Limits { entries, weight }
}

fn no_entries() -> &'static str {
    "full a0 begin x s0\n\
     full a0 delete x none\n\
     full a0 look x none\n\
     full a0 reclaim -\n\
     full a0 stat streams 0 bytes 0 fresh 0 containers 0 reclaimed 0 entries 0"
}

// A call is refused before its name is found taken or without a stream. The end still fits.
fn two_entries() -> &'static str {
    "added a0 begin x s0\n\
     full a1 begin x taken\n\
     full a1 begin y s1\n\
     full a0 choose s0 hooks - champions -\n\
     full a1 delete x none\n\
     full a1 look x none\n\
     full a1 reclaim -\n\
     full a1 stat streams 0 bytes 0 fresh 0 containers 0 reclaimed 0 entries 1\n\
     added a0 finish s0 containers 0\n\
     full a1 begin x taken\n\
     full a1 delete x s0\n\
     full a1 delete y none\n\
     full a1 look x r0 s0\n\
     full a1 look y none\n\
     full a1 stat streams 1 bytes 0 fresh 0 containers 0 reclaimed 0 entries 2"
}

// A begin and a look want room for their ends too.
fn a_name_that_is_taken() -> &'static str {
    "added a0 begin x s0\n\
     full a1 begin y s1\n\
     added a1 begin x taken\n\
     added a0 abort s0 containers 0 texts 0\n\
     full a1 begin x s1"
}

fn a_look_without_a_stream() -> &'static str {
    "added a0 begin x s0\n\
     added a0 finish s0 containers 0\n\
     full a1 look x r0 s0\n\
     added a1 look y none\n\
     full a1 look y none"
}

fn a_second_session() -> &'static str {
    "added a0 begin x s0\n\
     added a1 begin y s1\n\
     full a0 choose s0 hooks h champions -\n\
     full a2 stat streams 0 bytes 0 fresh 0 containers 0 reclaimed 0 entries 2\n\
     added a1 abort s1 containers 0 texts 0\n\
     added a0 finish s0 containers 0"
}

fn a_second_reading() -> &'static str {
    "added a0 begin x s0\n\
     added a0 finish s0 containers 0\n\
     added a1 look x r0 s0\n\
     full a2 look x r1 s0\n\
     full a2 delete x s0\n\
     added a1 done r0\n\
     full a2 reclaim -"
}

fn a_commit() -> &'static str {
    "added a0 begin x s0\n\
     added a0 choose s0 hooks h champions -\n\
     full a0 commit m0.0 chunks 1 bytes 1 fresh 0 0 uses c0.0\n\
     added a0 abort s0 containers 0 texts 0"
}

#[test]
fn too_many_entries(rt: HostRuntime) -> Result<(), Fail> {
    let alloc = rt.alloc();
    play_within(&rt, alloc, within(0, 0), no_entries())?;
    play_within(&rt, alloc, within(2, 100), two_entries())?;
    play_within(&rt, alloc, within(3, 100), a_commit())
}

#[test]
fn room_for_an_entry_without_its_end(rt: HostRuntime) -> Result<(), Fail> {
    let alloc = rt.alloc();
    play_within(&rt, alloc, within(3, 100), a_name_that_is_taken())?;
    play_within(&rt, alloc, within(3, 100), a_look_without_a_stream())?;
    play_within(&rt, alloc, within(4, 100), a_second_session())?;
    play_within(&rt, alloc, within(4, 100), a_second_reading())
}

// A choice weighs as many as its hooks, a commit as many as its containers, and no other entry weighs anything.
fn weights() -> &'static str {
    "added a0 begin x s0\n\
     full a0 choose s0 hooks h,g,f,e champions -\n\
     added a0 choose s0 hooks h,g champions -\n\
     full a0 commit m0.0 chunks 1 bytes 1 fresh 0 0 uses c0.0,c0.1,c0.4294967294\n\
     added a0 commit m0.0 chunks 1 bytes 1 fresh 0 0 uses c0.0\n\
     full a0 choose s0 hooks h champions m0.0\n\
     added a0 choose s0 hooks - champions -\n\
     full a0 commit m0.1 chunks 1 bytes 1 fresh 0 0 uses c0.0\n\
     added a0 commit m0.1 chunks 1 bytes 1 fresh 0 0 uses -\n\
     added a0 finish s0 containers 1\n\
     added a1 delete x s0\n\
     added a1 reclaim c0.0,m0.0,m0.1"
}

#[test]
fn too_much_weight(rt: HostRuntime) -> Result<(), Fail> {
    play_within(&rt, rt.alloc(), within(100, 3), weights())
}

// Limits of entries and of weight, what is within them, and what ends what is unfinished then. An unfinished session or
// reading counts as an entry more; the choice weighs 2, the commit 1.
fn first_refused() -> [(u32, u32, &'static str, &'static str); 8] {
    [
        (8, 3, "reading 8", ""),
        (7, 3, "reading 6", "a1 done r0"),
        (6, 3, "reading 5", "a1 done r0"),
        (5, 3, "reading 4", ""),
        (3, 3, "reading 2", "a0 abort s0 containers 0 texts 0"),
        (1, 3, "reading 0", ""),
        (9, 2, "reading 2", "a0 abort s0 containers 0 texts 1"),
        (9, 1, "reading 1", "a0 abort s0 containers 0 texts 0"),
    ]
}

#[test]
fn the_first_call_that_is_refused(rt: HostRuntime) -> Result<(), Fail> {
    let alloc = rt.alloc();
    let whole = read_history(alloc, "reading 9")?;
    for (entries, weight, past, end) in first_refused() {
        let limits = within(entries, weight);
        let mut state = play::<8, 8>(&rt, alloc, limits, past)?;
        let next = whole.get(state.entries().len()).ok_or("an entry")?;
        assert!(rt; !call(&rt, alloc, &mut state, next)?);
        replays(&rt, alloc, limits, &state, read_history(alloc, past)?)?;
        for line in end.lines() {
            assert!(rt; call(&rt, alloc, &mut state, &read_entry(alloc, line)?)?);
        }
    }
    Ok(())
}

// Entries of some authors, and the author that comes next.
fn authors() -> [(&'static str, Option<u32>); 4] {
    [
        (
            "a5 stat streams 0 bytes 0 fresh 0 containers 0 reclaimed 0 entries 0",
            Some(6),
        ),
        (
            "a2 stat streams 0 bytes 0 fresh 0 containers 0 reclaimed 0 entries 1",
            Some(6),
        ),
        (
            "a4294967294 stat streams 0 bytes 0 fresh 0 containers 0 reclaimed 0 entries 2",
            Some(4294967295),
        ),
        (
            "a4294967295 stat streams 0 bytes 0 fresh 0 containers 0 reclaimed 0 entries 3",
            None,
        ),
    ]
}

#[test]
fn the_author_that_comes_next(rt: HostRuntime) -> Result<(), Fail> {
    let alloc = rt.alloc();
    let mut state = play::<8, 8>(&rt, alloc, LIMITS, "backups 0")?;
    assert_eq!(rt; state.next_author(), Some(0));
    for (line, next) in authors() {
        assert!(rt; call(&rt, alloc, &mut state, &read_entry(alloc, line)?)?);
        assert_eq!(rt; state.next_author(), next);
    }
    Ok(())
}

// How many first bits of a hook are zero, a name that has so many, and one that has not.
fn profiles() -> [(Profile, u32, u8, u8); 3] {
    [
        (Profile::Tiny, 1, 127, 128),
        (Profile::Small, 4, 15, 16),
        (Profile::Large, 6, 3, 4),
    ]
}

// Why a choice with a hook that begins with this byte is refused.
fn hook_refusal(alloc: Global, profile: Profile, byte: u8) -> Result<Option<OpenFault>, Fail> {
    let mut bytes = [255; 32];
    bytes[0] = byte;
    let mut entries = read_history(alloc, "backups 1")?;
    let hooks = Vec::from_slice(alloc, &[Name(bytes)])?;
    entries.push(choice(alloc, Items::new(hooks)))?;
    match State::<8, 8>::replay(alloc, profile, LIMITS, entries) {
        Ok(_) => Ok(None),
        Err(fault) => Ok(Some(fault)),
    }
}

#[test]
fn bits_of_a_profile(rt: HostRuntime) -> Result<(), Fail> {
    let alloc = rt.alloc();
    for (profile, bits, hook, other) in profiles() {
        let Ok(state) = State::<8, 8>::replay(alloc, profile, LIMITS, Vec::new(alloc)) else {
            return Err("no state of no entries")?;
        };
        assert_eq!(rt; state.profile(), profile);
        assert_eq!(rt; state.bits(), bits);
        let fine = hook_refusal(alloc, profile, hook)?;
        assert_eq!(rt; fine, Some(UnfinishedSession(0)));
        assert_eq!(rt; hook_refusal(alloc, profile, other)?, Some(Illegal(1)));
    }
    Ok(())
}
