// Histories in which champions, standing lists, pins and totals were worked out by hand, by calls and by replay.
use crate::OpenFault;
use crate::cases::*;
use crate::entry_lines::*;
use crate::played_history_tests::{play, replayed};
use ss_base::{ManifestId, Standing};
use std::alloc::Global;
use std::process;
use std::test::Fail;

// Makes the calls of the history of each line, as none is left: tie 9.
fn play_all(rt: &impl process::Abort, alloc: Global, histories: &str) -> Result<(), Fail> {
    for text in histories.lines() {
        let _state = play::<8, 8>(rt, alloc, LIMITS, text)?;
    }
    Ok(())
}

// Why a history is no state's where two manifests stand at a hook and two are chosen.
fn refusal_of_two(alloc: Global, text: &str) -> Result<Option<OpenFault>, Fail> {
    match replayed::<2, 2>(LIMITS, alloc, read_history(alloc, text)?)? {
        Ok(_) => Ok(None),
        Err(fault) => Ok(Some(fault)),
    }
}

#[test]
fn champions_on_a_tie(rt: HostRuntime) -> Result<(), Fail> {
    let alloc = rt.alloc();
    play_all(&rt, alloc, "tie 9 | a2 choose s2 hooks h champions m1.0")?;
    all_answered(
        &rt,
        alloc,
        "the older: tie 9 | a2 choose s2 hooks h champions m0.0 => illegal 9",
    )
}

// Choices that are refused where two are chosen.
fn choices_of_two() -> [&'static str; 2] {
    [
        "hooks 13 | a3 choose s3 hooks h,g,f champions m1.0,m2.0",
        "hooks 13 | a3 choose s3 hooks h,g,f champions m2.0,m1.0,m0.0",
    ]
}

#[test]
fn two_champions_of_three_hooks(rt: HostRuntime) -> Result<(), Fail> {
    let alloc = rt.alloc();
    let two = "hooks 13 | a3 choose s3 hooks h,g,f champions m2.0,m1.0";
    let _state = play::<2, 2>(&rt, alloc, LIMITS, two)?;
    for text in choices_of_two() {
        assert_eq!(rt; refusal_of_two(alloc, text)?, read_answer("illegal 13")?);
    }
    let three = "hooks 13 | a3 choose s3 hooks h,g,f champions m2.0,m1.0,m0.0";
    play_all(&rt, alloc, three)
}

const fn standing_of(session: u32, stamp: u32) -> Standing {
    Standing {
        id: ManifestId { session, seq: 0 },
        stamp,
    }
}

// Histories, and what stands at the first hook at their end.
fn promotions() -> [(&'static str, [Standing; 2]); 2] {
    [
        ("promotion 12", [standing_of(2, 10), standing_of(1, 6)]),
        ("two_hooks 12", [standing_of(2, 10), standing_of(0, 2)]),
    ]
}

#[test]
fn promotion_in_a_standing_list(rt: HostRuntime) -> Result<(), Fail> {
    for (text, stood) in promotions() {
        let state = play::<2, 2>(&rt, rt.alloc(), LIMITS, text)?;
        assert_eq!(rt; state.index().of(&H), stood.as_slice());
    }
    Ok(())
}

// The commit against the champion uses its container or not, or the session that chose it is given up, with its
// manifest written or not.
fn ends_with_a_pin() -> &'static str {
    "pinned 8 | a1 commit m1.0 chunks 1 bytes 1 fresh 0 0 uses c0.0 | a3 reclaim m0.0\n\
     pinned 8 | a1 commit m1.0 chunks 1 bytes 1 fresh 0 0 uses c1.0 | a3 reclaim c0.0,m0.0\n\
     pinned 8 | a1 abort s1 containers 0 texts 0 | a3 reclaim c0.0,m0.0\n\
     pinned 8 | a1 abort s1 containers 0 texts 1 | a3 reclaim c0.0,m0.0,m1.0"
}

#[test]
fn a_pinned_champion_is_not_reclaimed(rt: HostRuntime) -> Result<(), Fail> {
    play_all(&rt, rt.alloc(), ends_with_a_pin())
}

#[test]
fn other_histories(rt: HostRuntime) -> Result<(), Fail> {
    let histories = "fault 7\naborted 9\nshared 12\nhookless 8\nempty 4\nbetween 7";
    play_all(&rt, rt.alloc(), histories)
}

// A second backup that chooses against none, and a session that is left.
fn refused_journals() -> &'static str {
    "no champion: backups 5 | a1 choose s1 hooks h,g champions - => illegal 5\n\
     left: backups 3 => session 0"
}

#[test]
fn journals_that_are_refused(rt: HostRuntime) -> Result<(), Fail> {
    all_answered(&rt, rt.alloc(), refused_journals())
}
