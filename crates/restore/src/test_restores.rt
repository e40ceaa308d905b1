// Streams that are restored, and those that are not. The store has six entries at first.

use crate::test_state::{Fixture, full_store, store, store_with_damage, store_with_text, stream};
use chunk_name::name_of;
use depot::RestoreFault;
use outside::MemShelf;
use std::alloc::Global;
use std::test::Fail;

// What a restore of this name to `o` answers, how many entries there are then, and what `o` holds.
#[derive(Drop)]
struct Outcome {
    answer: Result<u64, RestoreFault>,
    entries: usize,
    output: Option<&'static [u8]>,
}

// Whether the output holds these bytes, or is not there.
fn holds(files: &MemShelf, output: Option<&[u8]>) -> bool {
    let Some(bytes) = output else {
        return files.get("o").is_none();
    };
    let Some(held) = files.get("o") else {
        return false;
    };
    held == bytes
}

fn agrees(
    alloc: Global,
    store: &mut Fixture,
    name: &[u8],
    outcome: &Outcome,
) -> Result<bool, Fail> {
    let answer = store.restore(alloc, stream(name)?, "o");
    let entries = store.state.entries().len();
    let held = holds(&store.files, outcome.output);
    Ok(answer == outcome.answer && entries == outcome.entries && held)
}

fn ended(
    answer: Result<u64, RestoreFault>,
    entries: usize,
    output: Option<&'static [u8]>,
) -> Outcome {
    Outcome {
        answer,
        entries,
        output,
    }
}

#[test]
fn streams_are_restored(rt: HostRuntime) -> Result<(), Fail> {
    let alloc = rt.alloc();
    let mut whole = store(alloc, (0, 0))?;
    assert!(rt; agrees(alloc, &mut whole, b"x", &ended(Ok(3), 8, Some(b"abc")))?);
    let mut empty = store(alloc, (0, 0))?;
    assert!(rt; agrees(alloc, &mut empty, b"e", &ended(Ok(0), 8, Some(b"")))?);
    Ok(())
}

#[test]
fn a_restore_is_refused(rt: HostRuntime) -> Result<(), Fail> {
    let alloc = rt.alloc();
    let mut there = store(alloc, (0, 0))?;
    there.files.set("o", b"old")?;
    let exists = ended(Err(RestoreFault::Exists), 6, Some(b"old"));
    assert!(rt; agrees(alloc, &mut there, b"x", &exists)?);
    let mut unnamed = store(alloc, (0, 0))?;
    assert!(rt;
        agrees(
            alloc,
            &mut unnamed,
            b"y",
            &ended(Err(RestoreFault::NoStream), 7, None)
        )?
    );
    let mut full = full_store(alloc)?;
    assert!(rt;
        agrees(
            alloc,
            &mut full,
            b"x",
            &ended(Err(RestoreFault::Full), 6, None)
        )?
    );
    Ok(())
}

#[test]
fn damage_ends_a_restore(rt: HostRuntime) -> Result<(), Fail> {
    let alloc = rt.alloc();
    let mut chunk = store_with_damage(alloc)?;
    let damaged = RestoreFault::Damaged {
        want: name_of(b"c"),
        got: name_of(b"d"),
    };
    assert!(rt;
        agrees(
            alloc,
            &mut chunk,
            b"x",
            &ended(Err(damaged), 8, Some(b"ab"))
        )?
    );
    let mut manifest = store_with_text(alloc, b"abc")?;
    let unlike = RestoreFault::Unlike {
        text: name_of(b"abc"),
    };
    assert!(rt;
        agrees(
            alloc,
            &mut manifest,
            b"x",
            &ended(Err(unlike), 8, Some(b""))
        )?
    );
    Ok(())
}

fn files_fail() -> [Outcome; 4] {
    let fault = Err(RestoreFault::OutputFault);
    [
        ended(fault, 6, None),
        ended(fault, 8, None),
        ended(fault, 8, Some(b"")),
        ended(fault, 8, Some(b"ab")),
    ]
}

fn depot_fails() -> [Outcome; 3] {
    let fault = Err(RestoreFault::DepotFault);
    [
        ended(fault, 8, Some(b"")),
        ended(fault, 8, Some(b"")),
        ended(fault, 8, Some(b"ab")),
    ]
}

#[test]
fn each_call_fails_in_turn(rt: HostRuntime) -> Result<(), Fail> {
    let alloc = rt.alloc();
    let mut call: u32 = 0;
    for outcome in files_fail().iter() {
        call = call.wrapping_add(1);
        assert!(rt; agrees(alloc, &mut store(alloc, (call, 0))?, b"x", outcome)?);
    }
    let mut call: u32 = 0;
    for outcome in depot_fails().iter() {
        call = call.wrapping_add(1);
        assert!(rt; agrees(alloc, &mut store(alloc, (0, call))?, b"x", outcome)?);
    }
    Ok(())
}
