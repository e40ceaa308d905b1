// Lanes on one store, each in a thread.
ghost use Rattle.std.specs.Prelude.{◌≡◌, ℕ, [], Some, IfOk};

use crate::test_lanes::{Lane, Work, repeats};
use history::{Entry, Limits, Point};
use outside::{MemShelf, RecordShelf};
use ss_base::{Memory, Profile, StreamName};
use std::alloc::Global;
use std::sync::Wait;
use std::test::Fail;
use std::thread;
use std::thread::Threads;
use store_core::State;
use store_shared::{Pass, Store};

fn empty(alloc: Global) -> Result<State<8, 8>, Fail>
    ensures { IfOk result (λ state. state.entries ≡ []) }
{
    let limits = Limits {
        entries: 10000,
        weight: 100000,
    };
    match State::replay(alloc, Profile::Tiny, limits, Vec::new(alloc)) {
        Ok(state) => Ok(state),
        Err(_) => Err("the journal is refused".into()),
    }
}

pub(crate) fn start(alloc: Global) -> Result<(Store<8, 8>, Pass), Fail>
    ensures turns { IfOk result (λ r. r.1.turns ≡ r.0) }
    ensures opener { IfOk result (λ r. (n : ℕ) × (r.1.next ≡ Some n)) }
{
    let state = empty(alloc)?;
    let started = Store::start(alloc, state, 0)?;
    Ok(started)
}

fn split(store: &Store<8, 8>, opener: &mut Pass) -> Result<Pass, Memory>
    requires turns { opener.old.turns ≡ store.now }
    requires opener { (n : ℕ) × (opener.old.next ≡ Some n) }
    ensures turns { opener.new.turns ≡ store.now }
    ensures opener { IfOk result (λ _. (n : ℕ) × (opener.new.next ≡ Some n)) }
    ensures pass { IfOk result (λ pass. pass.turns ≡ store.now) }
{
    match store.split(opener) {
        Ok(pass) => Ok(pass),
        Err(_) => Err(Memory),
    }
}

// Some hundred bytes that all streams begin with, and behind them one of the lane's own, again and again.
fn stream_of(alloc: Global, own: u8) -> Result<Vec<u8>, Memory> {
    let mut bytes = Vec::new(alloc);
    let mut state: u32 = 1;
    for _ in 0..900 {
        state = state.wrapping_mul(1664525).wrapping_add(1013904223);
        bytes.push((state / 16777216) as u8)?;
    }
    for _ in 0..250 {
        bytes.push(own)?;
    }
    Ok(bytes)
}

fn files_of(alloc: Global, own: u8) -> Result<MemShelf, Fail> {
    let mut files = MemShelf::new(alloc, Vec::new(alloc));
    let stream = stream_of(alloc, own)?;
    files.set("in", &stream)?;
    Ok(files)
}

fn lane<'a, R: Wait + Sync>(
    alloc: Global,
    pass: Pass,
    number: u32,
    own: u8,
    work: Work,
    objects: &RecordShelf<'a, R>,
) -> Result<Lane<'a, R>, Fail>
    ensures { IfOk result (λ lane. lane.pass ≡ pass) }
{
    let files = files_of(alloc, own)?;
    let name = StreamName::new(&[own]).ok_or("no name")?;
    let objects = objects.another()?;
    Ok(Lane {
        pass,
        number,
        files,
        objects,
        name,
        work,
    })
}

// A lane for each pass, over one depot.
fn lanes<'a, R: Wait + Sync>(
    rt: &'a R,
    alloc: Global,
    first: Pass,
    second: Pass,
    third: Pass,
) -> Result<(Lane<'a, R>, Lane<'a, R>, Lane<'a, R>), Fail>
    ensures first { IfOk result (λ r. r.0.pass ≡ first) }
    ensures second { IfOk result (λ r. r.1.pass ≡ second) }
    ensures third { IfOk result (λ r. r.2.pass ≡ third) }
{
    let objects = RecordShelf::new(rt, alloc)?;
    let one = lane(alloc, first, 1, b'x', Work::Restore, &objects)?;
    let other = lane(alloc, second, 2, b'y', Work::Restore, &objects)?;
    let third = lane(alloc, third, 3, b'z', Work::Reclaim, &objects)?;
    Ok((one, other, third))
}

// Two lanes that restore what they back up.
fn two<R: Threads + Wait + Sync>(
    rt: &R,
    alloc: Global,
    store: &Store<8, 8>,
    one: Lane<'_, R>,
    other: Lane<'_, R>,
) -> (Pass, bool)
    requires one { one.pass.turns ≡ store.now }
    requires other { other.pass.turns ≡ store.now }
    ensures { result.0.turns ≡ store.now }
{
    let (one, other) = thread::join(
        rt,
        || -> (Pass, bool)
            requires { one.pass.turns ≡ store.now }
            ensures { result.0.turns ≡ store.entry.now }
        { repeats(rt, alloc, store, one, 100) },
        || -> (Pass, bool)
            requires { other.pass.turns ≡ store.now }
            ensures { result.0.turns ≡ store.entry.now }
        { repeats(rt, alloc, store, other, 100) },
    );
    (store.join(one.0, other.0), one.1 && other.1)
}

// And a third that deletes and reclaims meanwhile.
fn three<R: Threads + Wait + Sync>(
    rt: &R,
    alloc: Global,
    store: &Store<8, 8>,
    one: Lane<'_, R>,
    other: Lane<'_, R>,
    third: Lane<'_, R>,
) -> (Pass, bool)
    requires one { one.pass.turns ≡ store.now }
    requires other { other.pass.turns ≡ store.now }
    requires third { third.pass.turns ≡ store.now }
    ensures { result.0.turns ≡ store.now }
{
    let (both, third) = thread::join(
        rt,
        || -> (Pass, bool)
            requires one { one.pass.turns ≡ store.now }
            requires other { other.pass.turns ≡ store.now }
            ensures { result.0.turns ≡ store.entry.now }
        { two(rt, alloc, store, one, other) },
        || -> (Pass, bool)
            requires { third.pass.turns ≡ store.now }
            ensures { result.0.turns ≡ store.entry.now }
        { repeats(rt, alloc, store, third, 100) },
    );
    (store.join(both.0, third.0), both.1 && third.1)
}

// How many entries of an author are of these kinds: a finish, a done, a delete of a stream, a reclaim.
fn counts(entries: &[Entry], author: u32) -> [u32; 4] {
    let mut counts: [u32; 4] = [0; 4];
    for entry in entries.iter().filter(|entry| entry.author == author) {
        let kind = match entry.point {
            Point::Finish { .. } => 0,
            Point::Done { .. } => 1,
            Point::Delete {
                session: Some(_),
                ..
            } => 2,
            Point::Reclaim { .. } => 3,
            _ => continue,
        };
        counts[kind] = counts[kind].saturating_add(1);
    }
    counts
}

// A store with three passes.
fn opened(alloc: Global) -> Result<(Store<8, 8>, Pass, Pass, Pass), Fail>
    ensures first { IfOk result (λ r. r.1.turns ≡ r.0) }
    ensures second { IfOk result (λ r. r.2.turns ≡ r.0) }
    ensures third { IfOk result (λ r. r.3.turns ≡ r.0) }
{
    let (store, mut first) = start(alloc)?;
    let second = split(&store, &mut first)?;
    let third = split(&store, &mut first)?;
    Ok((store, first, second, third))
}

// Three lanes at work, whether all of it went well, and the state that they leave.
fn run<R: Threads + Wait + Sync>(rt: &R, alloc: Global) -> Result<(bool, State<8, 8>), Fail> {
    let (store, first, second, third) = opened(alloc)?;
    let (one, other, last) = lanes(rt, alloc, first, second, third)?;
    let (pass, all) = three(rt, alloc, &store, one, other, last);
    Ok((all, store.end(rt, pass)))
}

fn has_all(entries: &[Entry]) -> bool {
    counts(entries, 0) == [100, 100, 100, 0]
        && counts(entries, 1) == [100, 100, 100, 0]
        && counts(entries, 2) == [100, 0, 100, 100]
}

#[test]
fn streams_come_back_beside_others(rt: HostRuntime) -> Result<(), Fail> {
    let (all, state) = run(&rt, rt.alloc())?;
    assert!(rt; all && has_all(state.entries()));
    Ok(())
}
