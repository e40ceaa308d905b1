// Callers of one store, one after another and in threads.
ghost use Rattle.std.specs.Prelude.{◌≡◌, ℕ, [], Some, IfOk, All};
ghost use Rattle.turn_lock.specs.Passes.{PassView};

use crate::{Pass, Store};
use history::{Entry, Limits, Point};
use ss_base::{Memory, Profile, StreamName};
use std::alloc::Global;
use std::sync::Wait;
use std::test::Fail;
use std::thread;
use std::thread::Threads;
use store_core::State;

fn empty(alloc: Global) -> Result<State<8, 8>, Fail>
    ensures { IfOk result (λ state. state.entries ≡ []) }
{
    let limits = Limits {
        entries: 10000,
        weight: 10000,
    };
    match State::replay(alloc, Profile::Tiny, limits, Vec::new(alloc)) {
        Ok(state) => Ok(state),
        Err(_) => Err("the journal is refused".into()),
    }
}

fn start(alloc: Global) -> Result<(Store<8, 8>, Pass), Fail>
    ensures turns { IfOk result (λ r. r.1.turns ≡ r.0) }
    ensures opener { IfOk result (λ r. (n : ℕ) × (r.1.next ≡ Some n)) }
{
    let state = empty(alloc)?;
    let started = Store::start(alloc, state, 0)?;
    Ok(started)
}

fn split(store: &Store<8, 8>, opener: &mut Pass) -> Result<Pass, Memory>
    requires turns { opener.old.turns ≡ store.now }
    requires opener { (n : ℕ) × (opener.old.next ≡ Some n) }
    ensures turns { opener.new.turns ≡ store.now }
    ensures opener { IfOk result (λ _. (n : ℕ) × (opener.new.next ≡ Some n)) }
    ensures pass { IfOk result (λ pass. pass.turns ≡ store.now) }
{
    match store.split(opener) {
        Ok(pass) => Ok(pass),
        Err(_) => Err(Memory),
    }
}

// A Stat of the pass, and how many entries it tells.
fn count<R: Wait>(rt: &R, store: &Store<8, 8>, pass: Pass) -> (Pass, u64)
    requires { pass.turns ≡ store.now }
    ensures { result.0.turns ≡ store.now }
{
    let (pass, answer) = store.stat(rt, pass);
    match answer {
        Ok(totals) => (pass, totals.entries),
        Err(_) => (pass, u64::MAX),
    }
}

#[test]
fn two_passes_meet(rt: HostRuntime) -> Result<(), Fail> {
    let (store, mut one) = start(rt.alloc())?;
    let two = split(&store, &mut one)?;
    let (mut one, first) = count(&rt, &store, one);
    let (mut two, second) = count(&rt, &store, two);
    assert!(rt; first == 0 && second == 1);
    let note = store.note(&mut one)?;
    store.meet(&mut two, note);
    let state = store.end(&rt, two);
    let authors: [u32; 2] = [0, 1];
    assert!(rt; state.entries().len() == authors.len());
    for (entry, author) in state.entries().iter().zip(authors.iter()) {
        assert!(rt; entry.author == *author);
    }
    Ok(())
}

// Begins a stream of no bytes, finishes it and deletes it.
fn one_stream<R: Wait>(rt: &R, store: &Store<8, 8>, pass: Pass, name: &StreamName) -> Pass
    requires { pass.turns ≡ store.now }
    ensures { result.turns ≡ store.now }
{
    match store.begin(rt, pass, *name) {
        Ok(session) => {
            let pass = store.finish(rt, session, 0);
            let (pass, _) = store.delete(rt, pass, *name);
            pass
        }
        Err((pass, _)) => pass,
    }
}

fn many<R: Wait>(rt: &R, store: &Store<8, 8>, pass: Pass, name: &StreamName, times: u32) -> Pass
    requires { pass.turns ≡ store.now }
    ensures { result.turns ≡ store.now }
{
    let mut pass = pass;
    for _ in 0..times {
        pass = one_stream(rt, store, pass, name);
    }
    pass
}

// Whether the entries of an author are those of so many streams, each begun, finished and deleted.
fn has_streams(entries: &[Entry], author: u32, times: u32) -> bool {
    let mut place = 0;
    let mut streams = 0;
    for entry in entries.iter().filter(|entry| entry.author == author) {
        let fits = match entry.point {
            Point::Begin { session, .. } => place == 0 && session.is_some(),
            Point::Finish { .. } => place == 1,
            Point::Delete { session, .. } => place == 2 && session.is_some(),
            _ => false,
        };
        if !fits || streams >= times {
            return false;
        }
        if place == 2 {
            place = 0;
            streams += 1;
        } else {
            place += 1;
        }
    }
    place == 0 && streams == times
}

fn names() -> Result<(StreamName, StreamName), Fail> {
    let one = StreamName::new(b"x").ok_or("no name")?;
    let two = StreamName::new(b"y").ok_or("no name")?;
    Ok((one, two))
}

// Two passes store streams beside one another, each in a thread.
fn at_once<R: Threads + Wait + Sync>(
    rt: &R,
    store: &Store<8, 8>,
    one: Pass,
    two: Pass,
    names: (StreamName, StreamName),
) -> Pass
    requires one { one.turns ≡ store.now }
    requires two { two.turns ≡ store.now }
    ensures { result.turns ≡ store.now }
{
    let (x, y) = names;
    let (one, two) = thread::join(
        rt,
        || -> Pass
            requires { one.turns ≡ store.now }
            ensures { result.turns ≡ store.entry.now }
        { many(rt, store, one, &x, 100) },
        || -> Pass
            requires { two.turns ≡ store.now }
            ensures { result.turns ≡ store.entry.now }
        { many(rt, store, two, &y, 100) },
    );
    store.join(one, two)
}

#[test]
fn two_threads_store_streams(rt: HostRuntime) -> Result<(), Fail> {
    let (store, mut one) = start(rt.alloc())?;
    let two = split(&store, &mut one)?;
    let all = at_once(&rt, &store, one, two, names()?);
    let state = store.end(&rt, all);
    assert!(rt; state.entries().len() == 600);
    assert!(rt; has_streams(state.entries(), 0, 100));
    assert!(rt; has_streams(state.entries(), 1, 100));
    Ok(())
}
