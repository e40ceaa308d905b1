// A list of entries that threads add to in turns.
ghost use Rattle.std.specs.Prelude.{◌≡◌, ℕ, [], Some, IfOk, All};
ghost use Rattle.turn_lock.specs.Passes.{PassView};

use crate::{Logged, Pass, SplitFault, Turns};
use journal_entry::{Entry, Point};
use ss_base::Memory;
use std::alloc::Global;
use std::sync::Wait;
use std::test::Fail;
use std::thread;
use std::thread::Threads;

#[derive(Drop)]
struct Log {
    entries: Vec<Entry>,
}

impl Logged for Log {
    ghost use Rattle.std.specs.Prelude.{[]};

    ghost entries = { λ log. log.entries.items };

    ghost base = { λ log. [] };
}

fn empty(alloc: Global) -> Log
    ensures { result.entries.items ≡ [] }
{
    Log {
        entries: Vec::new(alloc),
    }
}

// One turn, which adds an entry where there is memory.
fn turn<R: Wait>(rt: &R, turns: &Turns<Log>, pass: Pass, ordinal: u32) -> Pass
    requires { pass.turns ≡ turns.now }
    ensures { result.turns ≡ turns.now }
{
    let author = pass.number;
    let mut inside = turns.enter(rt, pass);
    let point = Point::Done { reader: ordinal };
    let _ = inside.state.entries.push(Entry { author, point });
    turns.leave(rt, inside)
}

fn many<R: Wait>(rt: &R, turns: &Turns<Log>, pass: Pass, count: u32) -> Pass
    requires { pass.turns ≡ turns.now }
    ensures { result.turns ≡ turns.now }
{
    let mut pass = pass;
    for ordinal in 0..count {
        pass = turn(rt, turns, pass, ordinal);
    }
    pass
}

// So many passes, with the numbers that are next.
fn split_off(
    alloc: Global,
    turns: &Turns<Log>,
    opener: &mut Pass,
    count: u32,
) -> Result<Vec<Pass>, Memory>
    requires turns { opener.old.turns ≡ turns.now }
    requires opener { (n : ℕ) × (opener.old.next ≡ Some n) }
    ensures turns { opener.new.turns ≡ turns.now }
    ensures passes { IfOk result (λ passes. All (λ (pass : PassView). pass.turns ≡ turns.now) passes.items) }
{
    let mut passes = Vec::new(alloc);
    for _ in 0..count {
        let Ok(pass) = turns.split(opener) else {
            return Err(Memory);
        };
        passes.push(pass)?;
    }
    Ok(passes)
}

fn joined(turns: &Turns<Log>, opener: Pass, mut passes: Vec<Pass>) -> Pass
    requires opener { opener.turns ≡ turns.now }
    requires passes { All (λ (pass : PassView). pass.turns ≡ turns.now) passes.items }
    ensures { result.turns ≡ turns.now }
{
    let mut all = opener;
    while let Some(pass) = passes.pop() {
        all = turns.join(all, pass);
    }
    all
}

// Each pass takes its turns in a thread of its own, and then all are joined.
fn at_once<R: Threads + Wait + Sync>(
    rt: &R,
    turns: &Turns<Log>,
    opener: Pass,
    passes: Vec<Pass>,
    count: u32,
) -> Result<Pass, Memory>
    requires opener { opener.turns ≡ turns.now }
    requires passes { All (λ (pass : PassView). pass.turns ≡ turns.now) passes.items }
    ensures { IfOk result (λ all. all.turns ≡ turns.now) }
{
    let turns_of = |pass: Pass| -> Pass
        requires { pass.turns ≡ turns.now }
        ensures { result.turns ≡ turns.entry.now }
    { many(rt, turns, pass, count) };
    let passes = thread::map_vec(rt, passes, &turns_of)?;
    Ok(joined(turns, opener, passes))
}

// The entries of an author are numbered from 0, in their order.
fn in_order(log: &Log, author: u32, count: u32) -> bool {
    let mut next = 0;
    for entry in log.entries.iter() {
        if entry.author == author {
            if next >= count || entry.point != (Point::Done { reader: next }) {
                return false;
            }
            next += 1;
        }
    }
    next == count
}

// So many threads take so many turns each, beside one another.
fn take_turns<R: Threads + Wait + Sync>(
    rt: &R,
    alloc: Global,
    threads: u32,
    count: u32,
) -> Result<Log, Memory> {
    let (turns, mut opener) = Turns::start(alloc, empty(alloc), 0)?;
    let passes = split_off(alloc, &turns, &mut opener, threads)?;
    let all = at_once(rt, &turns, opener, passes, count)?;
    Ok(turns.enter(rt, all).end())
}

#[test]
fn two_threads_take_turns(rt: HostRuntime) -> Result<(), Fail> {
    let log = take_turns(&rt, rt.alloc(), 2, 1000)?;
    assert!(rt; log.entries.len() == 2000);
    assert!(rt; in_order(&log, 1, 1000) && in_order(&log, 2, 1000));
    Ok(())
}

// A turn is handed on in some microseconds, as long as whoever waits for it yields.
#[test]
fn eight_threads_take_turns(rt: HostRuntime) -> Result<(), Fail> {
    let log = take_turns(&rt, rt.alloc(), 8, 10000)?;
    assert!(rt; log.entries.len() == 80000);
    for author in 1..9 {
        assert!(rt; in_order(&log, author, 10000), "{author}");
    }
    Ok(())
}

#[test]
fn the_last_number(rt: HostRuntime) -> Result<(), Fail> {
    let (turns, mut one) = Turns::start(rt.alloc(), empty(rt.alloc()), u32::MAX)?;
    let first = turns.split(&mut one);
    let second = turns.split(&mut one);
    assert!(rt; matches!(first, Err(SplitFault::Callers(4294967296))));
    assert!(rt; matches!(second, Err(SplitFault::Callers(4294967296))));
    Ok(())
}

#[test]
fn a_note_meets_a_pass(rt: HostRuntime) -> Result<(), Fail> {
    let (turns, mut one) = Turns::start(rt.alloc(), empty(rt.alloc()), 0)?;
    let Ok(other) = turns.split(&mut one) else {
        panic!(rt; "a number is left")
    };
    let mut one = turn(&rt, &turns, one, 0);
    let mut other = turn(&rt, &turns, other, 0);
    let note = turns.note(&mut one)?;
    turns.meet(&mut other, note);
    let log = turns.enter(&rt, other).end();
    assert!(rt; in_order(&log, 0, 1) && in_order(&log, 1, 1));
    Ok(())
}
