// Histories that are made by calls, and compared after each with what scans of the entries give.
ghost use Rattle.std.specs.Prelude.{◌≡◌, ◌≤◌, ◌<◌, ◌^◌, length, true, All};
ghost use Rattle.journal_entry.specs.declared.entry.Entry.{Entry};
ghost use Rattle.history.specs.TotalsOf.{objects_named};

use crate::cases::*;
use crate::checked_call_tests::call;
use crate::entry_lines::*;
use crate::{OpenFault, State};
use history::{Entry, Limits, Point, Totals, erasable, standing, totals};
use ss_base::{Name, Object, Profile};
use std::alloc::Global;
use std::process;
use std::test::Fail;

// The session that the entry begins.
fn session_of(entry: &Entry) -> Option<u32> {
    match &entry.point {
        Point::Begin { session, .. } => *session,
        _ => None,
    }
}

fn ends_session(entry: &Entry, id: u32) -> bool {
    match &entry.point {
        Point::Finish { session, .. } => *session == id,
        Point::Abort { session, .. } => *session == id,
        _ => false,
    }
}

// The reading that the entry begins.
fn reader_of(entry: &Entry) -> Option<u32> {
    match &entry.point {
        Point::Look {
            seen: Some(seen),
            ..
        } => Some(seen.reader),
        _ => None,
    }
}

fn ends_reading(entry: &Entry, id: u32) -> bool {
    match &entry.point {
        Point::Done { reader } => *reader == id,
        _ => false,
    }
}

// Why the entries are no state's, which are legal: of the sessions that have no end the first, else of the readings.
fn left_unfinished(entries: &[Entry]) -> Option<OpenFault> {
    for entry in entries {
        if let Some(id) = session_of(entry) {
            if !entries.iter().any(|e| ends_session(e, id)) {
                return Some(OpenFault::UnfinishedSession(id));
            }
        }
    }
    for entry in entries {
        if let Some(id) = reader_of(entry) {
            if !entries.iter().any(|e| ends_reading(e, id)) {
                return Some(OpenFault::UnfinishedReading(id));
            }
        }
    }
    None
}

#[tactic(auto, unfolding(history::specs::TotalsOf::objects_named))]
fn objects_named(point: &Point) -> usize
    ensures { result ≡ objects_named point.now }
{
    match point {
        Point::Reclaim { objects } => objects.as_slice().len(),
        _ => 0,
    }
}

fn name_few(entries: &[Entry]) -> bool
    ensures { result ≡ true → All (λ (entry : Entry). objects_named entry.point ≤ 16) entries.now }
{
    match entries {
        [] => true,
        [entry, rest @ ..] => objects_named(&entry.point) <= 16 && name_few(rest),
    }
}

fn scanned_totals(alloc: Global, entries: &[Entry]) -> Result<Totals, Fail>
    requires { length entries.now < 2 ^ 32 }
{
    if !name_few(entries) {
        return Err("more than 16 objects")?;
    }
    Ok(totals(alloc, entries)?)
}

// The first 16 objects that can be erased, by a scan of the entries.
fn scanned_objects(alloc: Global, entries: &[Entry]) -> Result<Vec<Object>, Fail>
    requires { length entries.now < 2 ^ 32 }
{
    let mut objects = erasable(alloc, entries)?;
    objects.truncate(16);
    Ok(objects)
}

// The index, the totals and what a reclaim would name are what scans of the entries give.
pub(crate) fn agrees<const L: usize, const M: usize>(
    rt: &impl process::Abort,
    alloc: Global,
    state: &State<L, M>,
) -> Result<(), Fail> {
    let entries = state.entries();
    if entries.len() > 100 {
        return Err("a long history")?;
    }
    for hook in [H, G, F, NO_HOOK] {
        let stood = standing(alloc, entries, &hook, L)?;
        assert_eq!(rt; state.index().of(&hook), stood.as_slice());
    }
    let journal = state.journal();
    assert_eq!(rt; journal.totals(), scanned_totals(alloc, entries)?);
    let objects = scanned_objects(alloc, entries)?;
    assert_eq!(rt; journal.erasable(alloc)?.as_slice(), objects.as_slice());
    Ok(())
}

// Two states that are seen as the same, with what is kept beside the entries.
fn are_same<const L: usize, const M: usize>(
    rt: &impl process::Abort,
    alloc: Global,
    a: &State<L, M>,
    b: &State<L, M>,
) -> Result<(), Fail> {
    assert_eq!(rt; a.profile(), b.profile());
    assert_eq!(rt; a.entries(), b.entries());
    assert_eq!(rt; a.next_author(), b.next_author());
    assert_eq!(rt; a.journal().totals(), b.journal().totals());
    for hook in [H, G, F, NO_HOOK] {
        assert_eq!(rt; a.index().of(&hook), b.index().of(&hook));
    }
    let objects = a.journal().erasable(alloc)?;
    assert_eq!(rt; b.journal().erasable(alloc)?.as_slice(), objects.as_slice());
    Ok(())
}

// The state of these entries, or why there is none.
pub(crate) fn replayed<const L: usize, const M: usize>(
    limits: Limits,
    alloc: Global,
    entries: Vec<Entry>,
) -> Result<Result<State<L, M>, OpenFault>, Fail>
    requires standings { (1 ≤ L) × (L ≤ 255) }
    requires champions { (1 ≤ M) × (M ≤ 255) }
{
    if limits.entries > 1_048_576 || limits.weight > 16_777_216 {
        return Err("limits")?;
    }
    Ok(State::replay(alloc, Profile::Tiny, limits, entries))
}

// A copy of the state's entries gives the same state, or what is left unfinished.
pub(crate) fn replays<const L: usize, const M: usize>(
    rt: &impl process::Abort,
    alloc: Global,
    limits: Limits,
    state: &State<L, M>,
    copy: Vec<Entry>,
) -> Result<(), Fail>
    requires standings { (1 ≤ L) × (L ≤ 255) }
    requires champions { (1 ≤ M) × (M ≤ 255) }
{
    assert_eq!(rt; state.entries(), copy.as_slice());
    let left = left_unfinished(copy.as_slice());
    match replayed::<L, M>(limits, alloc, copy)? {
        Ok(again) => {
            assert_eq!(rt; left, None);
            are_same(rt, alloc, state, &again)?;
        }
        Err(fault) => assert_eq!(rt; left, Some(fault)),
    }
    Ok(())
}

// The state that the calls of this history make within the limits. After each it is compared with what scans give, and
// with the state of a copy of its entries.
pub(crate) fn play<const L: usize, const M: usize>(
    rt: &impl process::Abort,
    alloc: Global,
    limits: Limits,
    text: &str,
) -> Result<State<L, M>, Fail>
    requires standings { (1 ≤ L) × (L ≤ 255) }
    requires champions { (1 ≤ M) × (M ≤ 255) }
{
    let Ok(mut state) = replayed::<L, M>(limits, alloc, Vec::new(alloc))? else {
        return Err("no state of no entries")?;
    };
    let entries = read_history(alloc, text)?;
    for (i, entry) in entries.iter().enumerate() {
        assert!(rt; call(rt, alloc, &mut state, entry)?, "{i} of {text}");
        agrees(rt, alloc, &state)?;
        let mut copy = read_history(alloc, text)?;
        copy.truncate(i + 1);
        replays(rt, alloc, limits, &state, copy)?;
    }
    Ok(state)
}

// Histories whose runs each have an author of their own, and the author that comes next.
fn runs() -> [(&'static str, u32); 4] {
    [
        ("backups 15", 9),
        ("segments 8", 2),
        ("champions 12", 3),
        ("reading 9", 4),
    ]
}

#[test]
fn runs_by_calls(rt: HostRuntime) -> Result<(), Fail> {
    for (text, next) in runs() {
        let state = play::<8, 8>(&rt, rt.alloc(), LIMITS, text)?;
        assert_eq!(rt; state.next_author(), Some(next));
    }
    Ok(())
}
