// One run of each call. What the calls add is compared in the tests of the state.
use super::*;
use history::{Limits, Point};
use ss_base::{Profile, StreamName};
use std::alloc::Global;
use std::test::Fail;
use store_core::State;

fn store(alloc: Global) -> Result<State<8, 8>, Fail> {
    let limits = Limits {
        entries: 100,
        weight: 100,
    };
    match State::replay(alloc, Profile::Tiny, limits, Vec::new(alloc)) {
        Ok(state) => Ok(state),
        Err(_) => Err("the journal is refused".into()),
    }
}

fn stream() -> Result<StreamName, Fail> {
    let name = StreamName::new(b"x").ok_or("no name")?;
    Ok(name)
}

#[test]
fn a_session_is_finished_and_read(rt: HostRuntime) -> Result<(), Fail> {
    let alloc = rt.alloc();
    let mut state = store(alloc)?;
    let Ok(open) = SessionCalls::begin(&mut state, Caller { author: 7 }, stream()?) else {
        return Err("not begun".into());
    };
    assert_eq!(rt; state.session(&open), 0);
    let caller = SessionCalls::finish(&mut state, open, 0);
    let Ok(reading) = ReadingCalls::look(&mut state, alloc, caller, stream()?) else {
        return Err("not looked up".into());
    };
    assert_eq!(rt; state.looked(&reading).session, 0);
    let caller = ReadingCalls::done(&mut state, reading);
    assert_eq!(rt; caller.author, 7);
    let authors = [7, 7, 7, 7];
    assert_eq!(rt; state.entries().len(), authors.len());
    for (entry, author) in state.entries().iter().zip(authors.iter()) {
        assert_eq!(rt; entry.author, *author);
    }
    assert!(rt; matches!(state.entries()[3].point, Point::Done { reader: 0 }));
    Ok(())
}

#[test]
fn a_session_is_given_up(rt: HostRuntime) -> Result<(), Fail> {
    let alloc = rt.alloc();
    let mut state = store(alloc)?;
    let Ok(open) = SessionCalls::begin(&mut state, Caller { author: 3 }, stream()?) else {
        return Err("not begun".into());
    };
    let Ok(chosen) = SessionCalls::choose(&mut state, alloc, open, Vec::new(alloc)) else {
        return Err("not chosen for".into());
    };
    assert_eq!(rt; state.choice(&chosen).champions.len(), 0);
    let caller = state.abort_chosen(chosen, 1, 0);
    assert_eq!(rt; caller.author, 3);
    assert_eq!(rt; state.entries().len(), 3);
    assert!(rt;
        matches!(
            state.entries()[2].point,
            Point::Abort {
                session: 0,
                containers: 1,
                texts: 0
            }
        )
    );
    Ok(())
}
