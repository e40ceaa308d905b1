use super::*;
use history::Limits;
use ss_base::StreamName;
use std::alloc::Global;
use std::test::Fail;

const RULES: Rules = Rules {
    bits: 1,
    standings: 8,
    champions: 8,
    limits: Limits {
        entries: 100,
        weight: 100,
    },
};

fn name() -> Result<StreamName, Fail> {
    Ok(StreamName::new(b"a").ok_or("a stream name")?)
}

// A session that began under the name, and was given up.
fn given_up(alloc: Global, name: StreamName) -> Result<LegalHistory, Fail> {
    let mut history = LegalHistory::new(alloc, RULES);
    let begin = Entry {
        author: 0,
        point: Point::Begin {
            name,
            session: Some(0),
        },
    };
    history.push(begin)?;
    let abort = Entry {
        author: 0,
        point: Point::Abort {
            session: 0,
            containers: 0,
            texts: 0,
        },
    };
    history.push(abort)?;
    Ok(history)
}

#[test]
fn sessions(rt: HostRuntime) -> Result<(), Fail> {
    let history = given_up(rt.alloc(), name()?)?;
    assert_eq!(rt; history.session_count(), 1);
    assert!(rt; !history.is_unfinished(0));
    assert!(rt; history.is_begun_by(0, 0));
    assert!(rt; !history.is_pending(0));
    assert_eq!(rt; history.own_end(0), 0);
    assert_eq!(rt; history.entries().len(), 2);
    assert_eq!(rt; history.rules(), RULES);
    Ok(())
}

#[test]
fn names(rt: HostRuntime) -> Result<(), Fail> {
    let name = name()?;
    let history = given_up(rt.alloc(), name)?;
    assert!(rt; !history.is_held(&name));
    assert_eq!(rt; history.retained(&name), None);
    Ok(())
}

#[test]
fn choices(rt: HostRuntime) -> Result<(), Fail> {
    let history = LegalHistory::new(rt.alloc(), RULES);
    assert!(rt; history.choices(0).is_empty());
    assert!(rt; history.commits(0).is_empty());
    assert!(rt; history.last_hooks(0).is_empty());
    assert!(rt; history.last_champions(0).is_empty());
    assert!(rt; history.champion_numbers(0).is_empty());
    Ok(())
}

#[test]
fn readings(rt: HostRuntime) -> Result<(), Fail> {
    let history = LegalHistory::new(rt.alloc(), RULES);
    assert_eq!(rt; history.reading_count(), 0);
    assert!(rt; !history.is_reading(0));
    assert!(rt; !history.is_looked_by(0, 0));
    assert_eq!(rt; history.reading(0), None);
    Ok(())
}
