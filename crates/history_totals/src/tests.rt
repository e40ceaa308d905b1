use crate::Tally;
use history::{Entry, Limits, Point, Rules, Totals};
use ss_base::StreamName;
use std::test::Fail;

const RULES: Rules = Rules {
    bits: 1,
    standings: 8,
    champions: 8,
    limits: Limits {
        entries: 100,
        weight: 100,
    },
};

// A session begins, and is to be ended.
#[test]
fn a_session_begins(rt: HostRuntime) -> Result<(), Fail> {
    let name = StreamName::new(b"x").ok_or("a stream name")?;
    let session = Some(0);
    let begin = Entry {
        author: 7,
        point: Point::Begin { name, session },
    };
    let mut found = Tally::new();
    assert!(rt; found.fits(&RULES, &[], &begin));
    found.add_entry(&RULES, &[], &begin, &[]);
    let wanted = Tally {
        totals: Totals {
            entries: 1,
            ..Tally::new().totals
        },
        weight: 0,
        unfinished: 1,
        next_author: 8,
    };
    assert_eq!(rt; found, wanted);
    Ok(())
}

#[test]
fn next_authors(rt: HostRuntime) -> Result<(), Fail> {
    let first = Tally::new();
    assert_eq!(rt; first.next_author(), Some(0));
    for (author, next) in [
        (7, Some(7)),
        (4_294_967_295, Some(4_294_967_295)),
        (4_294_967_296, None),
    ] {
        let later = Tally {
            next_author: author,
            ..first
        };
        assert_eq!(rt; later.next_author(), next);
    }
    Ok(())
}
