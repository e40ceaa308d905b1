use crate::{add_entry, empty_index, make_room};
use history::{Entry, Limits, Point, Rules};
use ss_base::{Name, StreamName};
use std::test::Fail;

const RULES: Rules = Rules {
    bits: 1,
    standings: 2,
    champions: 2,
    limits: Limits {
        entries: 100,
        weight: 100,
    },
};

// After the first session's Begin nothing stands yet.
#[test]
fn a_session_begins(rt: HostRuntime) -> Result<(), Fail> {
    let mut index = empty_index::<2>(rt.alloc());
    let name = StreamName::new(b"x").ok_or("a stream name")?;
    let session = Some(0);
    let begin = Entry {
        author: 0,
        point: Point::Begin { name, session },
    };
    make_room(&mut index, &begin)?;
    add_entry(&mut index, &RULES, &[], &begin, &[]);
    assert!(rt; index.of(&Name([0; 32])).is_empty());
    Ok(())
}
