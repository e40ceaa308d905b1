use super::*;
use history::{Entry, Items, Limits, Point, Rules};
use pins_counts::Counts;
use ss_base::{ContainerId, ManifestId, Name, Object, StreamName};
use std::alloc::Global;
use std::test::Fail;

const M00: ManifestId = ManifestId { session: 0, seq: 0 };

const C00: ContainerId = ContainerId {
    session: 0,
    ordinal: 0,
};

const RULES: Rules = Rules {
    bits: 1,
    standings: 8,
    champions: 8,
    limits: Limits {
        entries: 100,
        weight: 100,
    },
};

fn name() -> Result<StreamName, Fail> {
    Ok(StreamName::new(b"x").ok_or("a stream name")?)
}

fn commit(alloc: Global) -> Result<Point, Fail> {
    Ok(Point::Commit {
        manifest: M00,
        content: Name([1; 32]),
        text: Name([2; 32]),
        chunks: 1,
        bytes: 1,
        fresh: 1,
        fresh_bytes: 1,
        uses: Items::new(Vec::from_slice(alloc, &[C00])?),
    })
}

fn reclaim(alloc: Global) -> Result<Point, Fail> {
    let objects = [Object::Container(C00), Object::Manifest(M00)];
    Ok(Point::Reclaim {
        objects: Items::new(Vec::from_slice(alloc, &objects)?),
    })
}

// There is room for a session, for what a commit lists and for what is reclaimed, and nothing is counted yet.
#[test]
fn room_changes_no_number(rt: HostRuntime) -> Result<(), Fail> {
    let alloc = rt.alloc();
    let mut counts = Counts::new(alloc);
    let begin = Point::Begin {
        name: name()?,
        session: Some(0),
    };
    for point in [begin, commit(alloc)?, reclaim(alloc)?] {
        let entry = Entry { author: 0, point };
        make_room(&mut counts, &entry)?;
        assert_eq!(rt; counts.holds(M00), 0);
        assert!(rt; counts.dead(alloc, 16)?.is_empty());
    }
    nothing_is_counted();
    dead_is_erasable();
    Ok(())
}

// A session begins: it has nothing yet.
#[test]
fn a_session_begins(rt: HostRuntime) -> Result<(), Fail> {
    let alloc = rt.alloc();
    let mut counts = Counts::new(alloc);
    nothing_is_counted();
    let name = name()?;
    let session = Some(0);
    let begin = Entry {
        author: 0,
        point: Point::Begin { name, session },
    };
    make_room(&mut counts, &begin)?;
    add_entry(&mut counts, &RULES, &[], &begin, &[], &[]);
    assert!(rt; counts.dead(alloc, 16)?.is_empty());
    Ok(())
}
