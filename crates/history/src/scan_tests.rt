// What scans of a history answer.
use crate::*;
use ss_base::{ContainerId, ManifestId, Name, Object, Standing, StreamName};
use std::alloc::Global;
use std::test::Fail;

const H: Name = Name([0; 32]);

const M: ManifestId = ManifestId { session: 0, seq: 0 };

const C: ContainerId = ContainerId {
    session: 0,
    ordinal: 2,
};

fn stream(text: &str) -> Result<StreamName, Fail> {
    Ok(StreamName::new(text.as_bytes()).ok_or("a stream name")?)
}

fn choose(alloc: Global, session: u32, champions: &[ManifestId]) -> Result<Point, Fail> {
    Ok(Point::Choose {
        session,
        hooks: Items::new(Vec::from_slice(alloc, &[H])?),
        champions: Items::new(Vec::from_slice(alloc, champions)?),
    })
}

fn commit(alloc: Global) -> Result<Point, Fail> {
    Ok(Point::Commit {
        manifest: M,
        content: Name([1; 32]),
        text: Name([2; 32]),
        chunks: 4,
        bytes: 769,
        fresh: 2,
        fresh_bytes: 257,
        uses: Items::new(Vec::from_slice(alloc, &[C])?),
    })
}

fn add(entries: &mut Vec<Entry>, author: u32, point: Point) -> Result<(), Fail> {
    entries.push(Entry { author, point })?;
    Ok(())
}

// A stream of one segment is stored.
fn stored(alloc: Global) -> Result<Vec<Entry>, Fail> {
    let mut entries = Vec::new(alloc);
    let name = stream("x")?;
    let session = Some(0);
    add(&mut entries, 0, Point::Begin { name, session })?;
    add(&mut entries, 0, choose(alloc, 0, &[])?)?;
    add(&mut entries, 0, commit(alloc)?)?;
    let finish = Point::Finish {
        session: 0,
        containers: 3,
    };
    add(&mut entries, 0, finish)?;
    Ok(entries)
}

// Then it is read, and a second session has its manifest as champion.
fn under_way(alloc: Global) -> Result<Vec<Entry>, Fail> {
    let mut entries = stored(alloc)?;
    let name = stream("x")?;
    let seen = Some(Seen {
        reader: 0,
        session: 0,
    });
    add(&mut entries, 1, Point::Look { name, seen })?;
    let name = stream("y")?;
    let session = Some(1);
    add(&mut entries, 2, Point::Begin { name, session })?;
    add(&mut entries, 2, choose(alloc, 1, &[M])?)?;
    Ok(entries)
}

// Then the stream is deleted, and what was under way ends.
fn ended(alloc: Global) -> Result<Vec<Entry>, Fail> {
    let mut entries = under_way(alloc)?;
    let name = stream("x")?;
    let session = Some(0);
    add(&mut entries, 3, Point::Delete { name, session })?;
    let abort = Point::Abort {
        session: 1,
        containers: 0,
        texts: 0,
    };
    add(&mut entries, 2, abort)?;
    add(&mut entries, 1, Point::Done { reader: 0 })?;
    Ok(entries)
}

#[test]
fn names_and_replies(rt: HostRuntime) -> Result<(), Fail> {
    let entries = under_way(rt.alloc())?;
    assert!(rt; entries.len() <= 10);
    let look = Some(Seen {
        reader: 1,
        session: 0,
    });
    for (text, held, kept, begin, look) in [
        ("x", true, Some(0), None, look),
        ("y", true, None, None, None),
        ("z", false, None, Some(2), None),
    ] {
        let name = stream(text)?;
        assert_eq!(rt; is_held(&entries, &name), held);
        assert_eq!(rt; retained(&entries, &name), kept);
        assert_eq!(rt; reply_to_begin(&entries, &name), begin);
        assert_eq!(rt; reply_to_look(&entries, &name), look);
    }
    Ok(())
}

#[test]
fn pending_champions_and_own_containers(rt: HostRuntime) -> Result<(), Fail> {
    let entries = under_way(rt.alloc())?;
    assert!(rt; pending_champions(&entries, 0).is_empty());
    assert_eq!(rt; pending_champions(&entries, 1), [M].as_slice());
    assert_eq!(rt; own_end(&entries, 0), 3);
    assert_eq!(rt; own_end(&entries, 1), 0);
    Ok(())
}

// Seven entries with a session and a reading to end; two hooks and a container are listed.
#[test]
fn limits_with_room_for_ends(rt: HostRuntime) -> Result<(), Fail> {
    let history = under_way(rt.alloc())?;
    assert!(rt; history.len() <= 10);
    for (entries, weight, within) in [(9, 3, true), (8, 3, false), (9, 2, false)] {
        let limits = Limits { entries, weight };
        assert_eq!(rt; is_within(&history, &limits), within);
    }
    Ok(())
}

#[test]
fn standings_and_what_can_be_erased(rt: HostRuntime) -> Result<(), Fail> {
    let alloc = rt.alloc();
    let before = under_way(alloc)?;
    assert!(rt; before.len() <= 10);
    let stood = standing(alloc, &before, &H, 8)?;
    assert_eq!(rt; stood.as_slice(), [Standing { id: M, stamp: 2 }].as_slice());
    let after = ended(alloc)?;
    assert!(rt; after.len() <= 10);
    let dead = erasable(alloc, &after)?;
    assert_eq!(rt; dead.len(), 4);
    assert_eq!(rt; dead[2], Object::Container(C));
    assert_eq!(rt; dead[3], Object::Manifest(M));
    Ok(())
}

// The entries of a stream that is retained, without its choice.
#[tactic(auto, unfolding(crate::specs::TotalsOf::objects_named))]
fn totals_of_a_stream(alloc: Global, name: StreamName) -> Result<Totals, Fail> {
    let entries = [
        Entry {
            author: 0,
            point: Point::Begin {
                name,
                session: Some(0),
            },
        },
        Entry {
            author: 0,
            point: Point::Commit {
                manifest: M,
                content: Name([1; 32]),
                text: Name([2; 32]),
                chunks: 4,
                bytes: 769,
                fresh: 2,
                fresh_bytes: 257,
                uses: Items::new(Vec::new(alloc)),
            },
        },
        Entry {
            author: 0,
            point: Point::Finish {
                session: 0,
                containers: 3,
            },
        },
    ];
    Ok(totals(alloc, &entries)?)
}

#[test]
fn totals_of_entries(rt: HostRuntime) -> Result<(), Fail> {
    let found = totals_of_a_stream(rt.alloc(), stream("x")?)?;
    let wanted = Totals {
        streams: 1,
        bytes: 769,
        fresh: 257,
        containers: 3,
        reclaimed: 0,
        entries: 3,
    };
    assert_eq!(rt; found, wanted);
    Ok(())
}
