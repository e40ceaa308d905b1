// What a state keeps of sessions that stored one segment each, for the tests.

use history::{Entry, Items, Limits, Point};
use ss_base::{ContainerId, ManifestId, Memory, Name, Profile, StreamName};
use std::alloc::Global;
use std::test::Fail;
use store_core::{Kept, State, Stored};

pub(crate) fn container(session: u32) -> ContainerId {
    ContainerId {
        session,
        ordinal: 0,
    }
}

// A segment of one chunk, whose manifest's text has this SHA-256.
pub(crate) fn stored_with(alloc: Global, text: Name) -> Result<Stored, Memory> {
    let uses = vec![in alloc; container(0)]?;
    Ok(Stored {
        content: text,
        text,
        chunks: 1,
        bytes: 1,
        fresh: 1,
        fresh_bytes: 1,
        uses,
    })
}

// The stream of the first session is `x`, and that of the second `y`.
fn stream(session: u32) -> Result<StreamName, Fail> {
    let name: &[u8] = if session == 0 { b"x" } else { b"y" };
    Ok(StreamName::new(name).ok_or("a name")?)
}

fn begin(session: u32) -> Result<Point, Fail> {
    Ok(Point::Begin {
        name: stream(session)?,
        session: Some(session),
    })
}

fn choose(alloc: Global, session: u32) -> Point {
    Point::Choose {
        session,
        hooks: Items::new(Vec::new(alloc)),
        champions: Items::new(Vec::new(alloc)),
    }
}

fn commit(session: u32, stored: Stored) -> Point {
    Point::Commit {
        manifest: ManifestId { session, seq: 0 },
        content: stored.content,
        text: stored.text,
        chunks: stored.chunks,
        bytes: stored.bytes,
        fresh: stored.fresh,
        fresh_bytes: stored.fresh_bytes,
        uses: Items::new(stored.uses),
    }
}

fn finish(session: u32) -> Point {
    Point::Finish {
        session,
        containers: 1,
    }
}

fn entry(point: Point) -> Entry {
    Entry { author: 0, point }
}

// Adds the entries of a session that stored this as its one segment.
fn add(alloc: Global, entries: &mut Vec<Entry>, session: u32, stored: Stored) -> Result<(), Fail> {
    entries.push(entry(begin(session)?))?;
    entries.push(entry(choose(alloc, session)))?;
    entries.push(entry(commit(session, stored)))?;
    entries.push(entry(finish(session)))?;
    Ok(())
}

// The state behind session 0, which stored this as its one segment.
pub(crate) fn state_of(alloc: Global, stored: Stored) -> Result<State<8, 8>, Fail> {
    let mut entries = Vec::new(alloc);
    add(alloc, &mut entries, 0, stored)?;
    replayed(alloc, entries)
}

// The state behind two sessions, which stored these.
pub(crate) fn state_of_both(
    alloc: Global,
    first: Stored,
    second: Stored,
) -> Result<State<8, 8>, Fail> {
    let mut entries = Vec::new(alloc);
    add(alloc, &mut entries, 0, first)?;
    add(alloc, &mut entries, 1, second)?;
    replayed(alloc, entries)
}

fn replayed(alloc: Global, entries: Vec<Entry>) -> Result<State<8, 8>, Fail> {
    let limits = Limits {
        entries: 100,
        weight: 100,
    };
    let state = State::replay(alloc, Profile::Tiny, limits, entries);
    Ok(state.ok().ok_or("a state")?)
}

// What it keeps of the session's manifest, by a new reading.
pub(crate) fn kept_of(alloc: Global, state: &mut State<8, 8>, session: u32) -> Result<Kept, Fail> {
    let looked = state
        .look(alloc, 1, stream(session)?)
        .ok()
        .ok_or("a stream")?;
    let mut manifests = looked.manifests;
    Ok(manifests.pop().ok_or("a manifest")?)
}
