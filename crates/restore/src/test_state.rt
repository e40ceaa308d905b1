// A store with two streams: `x`, of the chunks `ab` and `c`, and `e`, which has no bytes.

use crate::restore_solo;
use chunk_name::name_of;
use depot::{Depot, RestoreFault};
use history::{Entry, Items, Limits, Point};
use outside::MemShelf;
use ss_base::{ContainerId, ManifestId, Memory, Name, Profile, StreamName};
use std::alloc::Global;
use std::test::Fail;
use store_core::State;

// What a test restores from, and to.
#[derive(Drop)]
pub(crate) struct Fixture {
    pub state: State<8, 8>,
    pub files: MemShelf,
    pub depot: MemShelf,
}

impl Fixture {
    pub(crate) fn restore(
        &mut self,
        alloc: Global,
        name: StreamName,
        output: &str,
    ) -> Result<u64, RestoreFault> {
        let mut depot = Depot::over(&mut self.depot);
        restore_solo(
            alloc,
            &mut self.state,
            3,
            &mut self.files,
            name,
            output,
            &mut depot,
        )
    }
}

pub(crate) fn stream(name: &[u8]) -> Result<StreamName, Fail> {
    Ok(StreamName::new(name).ok_or("a name")?)
}

fn container() -> ContainerId {
    ContainerId {
        session: 0,
        ordinal: 0,
    }
}

// The pieces of `x`: the name of each, and its length in 4 bytes.
fn pieces(alloc: Global) -> Result<Vec<u8>, Memory> {
    let mut bytes = name_of(b"ab").0.to_vec(alloc)?;
    bytes.extend_from_slice(&[0, 0, 0, 2])?;
    bytes.extend_from_slice(&name_of(b"c").0)?;
    bytes.extend_from_slice(&[0, 0, 0, 1])?;
    Ok(bytes)
}

// The text of the manifest of `x`: the pieces, and where each lies: in container 0 of session 0, at 52 and at 90.
pub(crate) fn text(alloc: Global) -> Result<Vec<u8>, Memory> {
    let mut bytes = pieces(alloc)?;
    bytes.extend_from_slice(&[0, 0, 0, 0, 0, 0, 0, 0, 0, 0, 0, 52])?;
    bytes.extend_from_slice(&[0, 0, 0, 0, 0, 0, 0, 0, 0, 0, 0, 90])?;
    Ok(bytes)
}

fn entry(point: Point) -> Entry {
    Entry { author: 0, point }
}

fn begin(name: &[u8], session: u32) -> Result<Entry, Fail> {
    Ok(entry(Point::Begin {
        name: stream(name)?,
        session: Some(session),
    }))
}

// The commit of the manifest of `x`, with this digest of its text.
fn commit(alloc: Global, text: Name) -> Result<Entry, Fail> {
    Ok(entry(Point::Commit {
        manifest: ManifestId { session: 0, seq: 0 },
        content: name_of(&pieces(alloc)?),
        text,
        chunks: 2,
        bytes: 3,
        fresh: 2,
        fresh_bytes: 3,
        uses: Items::new(vec![in alloc; container()]?),
    }))
}

fn finish(session: u32, containers: u32) -> Entry {
    entry(Point::Finish {
        session,
        containers,
    })
}

// The state after both streams, within so many entries.
fn state(alloc: Global, text: Name, limit: u8) -> Result<State<8, 8>, Fail> {
    let choose = Point::Choose {
        session: 0,
        hooks: Items::new(Vec::new(alloc)),
        champions: Items::new(Vec::new(alloc)),
    };
    let mut entries = vec![in alloc; begin(b"x", 0)?, entry(choose), commit(alloc, text)?]?;
    entries.push(finish(0, 1))?;
    entries.push(begin(b"e", 1)?)?;
    entries.push(finish(1, 0))?;
    let limits = Limits {
        entries: u32::from(limit),
        weight: 100,
    };
    let state = State::replay(alloc, Profile::Tiny, limits, entries);
    Ok(state.ok().ok_or("a state")?)
}

// The container of `x`, with this byte for the chunk `c`.
fn container_with(alloc: Global, last: u8) -> Result<Vec<u8>, Memory> {
    let mut bytes = vec![in alloc; 0; 52]?;
    bytes.extend_from_slice(b"ab")?;
    bytes.extend_from_slice(&[0; 36])?;
    bytes.push(last)?;
    Ok(bytes)
}

// The store with this manifest of `x`, and this byte for its last chunk. One call on the files fails, and one on the
// depot.
fn store_of(
    alloc: Global,
    text: &[u8],
    last: u8,
    limit: u8,
    fails: (u32, u32),
) -> Result<Fixture, Fail> {
    let mut depot = MemShelf::new(alloc, vec![in alloc; fails.1]?);
    depot.set("m-0-0", text)?;
    depot.set("c-0-0", &container_with(alloc, last)?)?;
    Ok(Fixture {
        state: state(alloc, name_of(text), limit)?,
        files: MemShelf::new(alloc, vec![in alloc; fails.0]?),
        depot,
    })
}

// The whole store, of which these calls fail.
pub(crate) fn store(alloc: Global, fails: (u32, u32)) -> Result<Fixture, Fail> {
    store_of(alloc, &text(alloc)?, b'c', 100, fails)
}

pub(crate) fn store_with_damage(alloc: Global) -> Result<Fixture, Fail> {
    store_of(alloc, &text(alloc)?, b'd', 100, (0, 0))
}

pub(crate) fn store_with_text(alloc: Global, text: &[u8]) -> Result<Fixture, Fail> {
    store_of(alloc, text, b'c', 100, (0, 0))
}

// A store whose journal has room for its entries alone.
pub(crate) fn full_store(alloc: Global) -> Result<Fixture, Fail> {
    store_of(alloc, &text(alloc)?, b'c', 6, (0, 0))
}
