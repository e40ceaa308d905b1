// Three manifests of one chunk each, as a state keeps them and as a shelf has them, for the tests.
ghost use Rattle.std.specs.Prelude.{◌≡◌};

use chunk_name::name_of;
use history::{Entry, Items, Limits, Point};
use manifest_codec::{Manifest, content, encode};
use outside::MemShelf;
use ss_base::{ContainerId, ManifestId, Memory, Name, Piece, Place, Profile, StreamName};
use std::alloc::Global;
use std::test::Fail;
use store_core::{Kept, State};

// What was kept of the manifests of one stream, in order, and the shelf with their objects.
#[derive(Drop)]
pub(crate) struct Store {
    pub shelf: MemShelf,
    pub kept: Vec<Kept>,
}

fn container() -> ContainerId {
    ContainerId {
        session: 0,
        ordinal: 0,
    }
}

fn piece(name: Name) -> Piece
    ensures { result.len ≡ 1 }
{
    Piece { name, len: 1 }
}

// The manifest of a chunk of one byte with this name.
fn manifest(alloc: Global, name: Name) -> Result<Manifest, Memory> {
    let place = Place {
        container: container(),
        offset: 36,
    };
    let pieces = vec![in alloc; piece(name)]?;
    let places = vec![in alloc; place]?;
    Ok(Manifest { pieces, places })
}

fn stream() -> Result<StreamName, Fail> {
    Ok(StreamName::new(b"x").ok_or("a name")?)
}

fn entry(point: Point) -> Entry {
    Entry { author: 0, point }
}

fn begin() -> Result<Entry, Fail> {
    Ok(entry(Point::Begin {
        name: stream()?,
        session: Some(0),
    }))
}

fn choose(alloc: Global) -> Entry {
    entry(Point::Choose {
        session: 0,
        hooks: Items::new(Vec::new(alloc)),
        champions: Items::new(Vec::new(alloc)),
    })
}

fn commit(alloc: Global, seq: u32, manifest: &Manifest, text: &[u8]) -> Result<Entry, Memory> {
    let uses = vec![in alloc; container()]?;
    Ok(entry(Point::Commit {
        manifest: ManifestId { session: 0, seq },
        content: content(&manifest.pieces),
        text: name_of(text),
        chunks: 1,
        bytes: 1,
        fresh: 1,
        fresh_bytes: 1,
        uses: Items::new(uses),
    }))
}

// Adds the manifest of this chunk as the next one, and its object to the shelf.
fn add(
    alloc: Global,
    entries: &mut Vec<Entry>,
    shelf: &mut MemShelf,
    seq: u32,
    object: &str,
    chunk: &[u8],
) -> Result<(), Fail> {
    let manifest = manifest(alloc, name_of(chunk))?;
    let text = encode(alloc, &manifest)?;
    shelf.set(object, &text)?;
    entries.push(choose(alloc))?;
    entries.push(commit(alloc, seq, &manifest, &text)?)?;
    Ok(())
}

// What a state with these entries keeps of the stream.
fn kept_of(alloc: Global, entries: Vec<Entry>) -> Result<Vec<Kept>, Fail> {
    let limits = Limits {
        entries: 100,
        weight: 100,
    };
    let state = State::<8, 8>::replay(alloc, Profile::Tiny, limits, entries);
    let mut state = state.ok().ok_or("a state")?;
    let looked = state.look(alloc, 1, stream()?).ok().ok_or("a stream")?;
    Ok(looked.manifests)
}

// A store whose stream has these three chunks, in a manifest each. The shelf's call of this number fails.
pub(crate) fn store_of(
    alloc: Global,
    first: &[u8],
    second: &[u8],
    third: &[u8],
    fails: u32,
) -> Result<Store, Fail> {
    let mut shelf = MemShelf::new(alloc, vec![in alloc; fails]?);
    let mut entries = vec![in alloc; begin()?]?;
    add(alloc, &mut entries, &mut shelf, 0, "m-0-0", first)?;
    add(alloc, &mut entries, &mut shelf, 1, "m-0-1", second)?;
    add(alloc, &mut entries, &mut shelf, 2, "m-0-2", third)?;
    entries.push(entry(Point::Finish {
        session: 0,
        containers: 1,
    }))?;
    let kept = kept_of(alloc, entries)?;
    Ok(Store { shelf, kept })
}
