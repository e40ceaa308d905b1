// A segment that is stored, loaded and stored again, with calls that fail. The digests were worked out by another
// program.
ghost use Rattle.std.specs.Prelude.{◌≡◌, ◌≤◌, length};

use crate::test_state::{container, kept_of, state_of, state_of_both, stored_with};
use crate::{load_champions, store_segment, uses_of_a_segment};
use chunk_name::{hex_of, name_of};
use container_file::ContainerEnd;
use depot::{Depot, LoadFault};
use manifest_cache::ManifestCache;
use manifest_codec::Manifest;
use outside::{MemShelf, Shelf, Trouble};
use segmenter::{Segment, Segmenter};
use ss_base::{MAX_CHAMPIONS, ManifestId, Memory, Name, Profile};
use std::alloc::Global;
use std::process::Abort;
use std::test::Fail;
use store_core::{Kept, Stored};

// How far a session has come that stores one segment.
#[derive(Drop)]
struct Run {
    stored: Result<Stored, Trouble>,
    end: ContainerEnd,
    texts: u32,
}

// The SHA-256 of the segment's pieces, of its manifest's text and of its container's bytes.
fn content() -> &'static str {
    "0ee3f63a21128d358f9835daab0de0672fea384101054fd3c9f32d1a84b294d1"
}

fn text() -> &'static str {
    "01f9fc64991345e38e5c1c47ed147e47d9ec7baba46ccaba63ab3538a3ff2ad7"
}

fn container_text() -> &'static str {
    "51132d5065dc4d4b8d6009300e7fd2d0648ed9a7bf480a365f0599d05cb60a50"
}

// A shelf whose call of this number fails.
fn shelf_with(alloc: Global, fails: u32) -> Result<MemShelf, Memory> {
    Ok(MemShelf::new(alloc, vec![in alloc; fails]?))
}

// Two chunks `b`.
fn segment(alloc: Global) -> Result<Segment, Fail> {
    let mut segmenter = Segmenter::new(alloc, Profile::Tiny);
    segmenter.add(b"b")?;
    segmenter.add(b"b")?;
    Ok(segmenter.rest().ok_or("no segment")?)
}

// Stores the two chunks in a session that has nothing yet.
fn store(
    alloc: Global,
    shelf: &mut MemShelf,
    session: u32,
    champions: &[Manifest],
) -> Result<Run, Fail>
    requires { length champions.now ≤ MAX_CHAMPIONS }
{
    let segment = segment(alloc)?;
    let mut depot = Depot::over(shelf);
    let id = ManifestId { session, seq: 0 };
    let mut end = end(session, 0, 0);
    let mut texts = 0;
    let answer = store_segment(
        alloc, &mut depot, &segment, champions, id, 4_096, &mut end, &mut texts,
    );
    let stored = match answer {
        Ok((stored, _)) => Ok(stored),
        Err(trouble) => Err(trouble),
    };
    Ok(Run { stored, end, texts })
}

fn load(
    alloc: Global,
    shelf: &mut MemShelf,
    champions: &[Kept],
) -> Result<Vec<Manifest>, LoadFault> {
    let Ok(mut cache) = ManifestCache::new(alloc, 1) else {
        return Err(LoadFault::Memory);
    };
    load_with(alloc, shelf, champions, &mut cache)
}

fn load_with(
    alloc: Global,
    shelf: &mut MemShelf,
    champions: &[Kept],
    cache: &mut ManifestCache,
) -> Result<Vec<Manifest>, LoadFault> {
    load_champions(alloc, &mut Depot::over(shelf), champions, cache)
}

fn end(session: u32, containers: u32, used: u32) -> ContainerEnd
    ensures { result.containers ≡ containers }
{
    ContainerEnd {
        session,
        containers,
        used,
    }
}

// How many chunks and bytes there are, and how many of both are fresh.
fn counts(stored: &Stored) -> [u32; 4] {
    [
        stored.chunks,
        stored.bytes,
        stored.fresh,
        stored.fresh_bytes,
    ]
}

fn is_used_alone(stored: &Stored) -> bool {
    stored.uses.as_slice() == [container(0)].as_slice()
}

fn has_digits(alloc: Global, name: &Name, digits: &str) -> Result<bool, Memory> {
    Ok(hex_of(alloc, name)?.as_str() == digits)
}

// Whether the object's bytes have this SHA-256.
fn holds(alloc: Global, shelf: &MemShelf, object: &str, digits: &str) -> Result<bool, Fail> {
    let bytes = shelf.get(object).ok_or("no object")?;
    Ok(has_digits(alloc, &name_of(bytes), digits)?)
}

// One chunk is put.
fn store_first(rt: &impl Abort, alloc: Global, shelf: &mut MemShelf) -> Result<Stored, Fail> {
    let run = store(alloc, shelf, 0, &[])?;
    assert!(rt; run.end == end(0, 1, 53));
    assert!(rt; run.texts == 1);
    let stored = run.stored.ok().ok_or("not stored")?;
    assert!(rt; counts(&stored) == [2, 2, 1, 1]);
    assert!(rt; is_used_alone(&stored));
    assert!(rt; has_digits(alloc, &stored.content, content())?);
    assert!(rt; has_digits(alloc, &stored.text, text())?);
    Ok(stored)
}

// Nothing is put, and the manifest's text is the first's.
fn store_again(
    rt: &impl Abort,
    alloc: Global,
    shelf: &mut MemShelf,
    champions: &[Manifest],
) -> Result<(), Fail> {
    assert!(rt; champions.len() == 1);
    let run = store(alloc, shelf, 1, champions)?;
    assert!(rt; run.end == end(1, 0, 0));
    let stored = run.stored.ok().ok_or("not stored again")?;
    assert!(rt; counts(&stored) == [2, 2, 0, 0]);
    assert!(rt; is_used_alone(&stored));
    assert!(rt; shelf.get("c-1-0").is_none());
    assert!(rt; holds(alloc, shelf, "m-1-0", text())?);
    Ok(())
}

#[test]
fn a_segment_is_stored_and_loaded_again(rt: HostRuntime) -> Result<(), Fail> {
    uses_of_a_segment();
    let alloc = rt.alloc();
    let mut shelf = shelf_with(alloc, 0)?;
    let stored = store_first(&rt, alloc, &mut shelf)?;
    assert!(rt; holds(alloc, &shelf, "c-0-0", container_text())?);
    assert!(rt; holds(alloc, &shelf, "m-0-0", text())?);
    let mut state = state_of(alloc, stored)?;
    let kept = [kept_of(alloc, &mut state, 0)?];
    let champions = load(alloc, &mut shelf, &kept).ok().ok_or("not loaded")?;
    store_again(&rt, alloc, &mut shelf, &champions)
}

// The shelf's call of this number fails, when the write of so many manifests was tried.
fn store_fails(rt: &impl Abort, alloc: Global, fails: u32, texts: u32) -> Result<(), Fail> {
    let mut shelf = shelf_with(alloc, fails)?;
    let run = store(alloc, &mut shelf, 0, &[])?;
    assert!(rt; run.stored.err() == Some(Trouble::Fault));
    assert!(rt; run.end == end(0, 1, 53));
    assert!(rt; run.texts == texts);
    assert!(rt; shelf.get("c-0-0").is_some() == (texts == 1));
    assert!(rt; shelf.get("m-0-0").is_none());
    Ok(())
}

// The put is the first call, and the manifest's write the second.
#[test]
fn a_store_that_fails(rt: HostRuntime) -> Result<(), Fail> {
    let alloc = rt.alloc();
    store_fails(&rt, alloc, 1, 0)?;
    store_fails(&rt, alloc, 2, 1)
}

// The first of two loads finds these bytes. The second is not made: the next call, which fails, is the shelf's second.
fn load_fails(
    rt: &impl Abort,
    alloc: Global,
    kept: &[Kept],
    bytes: &[u8],
    fault: LoadFault,
) -> Result<(), Fail> {
    let mut shelf = shelf_with(alloc, 2)?;
    shelf.set("m-0-0", bytes)?;
    assert!(rt; load(alloc, &mut shelf, kept).err() == Some(fault));
    assert!(rt; shelf.has("m-0-0").is_err());
    Ok(())
}

#[test]
fn a_load_that_fails_is_the_last(rt: HostRuntime) -> Result<(), Fail> {
    let alloc = rt.alloc();
    let want = name_of(b"b");
    let mut state = state_of(alloc, stored_with(alloc, want)?)?;
    let kept = [
        kept_of(alloc, &mut state, 0)?,
        kept_of(alloc, &mut state, 0)?,
    ];
    load_fails(&rt, alloc, &kept, b"b", LoadFault::Unlike { text: want })?;
    let got = name_of(b"c");
    load_fails(&rt, alloc, &kept, b"c", LoadFault::Damaged { want, got })
}

// Two sessions store the two chunks, each by two calls. What is kept of the manifest of each.
fn store_twice(alloc: Global, shelf: &mut MemShelf) -> Result<(Vec<Kept>, Vec<Kept>), Fail> {
    let first = store(alloc, shelf, 0, &[])?;
    let second = store(alloc, shelf, 1, &[])?;
    let first = first.stored.ok().ok_or("not stored")?;
    let second = second.stored.ok().ok_or("not stored")?;
    let mut state = state_of_both(alloc, first, second)?;
    let first = vec![in alloc; kept_of(alloc, &mut state, 0)?]?;
    let second = vec![in alloc; kept_of(alloc, &mut state, 1)?]?;
    Ok((first, second))
}

fn is_same(one: &[Manifest], other: &[Manifest]) -> bool {
    match (one, other) {
        ([one], [other]) => {
            one.pieces.as_slice() == other.pieces.as_slice()
                && one.places.as_slice() == other.places.as_slice()
        }
        _ => false,
    }
}

// Only the first load makes a call, the shelf's fifth: the test makes the sixth, which fails.
#[test]
fn a_manifest_is_loaded_once(rt: HostRuntime) -> Result<(), Fail> {
    let alloc = rt.alloc();
    let mut shelf = shelf_with(alloc, 6)?;
    let (first, _second) = store_twice(alloc, &mut shelf)?;
    let mut cache = ManifestCache::new(alloc, 64)?;
    let loaded = load_with(alloc, &mut shelf, &first, &mut cache);
    let again = load_with(alloc, &mut shelf, &first, &mut cache);
    let loaded = loaded.ok().ok_or("not loaded")?;
    let again = again.ok().ok_or("not held")?;
    assert!(rt; is_same(&loaded, &again));
    assert!(rt; shelf.has("m-0-0").is_err());
    Ok(())
}

// Loads the manifests, and the cache then has one.
fn load_into_one(
    rt: &impl Abort,
    alloc: Global,
    shelf: &mut MemShelf,
    kept: &[Kept],
    cache: &mut ManifestCache,
) {
    assert!(rt; load_with(alloc, shelf, kept, cache).is_ok());
    assert!(rt; cache.len() == 1);
}

// Each of three loads makes a call: the shelf's eighth, which fails, is the test's.
#[test]
fn a_cache_of_one_manifest_is_asked_for_two_in_turn(rt: HostRuntime) -> Result<(), Fail> {
    let alloc = rt.alloc();
    let mut shelf = shelf_with(alloc, 8)?;
    let (first, second) = store_twice(alloc, &mut shelf)?;
    let mut cache = ManifestCache::new(alloc, 1)?;
    load_into_one(&rt, alloc, &mut shelf, &first, &mut cache);
    load_into_one(&rt, alloc, &mut shelf, &second, &mut cache);
    load_into_one(&rt, alloc, &mut shelf, &first, &mut cache);
    assert!(rt; shelf.has("m-0-0").is_err());
    Ok(())
}
