// What a state keeps of one stream, for the tests. The digests were worked out by another program.
ghost use Rattle.std.specs.Prelude.{◌≡◌};

use history::{Entry, Items, Limits, Point};
use ss_base::{ContainerId, ManifestId, Name, Piece, Profile, StreamName};
use std::alloc::Global;
use std::test::Fail;
use store_core::{Kept, Removal, State};

// The text of a manifest of three chunks of 256 zero bytes and one chunk `b`, its first 191 bytes, its pieces part, and
// no bytes.
pub(crate) const TEXT: &str = "23ec11eae3f6c1c3f0d8f9efc9b8864895a39dbe4e39a17c866fa596b17f5a46";

pub(crate) const CUT_TEXT: &str =
    "08516ff36ae3ce2a3eee6af98a9b2ebca1f709b00496fb4fcd8aa3de8ae003a0";

pub(crate) const CONTENT: &str = "3ed00f5fef48f1f089cb71f7bbcdeb34f739e9cd263a4c1c91d575cd203d147c";

pub(crate) const NO_BYTES: &str =
    "e3b0c44298fc1c149afbf4c8996fb92427ae41e4649b934ca495991b7852b855";

pub(crate) const ABC: &str = "ba7816bf8f01cfea414140de5dae2223b00361a396177a9cb410ff61f20015ad";

// 256 zero bytes, 248 of them, `b` and `c`.
pub(crate) const ZEROS: &str = "5341e6b2646979a70e57653007a1f310169421ec9bdd9f1a5648f75ade005af1";

pub(crate) const CUT_ZEROS: &str =
    "b3ab6982980fddf460a2f47adb428475ce9afa89092fd034499d017a35993f05";

pub(crate) const B: &str = "3e23e8160039594a33894f6564e1b1348bbd7a0088d42c4acb73eeaed59c009d";

pub(crate) const C: &str = "2e7d2c03a9507ae265ecf5b5356885a53393a2029d241394997265a1a25aefc6";

fn digit(c: u8) -> u8 {
    match c {
        b'0'..=b'9' => c - b'0',
        b'a'..=b'f' => c - b'a' + 10,
        _ => 0,
    }
}

// The name with these digits.
pub(crate) fn name(digits: &str) -> Name {
    let mut bytes = [0; 32];
    let mut high = 0;
    for (i, c) in digits.bytes().enumerate() {
        if i % 2 == 0 {
            high = digit(c) << 4;
        } else if i < 64 {
            bytes[i / 2] = high | digit(c);
        }
    }
    Name(bytes)
}

pub(crate) fn zeros() -> Piece
    ensures { result.len ≡ 256 }
{
    Piece {
        name: name(ZEROS),
        len: 256,
    }
}

pub(crate) fn letter() -> Piece
    ensures { result.len ≡ 1 }
{
    Piece {
        name: name(B),
        len: 1,
    }
}

fn entry(point: Point) -> Entry {
    Entry { author: 0, point }
}

// The commit of its manifest, whose chunks lie in so many containers.
fn commit(
    alloc: Global,
    content: Name,
    text: Name,
    chunks: u32,
    containers: u32,
) -> Result<Entry, Fail> {
    let mut uses = Vec::new(alloc);
    for ordinal in 0..containers {
        uses.push(ContainerId {
            session: 0,
            ordinal,
        })?;
    }
    Ok(entry(Point::Commit {
        manifest: ManifestId { session: 0, seq: 0 },
        content,
        text,
        chunks,
        bytes: 769,
        fresh: 2.min(chunks),
        fresh_bytes: 257,
        uses: Items::new(uses),
    }))
}

// A state in which one stream `x` is retained, of one manifest of which this was kept.
pub(crate) fn state_of(
    alloc: Global,
    content: Name,
    text: Name,
    chunks: u32,
    containers: u32,
) -> Result<State<8, 8>, Fail> {
    let begin = Point::Begin {
        name: stream()?,
        session: Some(0),
    };
    let choose = Point::Choose {
        session: 0,
        hooks: Items::new(Vec::new(alloc)),
        champions: Items::new(Vec::new(alloc)),
    };
    let finish = Point::Finish {
        session: 0,
        containers,
    };
    let commit = commit(alloc, content, text, chunks, containers)?;
    let entries = vec![in alloc; entry(begin), entry(choose), commit, entry(finish)]?;
    let limits = Limits {
        entries: 100,
        weight: 100,
    };
    let state = State::replay(alloc, Profile::Tiny, limits, entries);
    Ok(state.ok().ok_or("a state")?)
}

fn stream() -> Result<StreamName, Fail> {
    Ok(StreamName::new(b"x").ok_or("a name")?)
}

// What is kept of that manifest.
pub(crate) fn kept_of(
    alloc: Global,
    content: Name,
    text: Name,
    chunks: u32,
    containers: u32,
) -> Result<Kept, Fail> {
    let mut state = state_of(alloc, content, text, chunks, containers)?;
    let mut looked = state.look(alloc, 1, stream()?).ok().ok_or("a stream")?;
    Ok(looked.manifests.pop().ok_or("a manifest")?)
}

// What is kept of the manifest with the text `TEXT`.
pub(crate) fn kept(alloc: Global) -> Result<Kept, Fail> {
    kept_of(alloc, name(CONTENT), name(TEXT), 4, 1)
}

// The removals of its container and its manifest, once the stream is deleted.
pub(crate) fn removals(alloc: Global) -> Result<Vec<Removal>, Fail> {
    let mut state = state_of(alloc, name(CONTENT), name(TEXT), 4, 1)?;
    state.delete(1, stream()?).ok().ok_or("a stream")?;
    Ok(state.reclaim(alloc, 2).ok().ok_or("removals")?)
}
