// The expected digests were worked out by another program.
ghost use Rattle.std.specs.Prelude.{◌≡◌, ◌≤◌, length};

use super::*;
use chunk_name::{hex_of, name_of, piece_of};
use container_file::ContainerEnd;
use manifest_codec::{Manifest, decode};
use segmenter::{Segment, Segmenter};
use ss_base::{ContainerId, MAX_CHAMPIONS, Memory, Piece, Place, Profile};
use std::alloc::Global;
use std::test::Fail;

// The segment of these chunks, none of which ends it.
fn segment_of(alloc: Global, chunks: &[&[u8]]) -> Result<Segment, Fail> {
    let mut segmenter = Segmenter::new(alloc, Profile::Tiny);
    for chunk in chunks {
        if chunk.is_empty() || chunk.len() > 256 {
            return Err("no chunk".into());
        }
        segmenter.add(chunk)?;
    }
    let segment = segmenter.rest().ok_or("no segment")?;
    Ok(segment)
}

fn plan_of(
    alloc: Global,
    chunks: &[&[u8]],
    champions: &[Manifest],
    end: ContainerEnd,
    room: u32,
) -> Result<SegmentPlan, Fail>
    requires champions { length champions.now ≤ MAX_CHAMPIONS }
    requires containers { end.containers ≤ 1000 }
{
    chunks_of_a_segment();
    places_of_a_plan();
    let segment = segment_of(alloc, chunks)?;
    let plan = plan_segment(alloc, &segment, champions, end, room)?;
    Ok(plan)
}

// The manifest of these chunks, which lie at these offsets of one container.
fn champion(
    alloc: Global,
    pieces: &[Piece],
    session: u8,
    ordinal: u8,
    offsets: &[u8],
) -> Result<Manifest, Fail> {
    let mut text = Vec::new(alloc);
    for piece in pieces {
        text.extend_from_slice(&piece.name.0)?;
        text.extend_from_slice(&piece.len.to_be_bytes())?;
    }
    for offset in offsets {
        text.extend_from_slice(&[0, 0, 0, session, 0, 0, 0, ordinal, 0, 0, 0, *offset])?;
    }
    manifest_of(alloc, &text)
}

fn manifest_of(alloc: Global, text: &[u8]) -> Result<Manifest, Fail> {
    let manifest = decode(alloc, text).ok().ok_or("no manifest")?;
    Ok(manifest)
}

fn digest(alloc: Global, bytes: &[u8]) -> Result<String, Memory> {
    hex_of(alloc, &name_of(bytes))
}

fn end(session: u32, containers: u32, used: u32) -> ContainerEnd
    ensures { result.containers ≡ containers }
{
    ContainerEnd {
        session,
        containers,
        used,
    }
}

fn place(session: u32, ordinal: u32, offset: u32) -> Place {
    Place {
        container: container(session, ordinal),
        offset,
    }
}

fn container(session: u32, ordinal: u32) -> ContainerId {
    ContainerId { session, ordinal }
}

// How many chunks and bytes there are, and how many of both are fresh.
fn counts(plan: &SegmentPlan) -> [u32; 4] {
    [plan.chunks, plan.bytes, plan.fresh, plan.fresh_bytes]
}

#[test]
fn one_segment_twice(rt: HostRuntime) -> Result<(), Fail> {
    let alloc = rt.alloc();
    let zeros: &[u8] = &[0; 256];
    let chunks = [zeros, zeros, zeros, b"b"];
    let first = plan_of(alloc, &chunks, &[], end(0, 0, 0), 4_096)?;
    assert_eq!(rt; counts(&first), [4, 769, 2, 257]);
    assert_eq!(rt; first.end, end(0, 1, 345));
    assert_eq!(rt; first.puts.len(), 1);
    assert_eq!(rt; first.puts[0].container, container(0, 0));
    assert!(rt; first.puts[0].starts);
    assert_eq!(rt;
        digest(alloc, &first.puts[0].bytes)?.as_str(),
        "9b12399db8bf673ea56e1a188313590b612c93f23d44f263eaf7f7367060024b"
    );
    assert_eq!(rt;
        digest(alloc, &first.text)?.as_str(),
        "23ec11eae3f6c1c3f0d8f9efc9b8864895a39dbe4e39a17c866fa596b17f5a46"
    );
    assert_eq!(rt;
        hex_of(alloc, &first.content)?.as_str(),
        "3ed00f5fef48f1f089cb71f7bbcdeb34f739e9cd263a4c1c91d575cd203d147c"
    );
    assert_eq!(rt; first.uses.as_slice(), [container(0, 0)].as_slice());

    let champions = [manifest_of(alloc, &first.text)?];
    let second = plan_of(alloc, &chunks, &champions, end(1, 0, 0), 4_096)?;
    assert_eq!(rt; counts(&second), [4, 769, 0, 0]);
    assert_eq!(rt; second.end, end(1, 0, 0));
    assert!(rt; second.puts.is_empty());
    assert_eq!(rt; second.text.as_slice(), first.text.as_slice());
    assert_eq!(rt; second.content, first.content);
    assert_eq!(rt; second.uses.as_slice(), [container(0, 0)].as_slice());
    Ok(())
}

// The first champion has `b` at two places, and the second has it too.
#[test]
fn chunks_of_two_champions(rt: HostRuntime) -> Result<(), Fail> {
    let alloc = rt.alloc();
    let b = piece_of(b"b");
    let c = piece_of(b"c");
    let champions = [
        champion(alloc, &[b, b], 3, 0, &[89, 52])?,
        champion(alloc, &[b, c], 5, 1, &[52, 89])?,
    ];
    let chunks: [&[u8]; 4] = [b"a", b"b", b"c", b"b"];
    let plan = plan_of(alloc, &chunks, &champions, end(7, 2, 100), 4_096)?;
    assert_eq!(rt; counts(&plan), [4, 4, 1, 1]);
    assert_eq!(rt; plan.end, end(7, 2, 137));
    assert_eq!(rt; plan.puts.len(), 1);
    assert_eq!(rt; plan.puts[0].container, container(7, 1));
    assert!(rt; !plan.puts[0].starts);
    assert_eq!(rt;
        digest(alloc, &plan.puts[0].bytes)?.as_str(),
        "6ec3f08f90b0297a6065f62794800808fae9857a14838b795d07a03486e29ed5"
    );
    let places = [
        place(7, 1, 136),
        place(3, 0, 89),
        place(5, 1, 89),
        place(3, 0, 89),
    ];
    let manifest = manifest_of(alloc, &plan.text)?;
    assert_eq!(rt; manifest.places.as_slice(), places.as_slice());
    let uses = [container(3, 0), container(5, 1), container(7, 1)];
    assert_eq!(rt; plan.uses.as_slice(), uses.as_slice());
    Ok(())
}

#[test]
fn a_container_that_fills_up(rt: HostRuntime) -> Result<(), Fail> {
    let alloc = rt.alloc();
    let chunks: [&[u8]; 3] = [&[0; 256], &[5; 256], &[0; 256]];
    let one = plan_of(alloc, &chunks, &[], end(0, 0, 0), 600)?;
    assert_eq!(rt; one.end, end(0, 1, 600));
    assert_eq!(rt; one.puts.len(), 1);

    let two = plan_of(alloc, &chunks, &[], end(0, 0, 0), 599)?;
    assert_eq!(rt; counts(&two), [3, 768, 2, 512]);
    assert_eq!(rt; two.end, end(0, 2, 308));
    assert_eq!(rt; two.puts.len(), 2);
    let manifest = manifest_of(alloc, &two.text)?;
    let places = [place(0, 0, 52), place(0, 1, 52), place(0, 0, 52)];
    assert_eq!(rt; manifest.places.as_slice(), places.as_slice());
    let uses = [container(0, 0), container(0, 1)];
    assert_eq!(rt; two.uses.as_slice(), uses.as_slice());
    Ok(())
}
