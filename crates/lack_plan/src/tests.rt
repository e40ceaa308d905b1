use super::*;
use manifest_codec::{Manifest, decode};
use ss_base::{Name, Piece};
use std::alloc::Global;
use std::test::Fail;

// A piece whose name has this byte alone.
fn piece(byte: u8, len: u8) -> Piece {
    Piece {
        name: Name([byte; 32]),
        len: u32::from(len),
    }
}

// The manifest of these chunks.
fn manifest(alloc: Global, pieces: &[Piece]) -> Result<Manifest, Fail> {
    let mut text = Vec::new(alloc);
    for piece in pieces {
        text.extend_from_slice(&piece.name.0)?;
        text.extend_from_slice(&piece.len.to_be_bytes())?;
    }
    for _ in pieces {
        text.extend_from_slice(&[0; 12])?;
    }
    let manifest = decode(alloc, &text).ok().ok_or("no manifest")?;
    Ok(manifest)
}

#[test]
fn origins_of_a_segment(rt: HostRuntime) -> Result<(), Fail> {
    one_plan();
    let alloc = rt.alloc();
    let pieces = [
        piece(1, 5),
        piece(2, 5),
        piece(1, 5),
        piece(1, 6),
        piece(3, 5),
        piece(1, 5),
    ];
    let alone = lacks(alloc, &pieces, &[])?;
    let expected = [
        Origin::Fresh,
        Origin::Fresh,
        Origin::Earlier(0),
        Origin::Fresh,
        Origin::Fresh,
        Origin::Earlier(0),
    ];
    assert_eq!(rt; alone.as_slice(), expected.as_slice());

    // The first two stand in both champions.
    let champions = [
        manifest(alloc, &[piece(2, 5), piece(1, 5)])?,
        manifest(alloc, &[piece(1, 5), piece(2, 5)])?,
    ];
    let beside = lacks(alloc, &pieces, &champions)?;
    let expected = [
        Origin::Champion { which: 0, at: 1 },
        Origin::Champion { which: 0, at: 0 },
        Origin::Earlier(0),
        Origin::Fresh,
        Origin::Fresh,
        Origin::Earlier(0),
    ];
    assert_eq!(rt; beside.as_slice(), expected.as_slice());
    Ok(())
}

// The manifest of 4,096 chunks whose names begin with this byte.
fn full_manifest(alloc: Global, byte: u8) -> Result<Manifest, Fail> {
    let mut pieces = Vec::new(alloc);
    for i in 0..4_096u32 {
        let [_, _, high, low] = i.to_be_bytes();
        let mut name = [byte; 32];
        name[30] = high;
        name[31] = low;
        pieces.push(Piece {
            name: Name(name),
            len: 1,
        })?;
    }
    manifest(alloc, &pieces)
}

#[test]
fn most_pieces(rt: HostRuntime) -> Result<(), Fail> {
    let alloc = rt.alloc();
    let mut champions = Vec::new(alloc);
    for byte in 0..8 {
        champions.push(full_manifest(alloc, byte)?)?;
    }
    assert!(rt; champions.len() <= 255);
    for (byte, origin) in [
        (
            7,
            Origin::Champion {
                which: 7,
                at: 4_095,
            },
        ),
        (8, Origin::Fresh),
    ] {
        let segment = full_manifest(alloc, byte)?;
        assert!(rt; segment.pieces.len() <= 4_096);
        let origins = lacks(alloc, &segment.pieces, &champions)?;
        assert!(rt; origins.last().copied() == Some(origin), "{byte}");
    }
    Ok(())
}
