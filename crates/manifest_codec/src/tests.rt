// The expected digests were worked out by another program.
use super::*;
use chunk_name::{hex_of, name_of, piece_of};
use ss_base::{ContainerId, Place};
use std::alloc::Global;
use std::test::Fail;

#[test]
fn content_digests(rt: HostRuntime) -> Result<(), Fail> {
    let alloc = rt.alloc();
    let zeros = piece_of(&[0; 256]);
    let last = piece_of(b"b");
    assert_eq!(rt;
        hex_of(alloc, &content(&[last]))?.as_str(),
        "04b5e98c54ae0aabe84b77e9b0dc7854ea013c390104ab829f4d4465f516ea7c"
    );
    assert_eq!(rt;
        hex_of(alloc, &content(&[zeros, zeros, zeros, last]))?.as_str(),
        "3ed00f5fef48f1f089cb71f7bbcdeb34f739e9cd263a4c1c91d575cd203d147c"
    );
    Ok(())
}

// The text of one chunk `b` at offset 0x01020304 of container 2 of session 1.
const TEXT: [u8; 48] = [
    0x3e, 0x23, 0xe8, 0x16, 0x00, 0x39, 0x59, 0x4a, 0x33, 0x89, 0x4f, 0x65, 0x64, 0xe1, 0xb1, 0x34,
    0x8b, 0xbd, 0x7a, 0x00, 0x88, 0xd4, 0x2c, 0x4a, 0xcb, 0x73, 0xee, 0xae, 0xd5, 0x9c, 0x00, 0x9d,
    0, 0, 0, 1, 0, 0, 0, 1, 0, 0, 0, 2, 1, 2, 3, 4,
];

#[test]
fn text_of_four_chunks(rt: HostRuntime) -> Result<(), Fail> {
    let alloc = rt.alloc();
    let zeros = piece_of(&[0; 256]);
    let pieces = vec![in alloc; zeros, zeros, zeros, piece_of(b"b")]?;
    let places = vec![in alloc; place(52), place(52), place(52), place(344)]?;
    assert!(rt; zeros.len == 256);
    let manifest = Manifest { pieces, places };
    let text = encode(alloc, &manifest)?;
    assert_eq!(rt; text.len(), 192);
    assert_eq!(rt;
        hex_of(alloc, &name_of(&text))?.as_str(),
        "23ec11eae3f6c1c3f0d8f9efc9b8864895a39dbe4e39a17c866fa596b17f5a46"
    );
    let again = decode(alloc, &text).ok().ok_or("no manifest")?;
    assert_eq!(rt; again.pieces.as_slice(), manifest.pieces.as_slice());
    assert_eq!(rt; again.places.as_slice(), manifest.places.as_slice());
    Ok(())
}

fn place(offset: u32) -> Place {
    place_in(0, 0, offset)
}

fn place_in(session: u32, ordinal: u32, offset: u32) -> Place {
    Place {
        container: ContainerId { session, ordinal },
        offset,
    }
}

#[test]
fn containers_ascend(rt: HostRuntime) -> Result<(), Fail> {
    let alloc = rt.alloc();
    let b = piece_of(b"b");
    let pieces = vec![in alloc; b, b, b, b]?;
    let places = vec![in alloc;
        place_in(10, 0, 52),
        place_in(9, 4, 52),
        place_in(10, 0, 344),
        place_in(9, 2, 9),
    ]?;
    assert!(rt; b.len == 1);
    let found = containers(alloc, &Manifest { pieces, places })?;
    let expected = [(9, 2), (9, 4), (10, 0)];
    assert_eq!(rt; found.len(), expected.len());
    for (id, (session, ordinal)) in found.iter().zip(expected) {
        assert_eq!(rt; *id, ContainerId { session, ordinal });
    }
    Ok(())
}

#[test]
fn texts_that_are_read_or_refused(rt: HostRuntime) -> Result<(), Fail> {
    let alloc = rt.alloc();
    let found = decode(alloc, &TEXT).ok().ok_or("no manifest")?;
    assert_eq!(rt; found.pieces.as_slice(), [piece_of(b"b")].as_slice());
    assert_eq!(rt; found.places.len(), 1);
    assert_eq!(rt;
        found.places[0].container,
        ContainerId {
            session: 1,
            ordinal: 2
        }
    );
    assert_eq!(rt; found.places[0].offset, 0x0102_0304);

    assert!(rt; is_refused(alloc, &[]), "no chunk");
    assert!(rt; is_refused(alloc, &TEXT[..47]), "one byte short");
    assert!(rt; is_refused(alloc, &with_len(0)), "length 0");
    assert!(rt; !is_refused(alloc, &with_len(11_200)), "length 11,200");
    assert!(rt; is_refused(alloc, &with_len(11_201)), "length 11,201");
    Ok(())
}

fn with_len(len: u32) -> [u8; 48] {
    let [a, b, c, d] = len.to_be_bytes();
    let mut text = TEXT;
    text[32] = a;
    text[33] = b;
    text[34] = c;
    text[35] = d;
    text
}

fn is_refused(alloc: Global, text: &[u8]) -> bool {
    matches!(decode(alloc, text), Err(DecodeFault::NotManifest))
}

#[test]
fn most_chunks(rt: HostRuntime) -> Result<(), Fail> {
    let alloc = rt.alloc();
    let (piece, place) = TEXT.split_at(36);
    for (count, refused) in [(4_096, false), (4_097, true)] {
        let mut text = Vec::new(alloc);
        for _ in 0..count {
            text.extend_from_slice(piece)?;
        }
        for _ in 0..count {
            text.extend_from_slice(place)?;
        }
        assert_eq!(rt; is_refused(alloc, &text), refused, "{count}");
    }
    Ok(())
}
