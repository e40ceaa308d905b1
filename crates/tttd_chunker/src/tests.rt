use super::*;
use ss_base::Profile;
use std::alloc::Global;
use std::test::Fail;

// Zeros, but for `byte` at `at`.
fn one_byte(alloc: Global, len: usize, at: usize, byte: u8) -> Result<Vec<u8>, Fail> {
    let mut bytes = vec![in alloc; 0; len]?;
    if at < bytes.len() {
        bytes[at] = byte;
    }
    Ok(bytes)
}

// The lengths of the chunks of a tiny store.
fn lengths(alloc: Global, bytes: &[u8]) -> Result<Vec<usize>, Fail> {
    let mut lengths = Vec::new(alloc);
    for chunk in &cut_all(alloc, Profile::Tiny, bytes)? {
        lengths.push(chunk.len())?;
    }
    Ok(lengths)
}

#[test]
fn lengths_of_chunks(rt: HostRuntime) -> Result<(), Fail> {
    let alloc = rt.alloc();
    let rows: [(usize, usize, u8, &[usize]); 6] = [
        (0, 0, 0, &[]),
        (3, 0, b'a', &[3]),
        (256, 0, 0, &[256]),
        (257, 0, 0, &[256, 1]),
        (100, 62, 5, &[64, 36]),
        (300, 253, 81, &[255, 45]),
    ];
    for (len, at, byte, expected) in rows.iter() {
        let bytes = one_byte(alloc, *len, *at, *byte)?;
        assert_eq!(rt; lengths(alloc, bytes.as_slice())?.as_slice(), *expected);
    }
    Ok(())
}

// Bytes whose high digits are those of a linear congruence, each taken into a letter by `letter`.
fn scattered(alloc: Global, len: usize, letters: &[u8]) -> Result<Vec<u8>, Fail> {
    let mut bytes = Vec::new(alloc);
    let mut state: u64 = 1;
    for _ in 0..len {
        state = state
            .wrapping_mul(6_364_136_223_846_793_005)
            .wrapping_add(1_442_695_040_888_963_407);
        let high = (state >> 56) as u8;
        bytes.push(letters.get(high as usize % 2).copied().unwrap_or(high))?;
    }
    Ok(bytes)
}

// A stream in pieces of this size.
fn pieces(alloc: Global, bytes: &[u8], size: usize) -> Result<Vec<Vec<u8>>, Fail> {
    let mut pieces = Vec::new(alloc);
    let mut piece = Vec::new(alloc);
    for byte in bytes {
        piece.push(*byte)?;
        if piece.len() == size {
            pieces.push(piece)?;
            piece = Vec::new(alloc);
        }
    }
    pieces.push(piece)?;
    Ok(pieces)
}

// The plain program finds the same chunks, however the stream comes.
#[test]
fn same_chunks_in_any_pieces(rt: HostRuntime) -> Result<(), Fail> {
    let alloc = rt.alloc();
    let zeros = one_byte(alloc, 100_000, 0, 0)?;
    let random = scattered(alloc, 200_000, b"")?;
    let text = scattered(alloc, 100_000, b"ab")?;
    for bytes in [zeros, random, text].iter() {
        for profile in [Profile::Tiny, Profile::Small, Profile::Large].iter() {
            let expected = cut_plainly(alloc, *profile, bytes.as_slice())?;
            assert!(rt; expected == cut_all(alloc, *profile, bytes.as_slice())?);
            for size in [1, 47, 48, 65_536, 200_000].iter() {
                let chunks = cut_pieces(
                    alloc,
                    *profile,
                    pieces(alloc, bytes.as_slice(), *size)?.as_slice(),
                )?;
                assert!(rt; expected == chunks, "pieces of {size}");
            }
        }
    }
    Ok(())
}
