// The expected numbers were worked out by another program, from SHA-256 of each one-byte chunk.
ghost use Rattle.std.specs.Prelude.{◌≡◌, [], ◌∷◌, map, length, IfOk};
ghost use Rattle.ss_base.specs.Profile.{numbers_of};
ghost use Rattle.segmenter.specs.Segments.{segments};

use super::*;
use ss_base::{Memory, Profile};
use std::alloc::Global;
use std::test::Fail;

// How many chunks each segment has, where each byte is a chunk and the profile is tiny: a segment ends behind `d`
// where it has 2 chunks, and behind any chunk where it has 8.
fn sizes(alloc: Global, text: &[u8]) -> Result<Vec<usize>, Memory>
    ensures { IfOk result (λ sizes. sizes.items ≡ map (λ s. length s) (segments (numbers_of Profile.Tiny) (map (λ b. b ∷ []) text.now))) }
{
    let mut segmenter = Segmenter::new(alloc, Profile::Tiny);
    let mut sizes = Vec::new(alloc);
    for b in text {
        if let Some(segment) = segmenter.add(&[*b])? {
            sizes.push(segment.pieces.len())?;
        }
    }
    if let Some(segment) = segmenter.rest() {
        sizes.push(segment.pieces.len())?;
    }
    Ok(sizes)
}

#[test]
fn segments_end(rt: HostRuntime) -> Result<(), Fail> {
    let alloc = rt.alloc();
    let rows: [(&[u8], &[usize]); 7] = [
        (b"", &[]),
        (b"b", &[1]),
        (b"dab", &[3]),
        (b"abdc", &[3, 1]),
        (b"dd", &[2]),
        (b"aaaaaaaaab", &[8, 2]),
        (b"aaaaaaadad", &[8, 2]),
    ];
    for (text, expected) in rows.iter() {
        assert_eq!(rt; sizes(alloc, text)?.as_slice(), *expected, "{text:?}");
    }
    Ok(())
}

#[test]
fn a_segment_has_its_chunks(rt: HostRuntime) -> Result<(), Fail> {
    let mut segmenter = Segmenter::new(rt.alloc(), Profile::Tiny);
    assert!(rt; segmenter.add(b"bc")?.is_none());
    assert!(rt; segmenter.add(b"a")?.is_none());
    let segment = segmenter.rest().ok_or("no segment")?;
    assert_eq!(rt; segment.bytes.as_slice(), b"bca".as_slice());
    assert_eq!(rt; segment.pieces.len(), 2);
    assert_eq!(rt; segment.pieces[0].len, 2);
    assert_eq!(rt; segment.pieces[1], chunk_name::piece_of(b"a"));
    assert!(rt; segmenter.rest().is_none());
    Ok(())
}
