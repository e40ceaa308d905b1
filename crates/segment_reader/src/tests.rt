// The numbers of the stream of zeros are those that the rules give: each chunk has the greatest length, and each
// segment the greatest number of chunks.
use super::*;
use outside::{MemSource, Source};
use segmenter::{Segment, Segmenter};
use ss_base::{Memory, Profile};
use std::alloc::Global;
use std::test::Fail;
use tttd_chunker::cut_all;

// A source of zeros whose reads with these numbers fail.
fn zeros(alloc: Global, len: usize, fails: &[u32]) -> Result<MemSource, Memory> {
    let bytes = vec![in alloc; 0; len]?;
    Ok(MemSource::new(bytes, fails.to_vec(alloc)?))
}

// Bytes whose high digits are those of a linear congruence.
fn scattered(alloc: Global, len: usize) -> Result<Vec<u8>, Memory> {
    let mut bytes = Vec::new(alloc);
    let mut state: u64 = 1;
    for _ in 0..len {
        state = state
            .wrapping_mul(6_364_136_223_846_793_005)
            .wrapping_add(1_442_695_040_888_963_407);
        bytes.push((state >> 56) as u8)?;
    }
    Ok(bytes)
}

// The segments of a source, one by one.
fn read_all<S: Source>(
    alloc: Global,
    source: &mut S,
    profile: Profile,
) -> Result<Vec<Segment>, NextFault> {
    let mut work = Work::new(alloc, profile, 1 << 20)?;
    let mut segments = Vec::new(alloc);
    while let Some(segment) = next_segment(alloc, source, &mut work)? {
        segments.push(segment).map_err(|_| NextFault::Memory)?;
    }
    Ok(segments)
}

// The segments of bytes that are cut all at once in a tiny store.
fn group_all(alloc: Global, bytes: &[u8]) -> Result<Vec<Segment>, Memory> {
    let mut segmenter = Segmenter::new(alloc, Profile::Tiny);
    let mut segments = Vec::new(alloc);
    for chunk in &cut_all(alloc, Profile::Tiny, bytes)? {
        if chunk.is_empty() || chunk.len() > 256 {
            continue;
        }
        if let Some(segment) = segmenter.add(chunk)? {
            segments.push(segment)?;
        }
    }
    if let Some(segment) = segmenter.rest() {
        segments.push(segment)?;
    }
    Ok(segments)
}

#[test]
fn reads_no_further_than_the_first_segment(rt: HostRuntime) -> Result<(), Fail> {
    let alloc = rt.alloc();
    let mut source = zeros(alloc, 1_000_000, &[])?;
    let mut work = Work::new(alloc, Profile::Tiny, 1 << 40)?;
    assert_eq!(rt; work.pending(), 0);
    let segment = next_segment(alloc, &mut source, &mut work)?.ok_or("no segment")?;
    assert_eq!(rt; segment.pieces.len(), 8);
    assert_eq!(rt; segment.bytes.len(), 2_048);
    assert_eq!(rt; work.pending(), 63_488);
    assert!(rt; !work.spent());
    Ok(())
}

#[test]
fn an_empty_source_has_no_segment(rt: HostRuntime) -> Result<(), Fail> {
    let alloc = rt.alloc();
    let mut source = zeros(alloc, 0, &[2])?;
    let mut work = Work::new(alloc, Profile::Large, 0)?;
    assert!(rt; next_segment(alloc, &mut source, &mut work)?.is_none());
    assert!(rt;
        next_segment(alloc, &mut source, &mut work)?.is_none(),
        "the end is not read again"
    );
    assert_eq!(rt; work.pending(), 0);
    assert!(rt; !work.spent());
    Ok(())
}

#[test]
fn a_stream_as_long_as_the_limit(rt: HostRuntime) -> Result<(), Fail> {
    let alloc = rt.alloc();
    let mut source = zeros(alloc, 300, &[])?;
    let mut work = Work::new(alloc, Profile::Tiny, 300)?;
    let segment = next_segment(alloc, &mut source, &mut work)?.ok_or("no segment")?;
    assert_eq!(rt; segment.pieces.len(), 2);
    assert_eq!(rt; segment.bytes.len(), 300);
    assert!(rt; next_segment(alloc, &mut source, &mut work)?.is_none());
    assert!(rt; !work.spent());
    Ok(())
}

#[test]
fn a_stream_one_byte_longer(rt: HostRuntime) -> Result<(), Fail> {
    let alloc = rt.alloc();
    for (len, limit) in [(3, 2), (300, 299), (131_073, 131_072)].iter() {
        let mut source = zeros(alloc, *len, &[])?;
        let mut work = Work::new(alloc, Profile::Large, *limit)?;
        let found = next_segment(alloc, &mut source, &mut work);
        assert!(rt; matches!(found, Err(NextFault::TooLong)));
        assert!(rt; work.spent());
        assert_eq!(rt; work.pending(), 0);
    }
    Ok(())
}

#[test]
fn a_source_that_fails(rt: HostRuntime) -> Result<(), Fail> {
    let alloc = rt.alloc();
    let mut source = zeros(alloc, 100_000, &[2])?;
    let mut work = Work::new(alloc, Profile::Tiny, 1 << 40)?;
    for _ in 0..32u8 {
        let segment = next_segment(alloc, &mut source, &mut work)?.ok_or("no segment")?;
        assert_eq!(rt; segment.bytes.len(), 2_048);
    }
    assert_eq!(rt; work.pending(), 0);
    let found = next_segment(alloc, &mut source, &mut work);
    assert!(rt; matches!(found, Err(NextFault::Fault)));
    assert!(rt; work.spent());
    Ok(())
}

#[test]
fn segments_are_those_of_the_whole_stream(rt: HostRuntime) -> Result<(), Fail> {
    let alloc = rt.alloc();
    let bytes = scattered(alloc, 300_000)?;
    let expected = group_all(alloc, &bytes)?;
    let mut source = MemSource::new(bytes.clone()?, Vec::new(alloc));
    let segments = read_all(alloc, &mut source, Profile::Tiny)?;
    assert_eq!(rt; segments.len(), expected.len());
    let mut joined: Vec<u8> = Vec::new(alloc);
    for (segment, other) in segments.iter().zip(expected.iter()) {
        assert!(rt; segment.pieces == other.pieces);
        joined.extend_from_slice(&segment.bytes)?;
    }
    assert!(rt; joined == bytes);
    Ok(())
}
