use super::*;
use crate::feed_source::feed;
use crate::line_printer::LinePrinter;
use crate::names::NameLines;
use crate::stop::{Halt, Stop};
use outside::{MemShelf, MemSink, MemSource};
use ss_base::Profile;
use std::alloc::Global;
use std::test::Fail;

// The words as a run takes them.
fn owned(alloc: Global, words: &[&str]) -> Result<Vec<String>, Fail> {
    let mut all = Vec::new(alloc);
    for word in words {
        all.push(String::from_str(alloc, word)?)?;
    }
    Ok(all)
}

// A lane without files and without a store; the depot's calls with these numbers fail.
fn empty_lane(alloc: Global, fails: &[u32]) -> Result<Lane<MemShelf, MemShelf>, Fail> {
    Ok(Lane {
        files: MemShelf::new(alloc, Vec::new(alloc)),
        depot: MemShelf::new(alloc, fails.to_vec(alloc)?),
    })
}

// The status of `init tiny` in this lane, and what it printed; the writes with these numbers fail.
fn init(
    alloc: Global,
    lane: &mut Lane<MemShelf, MemShelf>,
    sink_fails: &[u32],
) -> Result<(u8, Vec<u8>), Fail> {
    let words = owned(alloc, &["init", "tiny"])?;
    let mut script = MemSource::new(Vec::new(alloc), Vec::new(alloc));
    let mut out = MemSink::new(alloc, sink_fails.to_vec(alloc)?);
    let status = run_solo(alloc, &words, &mut script, &mut out, lane);
    Ok((status, out.bytes().to_vec(alloc)?))
}

// The status of a run over these bytes, and what it printed; the calls with these numbers fail.
fn run(
    alloc: Global,
    words: &[&str],
    bytes: &[u8],
    source_fails: &[u32],
    sink_fails: &[u32],
) -> Result<(u8, Vec<u8>), Fail> {
    let words = owned(alloc, words)?;
    let mut script = MemSource::new(bytes.to_vec(alloc)?, source_fails.to_vec(alloc)?);
    let mut out = MemSink::new(alloc, sink_fails.to_vec(alloc)?);
    let mut lane = empty_lane(alloc, &[])?;
    let status = run_solo(alloc, &words, &mut script, &mut out, &mut lane);
    Ok((status, out.bytes().to_vec(alloc)?))
}

// Zeros, but for one byte.
fn one_byte(alloc: Global, len: usize, at: usize, byte: u8) -> Result<Vec<u8>, Fail> {
    let mut bytes = vec![in alloc; 0; len]?;
    if at < bytes.len() {
        bytes[at] = byte;
    }
    Ok(bytes)
}

#[test]
fn names_of_chunks(rt: HostRuntime) -> Result<(), Fail> {
    let alloc = rt.alloc();
    let rows = [
        (0, 0, 0, ""),
        (
            3,
            1,
            b'b',
            "38390301b7df9cab22caaadaddd5197492ba076bb9c663e69fb000b4445513ad 3\n",
        ),
        (
            256,
            0,
            0,
            "5341e6b2646979a70e57653007a1f310169421ec9bdd9f1a5648f75ade005af1 256\n",
        ),
        (
            257,
            0,
            0,
            "5341e6b2646979a70e57653007a1f310169421ec9bdd9f1a5648f75ade005af1 256\n\
             6e340b9cffb37a989ca544e6bb780a2c78901d3fb33738768511a30617afa01d 1\n",
        ),
        (
            100,
            62,
            5,
            "c726f53c5bbe309581275e076c9168ef8ab62ef74257bcb04241057b219373bd 64\n\
             6db65fd59fd356f6729140571b5bcd6bb3b83492a16e1bf0a3884442fc3c8a0e 36\n",
        ),
        (
            300,
            253,
            81,
            "4c2486519621a3c8eaf03d338afabe6b53ba906a2389dc0088277d3ad162bf61 255\n\
             8a1020634191c27b63d3c2aa45b723f696ddf2743ca8996a33ed0e47ddd7fc07 45\n",
        ),
    ];
    for (len, at, byte, lines) in rows.iter() {
        let bytes = one_byte(alloc, *len, *at, *byte)?;
        let (status, printed) = run(alloc, &["names", "tiny"], &bytes, &[], &[])?;
        assert_eq!(rt; status, 0);
        assert_eq!(rt; printed.as_slice(), lines.as_bytes());
    }
    Ok(())
}

// The digests are of pieces parts, made by another program. The second name of the last row ends its segment by the
// divisor; the segments of 8 chunks have the greatest number.
#[test]
fn lines_of_segments(rt: HostRuntime) -> Result<(), Fail> {
    let alloc = rt.alloc();
    let mut by_divisor = vec![in alloc; 0; 768]?;
    for (i, byte) in by_divisor.iter_mut().enumerate() {
        if 256 <= i && i < 512 {
            *byte = 1;
        }
    }
    let zeros = vec![in alloc; 0; 5_000]?;
    let rows: [(&[u8], &str); 5] = [
        (b"", ""),
        (
            b"b",
            "04b5e98c54ae0aabe84b77e9b0dc7854ea013c390104ab829f4d4465f516ea7c 1 1 1\n",
        ),
        (
            b"a",
            "258069a1ee97eab6515b2ab3d4d6d0b7204f71c7e9881e978859c4e538977b8d 1 1 0\n",
        ),
        (
            &zeros,
            "7931b60021fd58ae054bc229d63f91f097debbe1289b985cc495291b142438dd 8 2048 1\n\
             7931b60021fd58ae054bc229d63f91f097debbe1289b985cc495291b142438dd 8 2048 1\n\
             d0bdf29f6893f98c441bc2ec965b3cf8c03e9c1dc91b11e6a7880f95c6a4ad06 4 904 1\n",
        ),
        (
            &by_divisor,
            "179d536eb8678a3ce6c5fff14442d4759ab6fef1026b4f401081b52c502764ae 2 512 2\n\
             e2d14f521d7eb954a715139063eac10576bfde1a0e8748a7e88110c409979470 1 256 1\n",
        ),
    ];
    for (bytes, lines) in rows.iter() {
        let (status, printed) = run(alloc, &["segments", "tiny"], bytes, &[], &[])?;
        assert_eq!(rt; status, 0);
        assert_eq!(rt; printed.as_slice(), lines.as_bytes());
    }
    Ok(())
}

// Two segments are whole when the second read fails.
#[test]
fn fault_in_mid_stream(rt: HostRuntime) -> Result<(), Fail> {
    whole_fault_lines();
    let alloc = rt.alloc();
    let zeros = vec![in alloc; 0; 5_000]?;
    let (status, printed) = run(alloc, &["segments", "tiny"], &zeros, &[2], &[])?;
    let lines = "7931b60021fd58ae054bc229d63f91f097debbe1289b985cc495291b142438dd 8 2048 1\n\
                 7931b60021fd58ae054bc229d63f91f097debbe1289b985cc495291b142438dd 8 2048 1\n\
                 source fault\n";
    assert_eq!(rt; status, 12);
    assert_eq!(rt; printed.as_slice(), lines.as_bytes());
    Ok(())
}

#[test]
fn words_of_no_command(rt: HostRuntime) -> Result<(), Fail> {
    let alloc = rt.alloc();
    let rows: [&[&str]; 15] = [
        &[],
        &["journal", "tiny"],
        &["Journal"],
        &["stat", "tiny"],
        &["reclaim", "all"],
        &["delete"],
        &["backup", "in"],
        &["segments"],
        &["init", "medium"],
        &["names"],
        &["names", "huge"],
        &["names", "tiny", "tiny"],
        &["names", "-tiny"],
        &["-names", "tiny"],
        &["Names", "tiny"],
    ];
    for words in rows {
        let (status, printed) = run(alloc, words, b"abc", &[], &[])?;
        assert_eq!(rt; status, 1);
        assert_eq!(rt; printed.as_slice(), b"usage\n".as_slice());
    }
    Ok(())
}

#[test]
fn faults_and_their_lines(rt: HostRuntime) -> Result<(), Fail> {
    let alloc = rt.alloc();
    let abc = "ba7816bf8f01cfea414140de5dae2223b00361a396177a9cb410ff61f20015ad 3\n";
    let rows: [(&[&str], &[u32], &[u32], u8, &str); 5] = [
        (&["names", "tiny"], &[], &[], 0, abc),
        (&["names", "tiny"], &[1], &[], 12, "source fault\n"),
        (&["names", "tiny"], &[2], &[], 12, "source fault\n"),
        (&["names", "tiny"], &[], &[1], 9, ""),
        (&["names", "tiny"], &[3], &[2], 0, abc),
    ];
    for (words, source_fails, sink_fails, expected, text) in rows.iter() {
        let (status, printed) = run(alloc, words, b"abc", source_fails, sink_fails)?;
        assert_eq!(rt; status, *expected);
        assert_eq!(rt; printed.as_slice(), text.as_bytes());
    }
    Ok(())
}

// Of the statuses that stand the least is answered: 9 stands where the sink failed. The lines of two segments are
// written before the second write, which is that of the fault line.
#[test]
fn the_sink_fails_beside_another_cause(rt: HostRuntime) -> Result<(), Fail> {
    let alloc = rt.alloc();
    let zeros = vec![in alloc; 0; 5_000]?;
    let lines = "7931b60021fd58ae054bc229d63f91f097debbe1289b985cc495291b142438dd 8 2048 1\n\
                 7931b60021fd58ae054bc229d63f91f097debbe1289b985cc495291b142438dd 8 2048 1\n";
    let rows: [(&[&str], &[u32], &[u32], u8, &str); 6] = [
        (&["names", "tiny"], &[1], &[1], 9, ""),
        (&["segments", "tiny"], &[1], &[1], 9, ""),
        (&["segments", "tiny"], &[2], &[1], 9, ""),
        (&["segments", "tiny"], &[2], &[2], 9, lines),
        (&["segments", "tiny"], &[], &[1], 9, ""),
        (&["names", "huge"], &[], &[1], 1, ""),
    ];
    for (words, source_fails, sink_fails, expected, text) in rows.iter() {
        let (status, printed) = run(alloc, words, &zeros, source_fails, sink_fails)?;
        assert_eq!(rt; status, *expected);
        assert_eq!(rt; printed.as_slice(), text.as_bytes());
    }
    Ok(())
}

#[test]
fn the_sink_fails_beside_init(rt: HostRuntime) -> Result<(), Fail> {
    let alloc = rt.alloc();
    let mut lane = empty_lane(alloc, &[])?;
    for expected in [0, 9, 9] {
        let (status, printed) = init(alloc, &mut lane, &[1])?;
        assert_eq!(rt; status, expected);
        assert_eq!(rt; printed.len(), 0);
    }
    for fails in [[1], [2]] {
        let mut lane = empty_lane(alloc, &fails)?;
        let (status, printed) = init(alloc, &mut lane, &[1])?;
        assert_eq!(rt; status, 4);
        assert_eq!(rt; printed.len(), 0);
    }
    Ok(())
}

#[test]
fn least_statuses_beside_a_sink_fault(rt: HostRuntime) {
    let rows = [
        (Stop::Usage, 1),
        (Stop::DepotFault, 4),
        (Stop::NotStore, 6),
        (Stop::BadEntry(8), 6),
        (Stop::IllegalEntry(0), 6),
        (Stop::UnfinishedSession(0), 6),
        (Stop::UnfinishedReading(0), 6),
        (Stop::TooLong, 7),
        (Stop::Callers, 7),
        (Stop::Memory, 9),
        (Stop::AlreadyStore, 9),
        (Stop::SourceFault, 9),
    ];
    for (why, status) in rows {
        assert_eq!(rt; why.status_beside_sink_fault(), status);
    }
}

// Of 5,000 zeros 19 chunks are cut whatever comes, and 136 bytes wait.
#[test]
fn whole_lines_before_the_fault(rt: HostRuntime) -> Result<(), Fail> {
    let alloc = rt.alloc();
    let zeros = vec![in alloc; 0; 5_000]?;
    let mut expected = String::new(alloc);
    for _ in 0..19 {
        expected.push_str(
            "5341e6b2646979a70e57653007a1f310169421ec9bdd9f1a5648f75ade005af1 256\n",
        )?;
    }
    expected.push_str("source fault\n")?;
    let (status, printed) = run(alloc, &["names", "tiny"], &zeros, &[2], &[])?;
    assert_eq!(rt; status, 12);
    assert_eq!(rt; printed.as_slice(), expected.as_bytes());
    Ok(())
}

// 3,000 chunks of 256 zeros have 207,000 bytes of lines, which are written in pieces of 65,550.
#[test]
fn third_write_fails(rt: HostRuntime) -> Result<(), Fail> {
    let alloc = rt.alloc();
    let bytes = vec![in alloc; 0; 768_000]?;
    let (whole_status, whole) = run(alloc, &["names", "tiny"], &bytes, &[], &[])?;
    assert_eq!(rt; whole_status, 0);
    assert_eq!(rt; whole.len(), 207_000);
    let (status, printed) = run(alloc, &["names", "tiny"], &bytes, &[], &[3])?;
    assert_eq!(rt; status, 9);
    assert_eq!(rt; printed.len(), 131_100);
    assert!(rt; whole.starts_with(&printed));
    Ok(())
}

#[test]
fn stores_are_made_once(rt: HostRuntime) -> Result<(), Fail> {
    let alloc = rt.alloc();
    let mut lane = empty_lane(alloc, &[])?;
    for (expected, text) in [
        (0, ""),
        (11, "already a store\n"),
        (11, "already a store\n"),
    ] {
        let (status, printed) = init(alloc, &mut lane, &[])?;
        assert_eq!(rt; status, expected);
        assert_eq!(rt; printed.as_slice(), text.as_bytes());
        assert_eq!(rt;
            lane.depot.get("journal"),
            Some(b"SSJ1\x01\0\0\0".as_slice())
        );
    }
    for fails in [[1], [2]] {
        let mut lane = empty_lane(alloc, &fails)?;
        let (status, printed) = init(alloc, &mut lane, &[])?;
        assert_eq!(rt; status, 4);
        assert_eq!(rt; printed.as_slice(), b"depot fault\n".as_slice());
        assert!(rt; lane.depot.get("journal").is_none());
    }
    Ok(())
}

#[test]
fn streams_of_the_limit(rt: HostRuntime) -> Result<(), Fail> {
    let alloc = rt.alloc();
    for (limit, expected) in [(2, Some(Halt::Early(Stop::TooLong))), (3, None)] {
        let mut source = MemSource::new(b"abc".to_vec(alloc)?, Vec::new(alloc));
        let mut out = MemSink::new(alloc, Vec::new(alloc));
        let mut printer = LinePrinter::new(alloc, Profile::Tiny, NameLines)
            .ok()
            .ok_or("memory")?;
        let fed = feed(alloc, &mut source, limit, &mut printer, &mut out);
        assert_eq!(rt; fed.err(), expected);
    }
    Ok(())
}
