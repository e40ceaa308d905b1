// Runs of `journal`. The journals are written byte by byte, and the lines by hand.
use super::*;
use outside::{MemShelf, MemSink, MemSource};
use std::alloc::Global;
use std::test::Fail;

// An entry: its author, its text behind the author, and its line.
type Row = (u32, &'static [u8], &'static str);

// Entries 0 to 3 back up `zeros`, and 4 to 7 `again`.
fn rows() -> [Row; 24] {
    [
        (0, b"\x01\x05zeros\x01\0\0\0\0", "0 a0 begin zeros s0\n"),
        (
            0,
            b"\x02\0\0\0\0\0\x02a hook of the 32 bytes of a nameanother of the same 32, a name..\0",
            "1 a0 choose s0 hooks 2 champions -\n",
        ),
        (
            0,
            b"\x03\0\0\0\0\0\0\0\0the 32 bytes of a name, content.the 32 bytes of one more, text..\0\0\0\x04\0\0\x03\x01\0\0\0\x02\0\0\x01\x01\0\x01\0\0\0\0\0\0\0\0",
            "2 a0 commit m0.0 chunks 4 bytes 769 fresh 2 257 uses c0.0\n",
        ),
        (
            0,
            b"\x04\0\0\0\0\0\0\0\x01",
            "3 a0 finish s0 containers 1\n",
        ),
        (1, b"\x01\x05again\x01\0\0\0\x01", "4 a1 begin again s1\n"),
        (
            1,
            b"\x02\0\0\0\x01\0\x02a hook of the 32 bytes of a nameanother of the same 32, a name..\x01\0\0\0\0\0\0\0\0",
            "5 a1 choose s1 hooks 2 champions m0.0\n",
        ),
        (
            1,
            b"\x03\0\0\0\x01\0\0\0\0the 32 bytes of a name, content.the 32 bytes of one more, text..\0\0\0\x04\0\0\x03\x01\0\0\0\0\0\0\0\0\0\x01\0\0\0\0\0\0\0\0",
            "6 a1 commit m1.0 chunks 4 bytes 769 fresh 0 0 uses c0.0\n",
        ),
        (
            1,
            b"\x04\0\0\0\x01\0\0\0\0",
            "7 a1 finish s1 containers 0\n",
        ),
        (
            2,
            b"\x0a\0\0\0\0\0\0\0\x02\0\0\0\0\0\0\x06\x02\0\0\0\0\0\0\x01\x01\0\0\0\0\0\0\0\x01\0\0\0\0\0\0\0\0\0\0\0\0\0\0\0\x08",
            "8 a2 stat streams 2 bytes 1538 fresh 257 containers 1 reclaimed 0 entries 8\n",
        ),
        (3, b"\x06\x05zeros\x01\0\0\0\0", "9 a3 delete zeros s0\n"),
        (4, b"\x09\x01\x02\0\0\0\0\0\0\0\0", "10 a4 reclaim m0.0\n"),
        (5, b"\x06\x05zeros\0", "11 a5 delete zeros none\n"),
        (6, b"\x06\x05again\x01\0\0\0\x01", "12 a6 delete again s1\n"),
        (
            7,
            b"\x09\x02\x01\0\0\0\0\0\0\0\0\x02\0\0\0\x01\0\0\0\0",
            "13 a7 reclaim c0.0,m1.0\n",
        ),
        (8, b"\x09\0", "14 a8 reclaim -\n"),
        (9, b"\x01\x01e\x01\0\0\0\x02", "15 a9 begin e s2\n"),
        (
            9,
            b"\x04\0\0\0\x02\0\0\0\0",
            "16 a9 finish s2 containers 0\n",
        ),
        (
            10,
            b"\x07\x01e\x01\0\0\0\0\0\0\0\x02",
            "17 a10 look e r0 s2\n",
        ),
        (10, b"\x08\0\0\0\0", "18 a10 done r0\n"),
        (11, b"\x01\x01e\0", "19 a11 begin e taken\n"),
        (11, b"\x07\x01x\0", "20 a11 look x none\n"),
        (12, b"\x01\x01z\x01\0\0\0\x03", "21 a12 begin z s3\n"),
        (
            12,
            b"\x02\0\0\0\x03\0\0\0",
            "22 a12 choose s3 hooks 0 champions -\n",
        ),
        (
            12,
            b"\x05\0\0\0\x03\0\0\0\x01\0\0\0\x01",
            "23 a12 abort s3 containers 1 texts 1\n",
        ),
    ]
}

// The journal of a store of profile `tiny` with these entries.
fn journal(alloc: Global, rows: &[Row]) -> Result<Vec<u8>, Fail> {
    let mut text = b"SSJ1\x01\0\0\0".to_vec(alloc)?;
    for (author, fields, _) in rows {
        text.extend_from_slice(&author.to_be_bytes())?;
        text.extend_from_slice(fields)?;
    }
    Ok(text)
}

fn lines(alloc: Global, rows: &[Row]) -> Result<String, Fail> {
    let mut text = String::new(alloc);
    for (_, _, line) in rows {
        text.push_str(line)?;
    }
    Ok(text)
}

// A lane whose depot has this journal, or none; the depot's calls with these numbers fail.
fn lane_with(
    alloc: Global,
    journal: Option<&[u8]>,
    fails: &[u32],
) -> Result<Lane<MemShelf, MemShelf>, Fail> {
    let mut depot = MemShelf::new(alloc, fails.to_vec(alloc)?);
    if let Some(text) = journal {
        depot.set("journal", text)?;
    }
    let files = MemShelf::new(alloc, Vec::new(alloc));
    Ok(Lane { files, depot })
}

// The status of `journal`, and what it printed; the calls with these numbers fail.
fn list(
    alloc: Global,
    journal: Option<&[u8]>,
    depot_fails: &[u32],
    sink_fails: &[u32],
) -> Result<(u8, Vec<u8>), Fail> {
    let mut words = Vec::new(alloc);
    words.push(String::from_str(alloc, "journal")?)?;
    let mut script = MemSource::new(Vec::new(alloc), Vec::new(alloc));
    let mut out = MemSink::new(alloc, sink_fails.to_vec(alloc)?);
    let mut lane = lane_with(alloc, journal, depot_fails)?;
    let status = run_solo(alloc, &words, &mut script, &mut out, &mut lane);
    if lane.depot.get("journal") != journal {
        return Err(Fail::from("the journal changed"));
    }
    Ok((status, out.bytes().to_vec(alloc)?))
}

fn cut(text: &[u8], len: usize) -> Result<&[u8], Fail> {
    if text.len() < len {
        return Err(Fail::from("a text that is too short"));
    }
    Ok(text.split_at(len).0)
}

#[test]
fn one_line_for_each_entry(rt: HostRuntime) -> Result<(), Fail> {
    let alloc = rt.alloc();
    let rows = rows();
    for (count, len) in [(0, 8), (4, 216), (24, 0)] {
        let part = rows.split_at(count).0;
        let text = journal(alloc, part)?;
        assert!(rt; len == 0 || text.len() == len);
        let (status, printed) = list(alloc, Some(&text), &[], &[])?;
        assert_eq!(rt; status, 0);
        assert_eq!(rt; printed.as_slice(), lines(alloc, part)?.as_bytes());
    }
    Ok(())
}

// The fourth entry stands from byte 203 to 216.
#[test]
fn journals_that_are_refused(rt: HostRuntime) -> Result<(), Fail> {
    listed_or_refused();
    let alloc = rt.alloc();
    let rows = rows();
    let whole = journal(alloc, rows.split_at(4).0)?;
    let without_end = journal(alloc, rows.split_at(3).0)?;
    let reading = journal(alloc, rows.split_at(18).0)?;
    let mut no_champion = journal(alloc, rows.split_at(5).0)?;
    no_champion.extend_from_slice(&[0, 0, 0, 1])?;
    no_champion.extend_from_slice(
        b"\x02\0\0\0\x01\0\x02a hook of the 32 bytes of a nameanother of the same 32, a name..\0",
    )?;
    let cases: [(Option<&[u8]>, &str); 9] = [
        (None, "journal is not a store's\n"),
        (Some(b""), "journal is not a store's\n"),
        (Some(b"SSJ1\x01\0\0"), "journal is not a store's\n"),
        (Some(b"SSJ1\x04\0\0\0"), "journal is not a store's\n"),
        (Some(b"SSJ1\x01\0\0\0\0"), "journal bad entry at byte 8\n"),
        (Some(cut(&whole, 215)?), "journal bad entry at byte 203\n"),
        (Some(&no_champion), "journal illegal entry 5\n"),
        (Some(&without_end), "journal unfinished session 0\n"),
        (Some(&reading), "journal unfinished reading 0\n"),
    ];
    for (journal, line) in cases {
        let (status, printed) = list(alloc, journal, &[], &[])?;
        assert_eq!(rt; status, 6);
        assert_eq!(rt; printed.as_slice(), line.as_bytes());
        let (status, printed) = list(alloc, journal, &[], &[1])?;
        assert_eq!(rt; status, 6);
        assert_eq!(rt; printed.len(), 0);
    }
    Ok(())
}

// Calls 1 to 3 ask for the journal, read it, and read its end.
#[test]
fn faults_of_depot_and_sink(rt: HostRuntime) -> Result<(), Fail> {
    let alloc = rt.alloc();
    let rows = rows();
    let all = lines(alloc, &rows)?;
    let journal = journal(alloc, &rows)?;
    let cases: [(&[u32], &[u32], u8, &str); 7] = [
        (&[1], &[], 4, "depot fault\n"),
        (&[2], &[], 4, "depot fault\n"),
        (&[3], &[], 4, "depot fault\n"),
        (&[3], &[1], 4, ""),
        (&[4], &[], 0, all.as_str()),
        (&[], &[1], 9, ""),
        (&[], &[2], 0, all.as_str()),
    ];
    for (depot_fails, sink_fails, expected, text) in cases {
        let (status, printed) = list(alloc, Some(&journal), depot_fails, sink_fails)?;
        assert_eq!(rt; status, expected);
        assert_eq!(rt; printed.as_slice(), text.as_bytes());
    }
    Ok(())
}

// Of 90,000 bytes of lines, 30 each, 65,550 are written first.
#[test]
fn long_lists_in_two_writes(rt: HostRuntime) -> Result<(), Fail> {
    let alloc = rt.alloc();
    let mut text = journal(alloc, &[])?;
    let mut expected = String::new(alloc);
    for number in 0..3_000u32 {
        text.extend_from_slice(b"\0\x01\x86\xa0\x06\x05zeros\0")?;
        expected.push_str(&format!(in alloc; "{number} a100000 delete zeros none\n")?)?;
    }
    let (status, whole) = list(alloc, Some(&text), &[], &[])?;
    assert_eq!(rt; status, 0);
    assert_eq!(rt; whole.as_slice(), expected.as_bytes());
    let (status, printed) = list(alloc, Some(&text), &[], &[2])?;
    assert_eq!(rt; status, 9);
    assert!(rt; printed.len() >= 65_536);
    assert!(rt; printed.len() < 65_600);
    assert!(rt; whole.starts_with(&printed));
    Ok(())
}
