// Texts of entries: the edges of each kind, and a journal of a first backup.
ghost use Rattle.std.specs.Prelude.{IfOk};
ghost use Rattle.journal_entry.specs.Bounds.{PointIsWithinBounds};

use crate::{Entry, Items, Point, decode_entry, encode_entry};
use ss_base::{ContainerId, ManifestId, Memory, Name, StreamName};
use std::alloc::{AllocError, Global};
use std::process::Abort;
use std::test::Fail;

// What the text is, its parts in hexadecimal, the middle one repeated, and whether it is an entry's. The
// numbers were worked out from the table of the format.
type Row = (
    &'static str,
    &'static str,
    &'static str,
    usize,
    &'static str,
    bool,
);

fn rows() -> [Row; 53] {
    [
        ("begin, no reply", "00000007 01 01 61 00", "", 0, "", true),
        (
            "begin, least",
            "00000007 01 01 61 01 00000000",
            "",
            0,
            "",
            true,
        ),
        (
            "begin, greatest",
            "ffffffff 01 40",
            "7a",
            64,
            "01 ffffffff",
            true,
        ),
        (
            "begin, a name of 0 bytes",
            "00000007 01 00 00",
            "",
            0,
            "",
            false,
        ),
        (
            "begin, a name of 65 bytes",
            "00000007 01 41",
            "7a",
            65,
            "00",
            false,
        ),
        (
            "begin, a name with a space",
            "00000007 01 03 612062 00",
            "",
            0,
            "",
            false,
        ),
        (
            "begin, a reply of 2",
            "00000007 01 01 61 02 00000000",
            "",
            0,
            "",
            false,
        ),
        ("delete, no reply", "00000007 06 01 61 00", "", 0, "", true),
        (
            "delete, least",
            "00000007 06 01 61 01 00000000",
            "",
            0,
            "",
            true,
        ),
        (
            "delete, greatest",
            "ffffffff 06 40",
            "7a",
            64,
            "01 ffffffff",
            true,
        ),
        (
            "delete, a name of 0 bytes",
            "00000007 06 00 00",
            "",
            0,
            "",
            false,
        ),
        (
            "delete, a name of 65 bytes",
            "00000007 06 41",
            "7a",
            65,
            "00",
            false,
        ),
        (
            "delete, a name with a space",
            "00000007 06 03 612062 00",
            "",
            0,
            "",
            false,
        ),
        (
            "delete, a reply of 2",
            "00000007 06 01 61 02 00000000",
            "",
            0,
            "",
            false,
        ),
        ("look, no reply", "00000007 07 01 61 00", "", 0, "", true),
        (
            "look, least",
            "00000007 07 01 61 01 00000000 00000000",
            "",
            0,
            "",
            true,
        ),
        (
            "look, greatest",
            "ffffffff 07 40",
            "7a",
            64,
            "01 ffffffff ffffffff",
            true,
        ),
        (
            "look, a name of 0 bytes",
            "00000007 07 00 00",
            "",
            0,
            "",
            false,
        ),
        (
            "look, a name of 65 bytes",
            "00000007 07 41",
            "7a",
            65,
            "00",
            false,
        ),
        (
            "look, a name with a space",
            "00000007 07 03 612062 00",
            "",
            0,
            "",
            false,
        ),
        (
            "look, a reply of 2",
            "00000007 07 01 61 02 00000000 00000000",
            "",
            0,
            "",
            false,
        ),
        (
            "choose, least",
            "00000007 02 00000000 0000 00",
            "",
            0,
            "",
            true,
        ),
        (
            "choose, two hooks and a champion",
            "00000007 02 00000001 0002",
            "abababababababababababababababababababababababababababababababab",
            2,
            "01 00000003 00000004",
            true,
        ),
        (
            "choose, greatest",
            "00000007 02 ffffffff 1000",
            "ffffffffffffffffffffffffffffffffffffffffffffffffffffffffffffffff",
            4096,
            "00",
            true,
        ),
        (
            "choose, 4097 hooks",
            "00000007 02 ffffffff 1001",
            "ffffffffffffffffffffffffffffffffffffffffffffffffffffffffffffffff",
            4097,
            "00",
            false,
        ),
        (
            "choose, 255 champions",
            "00000007 02 ffffffff 0000 ff",
            "ffffffffffffffff",
            255,
            "",
            true,
        ),
        (
            "commit, least",
            "00000007 03 00000001 00000002 aaaaaaaaaaaaaaaaaaaaaaaaaaaaaaaaaaaaaaaaaaaaaaaaaaaaaaaaaaaaaaaa bbbbbbbbbbbbbbbbbbbbbbbbbbbbbbbbbbbbbbbbbbbbbbbbbbbbbbbbbbbbbbbb 00000001 00000001 00000000 00000000 0000",
            "",
            0,
            "",
            true,
        ),
        (
            "commit, greatest",
            "00000007 03 00000001 00000002 aaaaaaaaaaaaaaaaaaaaaaaaaaaaaaaaaaaaaaaaaaaaaaaaaaaaaaaaaaaaaaaa bbbbbbbbbbbbbbbbbbbbbbbbbbbbbbbbbbbbbbbbbbbbbbbbbbbbbbbbbbbbbbbb 00001000 02bc0000 00001000 02bc0000 1000",
            "ffffffffffffffff",
            4096,
            "",
            true,
        ),
        (
            "commit, a use",
            "00000007 03 00000001 00000002 aaaaaaaaaaaaaaaaaaaaaaaaaaaaaaaaaaaaaaaaaaaaaaaaaaaaaaaaaaaaaaaa bbbbbbbbbbbbbbbbbbbbbbbbbbbbbbbbbbbbbbbbbbbbbbbbbbbbbbbbbbbbbbbb 00000002 00000003 00000001 00000002 0001",
            "0000000000000000",
            1,
            "",
            true,
        ),
        (
            "commit, no chunk",
            "00000007 03 00000001 00000002 aaaaaaaaaaaaaaaaaaaaaaaaaaaaaaaaaaaaaaaaaaaaaaaaaaaaaaaaaaaaaaaa bbbbbbbbbbbbbbbbbbbbbbbbbbbbbbbbbbbbbbbbbbbbbbbbbbbbbbbbbbbbbbbb 00000000 00000000 00000000 00000000 0000",
            "",
            0,
            "",
            false,
        ),
        (
            "commit, no chunk, a byte",
            "00000007 03 00000001 00000002 aaaaaaaaaaaaaaaaaaaaaaaaaaaaaaaaaaaaaaaaaaaaaaaaaaaaaaaaaaaaaaaa bbbbbbbbbbbbbbbbbbbbbbbbbbbbbbbbbbbbbbbbbbbbbbbbbbbbbbbbbbbbbbbb 00000000 00000001 00000000 00000000 0000",
            "",
            0,
            "",
            false,
        ),
        (
            "commit, 4097 chunks",
            "00000007 03 00000001 00000002 aaaaaaaaaaaaaaaaaaaaaaaaaaaaaaaaaaaaaaaaaaaaaaaaaaaaaaaaaaaaaaaa bbbbbbbbbbbbbbbbbbbbbbbbbbbbbbbbbbbbbbbbbbbbbbbbbbbbbbbbbbbbbbbb 00001001 00001001 00000000 00000000 0000",
            "",
            0,
            "",
            false,
        ),
        (
            "commit, fewer bytes than chunks",
            "00000007 03 00000001 00000002 aaaaaaaaaaaaaaaaaaaaaaaaaaaaaaaaaaaaaaaaaaaaaaaaaaaaaaaaaaaaaaaa bbbbbbbbbbbbbbbbbbbbbbbbbbbbbbbbbbbbbbbbbbbbbbbbbbbbbbbbbbbbbbbb 00000002 00000001 00000000 00000000 0000",
            "",
            0,
            "",
            false,
        ),
        (
            "commit, too many bytes",
            "00000007 03 00000001 00000002 aaaaaaaaaaaaaaaaaaaaaaaaaaaaaaaaaaaaaaaaaaaaaaaaaaaaaaaaaaaaaaaa bbbbbbbbbbbbbbbbbbbbbbbbbbbbbbbbbbbbbbbbbbbbbbbbbbbbbbbbbbbbbbbb 00001000 02bc0001 00000000 00000000 0000",
            "",
            0,
            "",
            false,
        ),
        (
            "commit, more fresh than chunks",
            "00000007 03 00000001 00000002 aaaaaaaaaaaaaaaaaaaaaaaaaaaaaaaaaaaaaaaaaaaaaaaaaaaaaaaaaaaaaaaa bbbbbbbbbbbbbbbbbbbbbbbbbbbbbbbbbbbbbbbbbbbbbbbbbbbbbbbbbbbbbbbb 00000002 00000003 00000003 00000003 0000",
            "",
            0,
            "",
            false,
        ),
        (
            "commit, more fresh bytes than bytes",
            "00000007 03 00000001 00000002 aaaaaaaaaaaaaaaaaaaaaaaaaaaaaaaaaaaaaaaaaaaaaaaaaaaaaaaaaaaaaaaa bbbbbbbbbbbbbbbbbbbbbbbbbbbbbbbbbbbbbbbbbbbbbbbbbbbbbbbbbbbbbbbb 00000002 00000003 00000002 00000004 0000",
            "",
            0,
            "",
            false,
        ),
        (
            "commit, 4097 uses",
            "00000007 03 00000001 00000002 aaaaaaaaaaaaaaaaaaaaaaaaaaaaaaaaaaaaaaaaaaaaaaaaaaaaaaaaaaaaaaaa bbbbbbbbbbbbbbbbbbbbbbbbbbbbbbbbbbbbbbbbbbbbbbbbbbbbbbbbbbbbbbbb 00000001 00000001 00000000 00000000 1001",
            "0000000000000000",
            4097,
            "",
            false,
        ),
        (
            "finish, least",
            "00000007 04 00000000 00000000",
            "",
            0,
            "",
            true,
        ),
        (
            "finish, greatest",
            "ffffffff 04 ffffffff ffffffff",
            "",
            0,
            "",
            true,
        ),
        (
            "abort, least",
            "00000007 05 00000000 00000000 00000000",
            "",
            0,
            "",
            true,
        ),
        (
            "abort, greatest",
            "ffffffff 05 ffffffff ffffffff ffffffff",
            "",
            0,
            "",
            true,
        ),
        ("done, least", "00000007 08 00000000", "", 0, "", true),
        ("done, greatest", "ffffffff 08 ffffffff", "", 0, "", true),
        ("reclaim, least", "00000007 09 00", "", 0, "", true),
        (
            "reclaim, a container and a manifest",
            "00000007 09 02 01 00000001 00000002 02 00000003 00000004",
            "",
            0,
            "",
            true,
        ),
        (
            "reclaim, 16 objects",
            "00000007 09 10",
            "02ffffffffffffffff",
            16,
            "",
            true,
        ),
        (
            "reclaim, 17 objects",
            "00000007 09 11",
            "02ffffffffffffffff",
            17,
            "",
            false,
        ),
        (
            "reclaim, an object of kind 0",
            "00000007 09 01 00 00000001 00000002",
            "",
            0,
            "",
            false,
        ),
        (
            "reclaim, an object of kind 3",
            "00000007 09 01 03 00000001 00000002",
            "",
            0,
            "",
            false,
        ),
        (
            "stat, least",
            "00000007 0a 0000000000000000 0000000000000000 0000000000000000 0000000000000000 0000000000000000 0000000000000000",
            "",
            0,
            "",
            true,
        ),
        (
            "stat, greatest",
            "ffffffff 0a ffffffffffffffff ffffffffffffffff ffffffffffffffff ffffffffffffffff ffffffffffffffff ffffffffffffffff",
            "",
            0,
            "",
            true,
        ),
        ("kind 0", "00000007 00", "00", 64, "", false),
        ("kind 11", "00000007 0b", "00", 64, "", false),
    ]
}

fn push_hex(out: &mut Vec<u8>, text: &str) -> Result<(), AllocError> {
    let mut high = None;
    for c in text.bytes() {
        let digit = match c {
            b'0'..=b'9' => c - b'0',
            b'a'..=b'f' => c - b'a' + 10,
            _ => continue,
        };
        match high {
            None => high = Some(digit),
            Some(first) => {
                out.push((first << 4) | digit)?;
                high = None;
            }
        }
    }
    Ok(())
}

fn text_of(alloc: Global, row: Row) -> Result<Vec<u8>, AllocError> {
    let mut text = Vec::new(alloc);
    push_hex(&mut text, row.1)?;
    for _ in 0..row.3 {
        push_hex(&mut text, row.2)?;
    }
    push_hex(&mut text, row.4)?;
    Ok(text)
}

// The journal of a first backup, header and entries.
fn first_journal(alloc: Global) -> Result<Vec<u8>, AllocError> {
    let mut journal = Vec::new(alloc);
    push_hex(
        &mut journal,
        "53534a31 00 000000
    00000000 01 05 7a65726f73 01 00000000
    00000000 02 00000000 0002
    5341e6b2646979a70e57653007a1f310169421ec9bdd9f1a5648f75ade005af1
    3e23e8160039594a33894f6564e1b1348bbd7a0088d42c4acb73eeaed59c009d 00
    00000000 03 00000000 00000000
    3ed00f5fef48f1f089cb71f7bbcdeb34f739e9cd263a4c1c91d575cd203d147c
    23ec11eae3f6c1c3f0d8f9efc9b8864895a39dbe4e39a17c866fa596b17f5a46
    00000004 00000301 00000002 00000101 0001 00000000 00000000
    00000000 04 00000000 00000001",
    )?;
    Ok(journal)
}

fn digest(alloc: Global, hex: &str) -> Result<Name, AllocError> {
    let mut bytes = Vec::new(alloc);
    push_hex(&mut bytes, hex)?;
    let mut digest = [0; 32];
    for (to, from) in digest.iter_mut().zip(&bytes) {
        *to = *from;
    }
    Ok(Name(digest))
}

// The entry stands there in the journal, up to the end.
fn stands_at(
    rt: &impl Abort,
    alloc: Global,
    journal: &[u8],
    at: usize,
    end: usize,
    point: Point,
) -> Result<(), Memory>
    requires { PointIsWithinBounds point }
{
    let entry = Entry { author: 0, point };
    let text = encode_entry(alloc, &entry)?;
    assert_eq!(rt; journal.get(at..end), Some(text.as_slice()), "at {at}");
    let rest = journal.get(at..).unwrap_or(b"");
    let answer = decode_entry(alloc, rest)?;
    assert_eq!(rt; answer, Some((entry, text.len())), "at {at}");
    Ok(())
}

fn first_choose(alloc: Global) -> Result<Point, AllocError>
    ensures { IfOk result PointIsWithinBounds }
{
    let zeros = digest(
        alloc,
        "5341e6b2646979a70e57653007a1f310169421ec9bdd9f1a5648f75ade005af1",
    )?;
    let letter = digest(
        alloc,
        "3e23e8160039594a33894f6564e1b1348bbd7a0088d42c4acb73eeaed59c009d",
    )?;
    Ok(Point::Choose {
        session: 0,
        hooks: Items::new(Vec::from_array(alloc, [zeros, letter])?),
        champions: Items::new(Vec::new(alloc)),
    })
}

fn first_commit(alloc: Global) -> Result<Point, AllocError>
    ensures { IfOk result PointIsWithinBounds }
{
    let content = digest(
        alloc,
        "3ed00f5fef48f1f089cb71f7bbcdeb34f739e9cd263a4c1c91d575cd203d147c",
    )?;
    let text = digest(
        alloc,
        "23ec11eae3f6c1c3f0d8f9efc9b8864895a39dbe4e39a17c866fa596b17f5a46",
    )?;
    let container = ContainerId {
        session: 0,
        ordinal: 0,
    };
    Ok(Point::Commit {
        manifest: ManifestId { session: 0, seq: 0 },
        content,
        text,
        chunks: 4,
        bytes: 769,
        fresh: 2,
        fresh_bytes: 257,
        uses: Items::new(Vec::from_array(alloc, [container])?),
    })
}

#[test]
fn first_backup(rt: HostRuntime) -> Result<(), Fail> {
    let alloc = rt.alloc();
    let journal = first_journal(alloc)?;
    let begin = Point::Begin {
        name: StreamName::new(b"zeros").ok_or("a name")?,
        session: Some(0),
    };
    let choose = first_choose(alloc)?;
    let commit = first_commit(alloc)?;
    let finish = Point::Finish {
        session: 0,
        containers: 1,
    };
    stands_at(&rt, alloc, &journal, 8, 24, begin)?;
    stands_at(&rt, alloc, &journal, 24, 100, choose)?;
    stands_at(&rt, alloc, &journal, 100, 203, commit)?;
    stands_at(&rt, alloc, &journal, 203, 216, finish)?;
    Ok(())
}

#[test]
fn edges_of_each_kind(rt: HostRuntime) -> Result<(), Fail> {
    let alloc = rt.alloc();
    for row in rows() {
        let text = text_of(alloc, row)?;
        match decode_entry(alloc, &text)? {
            None => assert!(rt; !row.5, "{}", row.0),
            Some((entry, len)) => {
                assert!(rt; row.5, "{}", row.0);
                assert_eq!(rt; len, text.len(), "{}", row.0);
                let again = encode_entry(alloc, &entry)?;
                assert_eq!(rt; again.as_slice(), text.as_slice(), "{}", row.0);
            }
        }
    }
    Ok(())
}

#[test]
fn no_part_is_an_entry(rt: HostRuntime) -> Result<(), Fail> {
    let alloc = rt.alloc();
    for row in rows() {
        let text = text_of(alloc, row)?;
        if row.5 && text.len() < 256 {
            for len in 0..text.len() {
                assert!(rt;
                    decode_entry(alloc, &text[..len])?.is_none(),
                    "{} at {len}",
                    row.0
                );
            }
        }
    }
    Ok(())
}
