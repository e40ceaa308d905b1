// Journals on shelves in memory, whole, cut short, and in small pieces.
ghost use Rattle.std.specs.Prelude.{◌≤◌, None, All, IfOk};
ghost use Rattle.journal_entry.specs.Bounds.{IsWithinBounds, PointIsWithinBounds};

use crate::{AppendFault, CreateFault, JournalFault, append, create, one_answer, read};
use journal_entry::{Entry, Items, Point};
use outside::{MemShelf, Shelf, Trouble};
use ss_base::{ContainerId, ManifestId, Memory, Name, Profile, StreamName};
use std::alloc::{AllocError, Global};
use std::process::Abort;
use std::test::Fail;

fn from_hex(alloc: Global, text: &str) -> Result<Vec<u8>, AllocError> {
    let mut bytes = Vec::new(alloc);
    let mut high = None;
    for c in text.bytes() {
        let digit = match c {
            b'0'..=b'9' => c - b'0',
            b'a'..=b'f' => c - b'a' + 10,
            _ => continue,
        };
        match high {
            None => high = Some(digit),
            Some(first) => {
                bytes.push((first << 4) | digit)?;
                high = None;
            }
        }
    }
    Ok(bytes)
}

fn digest(alloc: Global, hex: &str) -> Result<Name, AllocError> {
    let mut digest = [0; 32];
    for (to, from) in digest.iter_mut().zip(&from_hex(alloc, hex)?) {
        *to = *from;
    }
    Ok(Name(digest))
}

// The journal of a first backup, header and entries.
const FIRST: &str = "53534a31 01 000000
    00000000 01 05 7a65726f73 01 00000000
    00000000 02 00000000 0002
    5341e6b2646979a70e57653007a1f310169421ec9bdd9f1a5648f75ade005af1
    3e23e8160039594a33894f6564e1b1348bbd7a0088d42c4acb73eeaed59c009d 00
    00000000 03 00000000 00000000
    3ed00f5fef48f1f089cb71f7bbcdeb34f739e9cd263a4c1c91d575cd203d147c
    23ec11eae3f6c1c3f0d8f9efc9b8864895a39dbe4e39a17c866fa596b17f5a46
    00000004 00000301 00000002 00000101 0001 00000000 00000000
    00000000 04 00000000 00000001";

fn entry(point: Point) -> Entry
    requires { PointIsWithinBounds point }
    ensures { IsWithinBounds result }
{
    Entry { author: 0, point }
}

fn first_choose(alloc: Global) -> Result<Point, AllocError>
    ensures { IfOk result PointIsWithinBounds }
{
    let zeros = digest(
        alloc,
        "5341e6b2646979a70e57653007a1f310169421ec9bdd9f1a5648f75ade005af1",
    )?;
    let letter = digest(
        alloc,
        "3e23e8160039594a33894f6564e1b1348bbd7a0088d42c4acb73eeaed59c009d",
    )?;
    Ok(Point::Choose {
        session: 0,
        hooks: Items::new(Vec::from_array(alloc, [zeros, letter])?),
        champions: Items::new(Vec::new(alloc)),
    })
}

fn first_commit(alloc: Global) -> Result<Point, AllocError>
    ensures { IfOk result PointIsWithinBounds }
{
    let content = digest(
        alloc,
        "3ed00f5fef48f1f089cb71f7bbcdeb34f739e9cd263a4c1c91d575cd203d147c",
    )?;
    let text = digest(
        alloc,
        "23ec11eae3f6c1c3f0d8f9efc9b8864895a39dbe4e39a17c866fa596b17f5a46",
    )?;
    let container = ContainerId {
        session: 0,
        ordinal: 0,
    };
    Ok(Point::Commit {
        manifest: ManifestId { session: 0, seq: 0 },
        content,
        text,
        chunks: 4,
        bytes: 769,
        fresh: 2,
        fresh_bytes: 257,
        uses: Items::new(Vec::from_array(alloc, [container])?),
    })
}

// Its entries.
fn first_entries(alloc: Global) -> Result<[Entry; 4], Fail>
    ensures { IfOk result (λ entries. All IsWithinBounds entries) }
{
    let name = StreamName::new(b"zeros").ok_or("a name")?;
    let choose = first_choose(alloc)?;
    let commit = first_commit(alloc)?;
    let begin = Point::Begin {
        name,
        session: Some(0),
    };
    let finish = Point::Finish {
        session: 0,
        containers: 1,
    };
    Ok([entry(begin), entry(choose), entry(commit), entry(finish)])
}

// A shelf that gives at most 7 bytes at a time, and tells nothing.
#[derive(Drop)]
struct SmallPieces(MemShelf);

impl Shelf for SmallPieces {
    ghost held = { λ _. None };

    ghost gave = { λ _. None };

    ghost wrote = { λ _. None };

    ghost erased = { λ _. None };

    ghost reads = { λ s. s.0.reads };

    ghost faults = { λ s. s.0.plan.faults };

    fn has(&mut self, name: &str) -> Result<bool, Trouble> {
        self.0.has(name)
    }

    fn read(&mut self, alloc: Global, name: &str, at: u64, max: usize) -> Result<Vec<u8>, Trouble> {
        self.0.read(alloc, name, at, max.min(7))
    }

    fn create(&mut self, name: &str, bytes: &[u8]) -> Result<(), Trouble> {
        self.0.create(name, bytes)
    }

    fn append(&mut self, name: &str, bytes: &[u8]) -> Result<(), Trouble> {
        self.0.append(name, bytes)
    }

    fn erase(&mut self, name: &str) -> Result<(), Trouble> {
        self.0.erase(name)
    }
}

// A shelf with this journal, whose call of this number fails.
fn shelf_with(alloc: Global, journal: &[u8], fails: u32) -> Result<MemShelf, Memory> {
    let mut shelf = MemShelf::new(alloc, vec![in alloc; fails]?);
    shelf.set("journal", journal)?;
    Ok(shelf)
}

// How many entries are read, or why none are.
fn count_of<S: Shelf>(alloc: Global, shelf: &mut S) -> Result<usize, JournalFault> {
    let (_, entries) = read(alloc, shelf)?;
    Ok(entries.len())
}

// A shelf with a new journal and these entries, whose calls from the fourth on read it; of these one fails.
fn shelf_of(
    alloc: Global,
    profile: Profile,
    entries: &[Entry],
    fails: u32,
) -> Result<MemShelf, Fail>
    requires { All IsWithinBounds entries.now }
{
    let mut shelf = MemShelf::new(alloc, vec![in alloc; fails]?);
    create(&mut shelf, profile).ok().ok_or("a journal")?;
    append(alloc, &mut shelf, entries).ok().ok_or("entries")?;
    Ok(shelf)
}

fn journal_len(shelf: &MemShelf) -> usize {
    shelf.get("journal").map_or(0, |journal| journal.len())
}

fn is_made_once(
    rt: &impl Abort,
    alloc: Global,
    profile: Profile,
    header: &[u8],
) -> Result<(), Fail> {
    let mut shelf = MemShelf::new(alloc, vec![in alloc; 1, 3]?);
    shelf.set("c-0-0", b"chunk")?;
    // The planned calls fail, and all is as before.
    assert_eq!(rt; create(&mut shelf, profile), Err(CreateFault::Shelf));
    assert_eq!(rt; create(&mut shelf, profile), Err(CreateFault::Shelf));
    assert!(rt; shelf.get("journal").is_none());
    assert_eq!(rt; create(&mut shelf, profile), Ok(()));
    assert_eq!(rt;
        create(&mut shelf, Profile::Large),
        Err(CreateFault::AlreadyStore)
    );
    assert!(rt; shelf.get("journal") == Some(header));
    assert!(rt; shelf.get("c-0-0") == Some(b"chunk".as_slice()));
    assert_eq!(rt; read(alloc, &mut shelf), Ok((profile, Vec::new(alloc))));
    Ok(())
}

#[test]
fn a_journal_is_made_once(rt: HostRuntime) -> Result<(), Fail> {
    let alloc = rt.alloc();
    is_made_once(&rt, alloc, Profile::Tiny, b"SSJ1\x01\0\0\0")?;
    is_made_once(&rt, alloc, Profile::Small, b"SSJ1\x02\0\0\0")?;
    is_made_once(&rt, alloc, Profile::Large, b"SSJ1\x03\0\0\0")?;
    Ok(())
}

#[test]
fn a_journal_that_is_there_stays(rt: HostRuntime) -> Result<(), Fail> {
    let alloc = rt.alloc();
    let mut shelf = shelf_with(alloc, b"", 1)?;
    assert_eq!(rt; create(&mut shelf, Profile::Tiny), Err(CreateFault::Shelf));
    assert_eq!(rt;
        create(&mut shelf, Profile::Tiny),
        Err(CreateFault::AlreadyStore)
    );
    assert!(rt; shelf.get("journal") == Some(b"".as_slice()));
    Ok(())
}

#[test]
fn entries_are_added_by_one_call(rt: HostRuntime) -> Result<(), Fail> {
    let alloc = rt.alloc();
    let journal = from_hex(alloc, FIRST)?;
    let entries = first_entries(alloc)?;
    let mut shelf = shelf_with(alloc, b"SSJ1\x01\0\0\0", 1)?;
    assert_eq!(rt; append(alloc, &mut shelf, &[]), Ok(()));
    assert_eq!(rt;
        append(alloc, &mut shelf, &entries),
        Err(AppendFault::Shelf)
    );
    assert_eq!(rt; journal_len(&shelf), 8);
    assert_eq!(rt; append(alloc, &mut shelf, &entries), Ok(()));
    assert!(rt; shelf.get("journal") == Some(journal.as_slice()));
    Ok(())
}

#[test]
fn a_journal_is_read_to_its_end(rt: HostRuntime) -> Result<(), Fail> {
    let alloc = rt.alloc();
    let journal = from_hex(alloc, FIRST)?;
    // It takes three calls.
    let mut shelf = shelf_with(alloc, &journal, 4)?;
    let entries = Vec::from_array(alloc, first_entries(alloc)?)?;
    let expected = Ok((Profile::Tiny, entries));
    assert_eq!(rt; read(alloc, &mut shelf), expected);
    let mut small = SmallPieces(shelf);
    assert_eq!(rt; count_of(alloc, &mut small), Err(JournalFault::Shelf));
    assert_eq!(rt; read(alloc, &mut small), expected);
    for call in 1..4 {
        let mut shelf = shelf_with(alloc, &journal, call)?;
        assert_eq!(rt; count_of(alloc, &mut shelf), Err(JournalFault::Shelf));
    }
    Ok(())
}

// What reading the journal cut to this length answers.
fn answer_at(len: usize) -> Result<usize, JournalFault> {
    match len {
        0..=7 => Err(JournalFault::NotStore),
        8 => Ok(0),
        9..=23 => Err(JournalFault::BadEntry(8)),
        24 => Ok(1),
        25..=99 => Err(JournalFault::BadEntry(24)),
        100 => Ok(2),
        101..=202 => Err(JournalFault::BadEntry(100)),
        203 => Ok(3),
        _ => Err(JournalFault::BadEntry(203)),
    }
}

#[test]
fn a_journal_cut_short_has_a_bad_entry(rt: HostRuntime) -> Result<(), Fail> {
    let alloc = rt.alloc();
    let journal = from_hex(alloc, FIRST)?;
    for len in 0..journal.len() {
        let mut shelf = shelf_with(alloc, &journal[..len], 0)?;
        assert_eq!(rt; count_of(alloc, &mut shelf), answer_at(len));
        let mut small = SmallPieces(shelf);
        assert_eq!(rt; count_of(alloc, &mut small), answer_at(len));
    }
    Ok(())
}

#[test]
fn what_is_no_header_is_no_store(rt: HostRuntime) -> Result<(), Fail> {
    let alloc = rt.alloc();
    let mut absent = MemShelf::new(alloc, vec![in alloc]?);
    assert_eq!(rt; count_of(alloc, &mut absent), Err(JournalFault::NotStore));
    let rows = [
        b"SSJ1\0\0\0\0",
        b"SSJ1\x04\0\0\0",
        b"SSJ1\x01\x01\0\0",
        b"SSJ1\x01\0\x01\0",
        b"SSJ1\x01\0\0\x01",
        b"SSJ2\x01\0\0\0",
        b"ssj1\x01\0\0\0",
    ];
    for row in rows {
        let mut shelf = shelf_with(alloc, row, 0)?;
        assert_eq!(rt; count_of(alloc, &mut shelf), Err(JournalFault::NotStore));
    }
    Ok(())
}

fn choice(alloc: Global, hooks: usize, champions: usize) -> Result<Entry, AllocError>
    requires hooks { hooks ≤ 4096 }
    requires champions { champions ≤ 255 }
    ensures { IfOk result IsWithinBounds }
{
    let hooks = vec![in alloc; Name([255; 32]); hooks]?;
    let champions = vec![in alloc; ManifestId { session: 1, seq: 2 }; champions]?;
    Ok(entry(Point::Choose {
        session: 1,
        hooks: Items::new(hooks),
        champions: Items::new(champions),
    }))
}

// A piece ends at 65,536, at this offset in the last entry but one.
fn stands_in_two_pieces(rt: &impl Abort, alloc: Global, offset: usize) -> Result<(), Fail>
    requires { offset ≤ 17 }
{
    let name = StreamName::new(&[b'x'; 64][..37 - offset]).ok_or("a name")?;
    let begin = Point::Begin {
        name,
        session: None,
    };
    let abort = Point::Abort {
        session: 1,
        containers: 2,
        texts: 3,
    };
    let first = choice(alloc, 2_046, 0)?;
    let last = choice(alloc, 1, 0)?;
    let entries = [first, entry(begin), entry(abort), last];
    let mut shelf = shelf_of(alloc, Profile::Small, &entries, 5)?;
    assert_eq!(rt; journal_len(&shelf), 65_536 - offset + 17 + 44);
    // Only the read of the second piece fails.
    assert_eq!(rt; count_of(alloc, &mut shelf), Err(JournalFault::Shelf));
    let entries = Vec::from_array(alloc, entries)?;
    assert_eq!(rt; read(alloc, &mut shelf), Ok((Profile::Small, entries)));
    Ok(())
}

#[test]
fn an_entry_may_stand_in_two_pieces(rt: HostRuntime) -> Result<(), Fail> {
    let alloc = rt.alloc();
    for offset in 0..=17 {
        stands_in_two_pieces(&rt, alloc, offset)?;
    }
    Ok(())
}

#[test]
fn the_longest_entry_stands_in_four_pieces(rt: HostRuntime) -> Result<(), Fail> {
    let alloc = rt.alloc();
    let entries = [choice(alloc, 2_046, 0)?, choice(alloc, 4_096, 255)?];
    let mut shelf = shelf_of(alloc, Profile::Large, &entries, 0)?;
    assert_eq!(rt; journal_len(&shelf), 8 + 65_484 + 133_124);
    let entries = Vec::from_array(alloc, entries)?;
    assert_eq!(rt; read(alloc, &mut shelf), Ok((Profile::Large, entries)));
    Ok(())
}

#[test]
fn a_bad_entry_is_not_read_on_for(rt: HostRuntime) -> Result<(), Fail> {
    let alloc = rt.alloc();
    let mut journal = from_hex(alloc, "53534a31 01 000000")?;
    journal.extend_from_slice(&vec![in alloc; 0; 1_000_000]?)?;
    one_answer();
    // Three pieces hold as many bytes as the longest entry has.
    let mut shelf = shelf_with(alloc, &journal, 5)?;
    assert_eq!(rt; count_of(alloc, &mut shelf), Err(JournalFault::BadEntry(8)));
    Ok(())
}
