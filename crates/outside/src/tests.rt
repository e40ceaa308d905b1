// Each object on its happy path, with a call that fails in mid-stream, and past the end.
ghost use Rattle.std.specs.Prelude.{◌≡◌, ◌≤◌, ◌++◌, OnOk};
ghost use Rattle.outside.specs.Faults.{HasCause};
ghost use Rattle.outside.specs.Shelf.{with_object};

use crate::{
    DirShelf, MemShelf, MemSink, MemSource, ReadSource, Shelf, ShelfSource, Sink, Source, Trouble,
    WriteSink, write_all,
};
use std::alloc::Global;
use std::io::{Cursor, ErrorKind, Read, Write};
use std::process::Abort;
use std::test::Fail;
use std::{fs, io};

// What `calls` reads answer: the bytes, or `!` at a fault, with a space behind each.
fn answers<S: Source>(
    alloc: Global,
    source: &mut S,
    max: usize,
    calls: u8,
) -> Result<Vec<u8>, Trouble>
    requires { 1 ≤ max }
{
    let mut seen = Vec::new(alloc);
    for _ in 0..calls {
        match source.read(alloc, max) {
            Ok(bytes) => seen.extend_from_slice(&bytes)?,
            Err(Trouble::Fault) => seen.push(b'!')?,
            Err(Trouble::Memory) => return Err(Trouble::Memory),
        }
        seen.push(b' ')?;
    }
    Ok(seen)
}

// Is interrupted, reads one byte, fails, ends, and would go on.
#[derive(Drop)]
struct Flaky(u8);

impl Read for Flaky {
    fn read(&mut self, buf: &mut [u8]) -> io::Result<usize> {
        self.0 = self.0.saturating_add(1);
        match (self.0, buf) {
            (1, _) => Err(io::Error::from(ErrorKind::Interrupted)),
            (3, _) => Err(io::Error::from(ErrorKind::BrokenPipe)),
            (4, _) | (_, []) => Ok(0),
            (_, [first, ..]) => {
                *first = b'a';
                Ok(1)
            }
        }
    }
}

// Takes two bytes at a time, is interrupted at the second call, fails at the third, and takes nothing at the fifth.
#[derive(Drop)]
struct Choked(u8);

impl Write for Choked {
    fn write(&mut self, buf: &[u8]) -> io::Result<usize> {
        self.0 = self.0.saturating_add(1);
        match self.0 {
            2 => Err(io::Error::from(ErrorKind::Interrupted)),
            3 => Err(io::Error::from(ErrorKind::BrokenPipe)),
            5 => Ok(0),
            _ => Ok(buf.len().min(2)),
        }
    }

    fn flush(&mut self) -> io::Result<()> {
        Ok(())
    }
}

#[test]
fn sources_answer_in_order(rt: HostRuntime) -> Result<(), Fail> {
    let alloc = rt.alloc();
    let mut memory = MemSource::new(b"chunks".to_vec(alloc)?, vec![in alloc; 2, 5]?);
    let seen = answers(alloc, &mut memory, 4, 6)?;
    assert_eq!(rt; seen.as_slice(), b"chun ! ks  !  ".as_slice());
    let mut cursor = ReadSource::new(Cursor::new(b"chunks"));
    let seen = answers(alloc, &mut cursor, 4, 4)?;
    assert_eq!(rt; seen.as_slice(), b"chun ks   ".as_slice());
    let mut flaky = ReadSource::new(Flaky(0));
    let seen = answers(alloc, &mut flaky, 4, 5)?;
    assert_eq!(rt; seen.as_slice(), b"a !    ".as_slice());
    Ok(())
}

#[test]
fn a_sink_in_memory_keeps_what_it_took(rt: HostRuntime) -> Result<(), Fail> {
    let alloc = rt.alloc();
    let mut memory = MemSink::new(alloc, vec![in alloc; 2]?);
    assert_eq!(rt; write_all(&mut memory, b"ab"), Ok(()));
    assert_eq!(rt; write_all(&mut memory, b"cd"), Err(Trouble::Fault));
    assert_eq!(rt; write_all(&mut memory, b"ef"), Ok(()));
    assert_eq!(rt; memory.write(b""), Ok(0));
    assert_eq!(rt; memory.bytes(), b"abef".as_slice());
    Ok(())
}

#[test]
fn a_sink_over_a_writer_answers_for_it(rt: HostRuntime) -> Result<(), Fail> {
    let alloc = rt.alloc();
    let mut written = Vec::new(alloc);
    let mut sink = WriteSink::new(&mut written);
    assert_eq!(rt; write_all(&mut sink, b"abc"), Ok(()));
    assert_eq!(rt; sink.write(b""), Ok(0));
    assert_eq!(rt; written.as_slice(), b"abc".as_slice());
    let mut choked = WriteSink::new(Choked(0));
    assert_eq!(rt; choked.write(b"abc"), Ok(2));
    assert_eq!(rt; choked.write(b"c"), Err(Trouble::Fault));
    assert_eq!(rt; choked.write(b"c"), Ok(1));
    assert_eq!(rt; choked.write(b"d"), Err(Trouble::Fault));
    Ok(())
}

// What a caller knows of a shelf that it lent to a source.
fn first_bytes<F: Shelf>(alloc: Global, files: &mut F, name: &str) -> Result<Vec<u8>, Trouble>
    ensures held { F.held files.new ≡ F.held files.old }
    ensures wrote { F.wrote files.new ≡ F.wrote files.old }
    ensures cause { HasCause (F.faults files.old) (F.faults files.new) result }
{
    let mut source = ShelfSource::new(files, name);
    source.read(alloc, 2)
}

// What a caller knows of an object that it made in two pieces.
#[tactic(auto, using(crate::proofs::ObjectLaws::pieces, crate::proofs::FaultLaws::causes))]
fn made_in_two<F: Shelf>(
    shelf: &mut F,
    name: &str,
    first: &[u8],
    second: &[u8],
) -> Result<(), Trouble>
    ensures ok { OnOk result (F.held shelf.new ≡ with_object (F.held shelf.old) name.now (first.now ++ second.now)) }
    ensures cause { HasCause (F.faults shelf.old) (F.faults shelf.new) result }
{
    shelf.create(name, first)?;
    shelf.append(name, second)
}

fn reads<F: Shelf>(
    rt: &impl Abort,
    alloc: Global,
    shelf: &mut F,
    (name, at, max): (&str, u64, usize),
    want: &[u8],
) -> Result<(), Trouble> {
    let bytes = shelf.read(alloc, name, at, max)?;
    assert_eq!(rt; bytes.as_slice(), want, "{name} at {at}");
    Ok(())
}

// Every call of a shelf, on objects that are absent, empty and not empty.
fn uses_all_calls<F: Shelf + Send>(
    rt: &impl Abort,
    alloc: Global,
    shelf: &mut F,
) -> Result<(), Trouble> {
    assert!(rt; !shelf.has("a")?);
    reads(rt, alloc, shelf, ("a", 0, 9), b"")?;
    shelf.erase("a")?;
    shelf.create("a", b"")?;
    assert!(rt; shelf.has("a")?);
    reads(rt, alloc, shelf, ("a", 0, 9), b"")?;
    shelf.append("a", b"bc")?;
    shelf.append("a", b"d")?;
    shelf.append("new", b"x")?;
    for (at, max, want) in [
        (0, 9, b"bcd".as_slice()),
        (1, 1, b"c".as_slice()),
        (1, 9, b"cd".as_slice()),
        (3, 9, b"".as_slice()),
        (7, 9, b"".as_slice()),
    ] {
        reads(rt, alloc, shelf, ("a", at, max), want)?;
    }
    shelf.create("a", b"z")?;
    reads(rt, alloc, shelf, ("a", 0, 9), b"z")?;
    shelf.erase("a")?;
    assert!(rt; !shelf.has("a")?);
    reads(rt, alloc, shelf, ("new", 0, 9), b"x")
}

#[test]
fn a_shelf_in_memory_holds_objects(rt: HostRuntime) -> Result<(), Fail> {
    let alloc = rt.alloc();
    let mut shelf = MemShelf::new(alloc, vec![in alloc]?);
    uses_all_calls(&rt, alloc, &mut shelf)?;
    shelf.set("in", b"old")?;
    assert_eq!(rt; shelf.get("new").map(|x| x.len()), Some(1));
    assert_eq!(rt; shelf.get("a").map(|x| x.len()), None);
    made_in_two(&mut shelf, "in", b"chu", b"nks")?;
    let first = first_bytes(alloc, &mut shelf, "in")?;
    assert_eq!(rt; first.as_slice(), b"ch".as_slice());
    Ok(())
}

#[test]
fn a_planned_fault_changes_nothing(rt: HostRuntime) -> Result<(), Fail> {
    let alloc = rt.alloc();
    let mut shelf = MemShelf::new(alloc, vec![in alloc; 1, 2, 3, 4, 5]?);
    shelf.set("a", b"old")?;
    assert_eq!(rt; shelf.has("a"), Err(Trouble::Fault));
    assert!(rt; shelf.read(alloc, "a", 0, 9).is_err());
    assert_eq!(rt; shelf.create("a", b"new"), Err(Trouble::Fault));
    assert_eq!(rt; shelf.append("a", b"more"), Err(Trouble::Fault));
    assert_eq!(rt; shelf.erase("a"), Err(Trouble::Fault));
    reads(&rt, alloc, &mut shelf, ("a", 0, 9), b"old")?;
    Ok(())
}

#[test]
fn a_source_reads_one_object(rt: HostRuntime) -> Result<(), Fail> {
    let alloc = rt.alloc();
    let mut shelf = MemShelf::new(alloc, vec![in alloc; 2]?);
    shelf.set("in", b"chunks")?;
    let seen = answers(alloc, &mut ShelfSource::new(&mut shelf, "in"), 4, 5)?;
    assert_eq!(rt; seen.as_slice(), b"chun ! ks   ".as_slice());
    let seen = answers(alloc, &mut ShelfSource::new(&mut shelf, "absent"), 4, 2)?;
    assert_eq!(rt; seen.as_slice(), b"  ".as_slice());
    Ok(())
}

#[test]
fn a_folder_is_a_shelf(rt: HostRuntime) -> Result<(), Fail> {
    let alloc = rt.alloc();
    let folder = "outside_a_folder_is_a_shelf";
    fs::create_dir(&rt, folder)?;
    fs::create_dir(&rt, "outside_a_folder_is_a_shelf/sub")?;
    let mut shelf = DirShelf::new(&rt, String::from_str(alloc, folder)?);
    uses_all_calls(&rt, alloc, &mut shelf)?;
    // Nothing is in a file. A folder is there and can't be read, and a name with `..` is a fault.
    assert_eq!(rt; shelf.has("new/x"), Ok(false));
    reads(&rt, alloc, &mut shelf, ("new/x", 0, 9), b"")?;
    assert_eq!(rt; shelf.erase("new/x"), Ok(()));
    assert_eq!(rt; shelf.has("sub"), Ok(true));
    assert!(rt; shelf.read(alloc, "sub", 0, 9).is_err());
    assert_eq!(rt; shelf.create("sub", b""), Err(Trouble::Fault));
    assert_eq!(rt; shelf.append("sub", b""), Err(Trouble::Fault));
    assert_eq!(rt; shelf.erase("sub"), Err(Trouble::Fault));
    assert_eq!(rt; shelf.has("sub/../../x"), Err(Trouble::Fault));
    fs::remove_dir_all(&rt, folder)?;
    Ok(())
}
