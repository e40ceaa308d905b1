// The files of a folder answer as objects in memory do, whatever calls come.

use crate::{DirShelf, MemShelf, Shelf, Trouble};
use std::alloc::Global;
use std::fs;
use std::test::Fail;

const FOLDER: &str = "outside_test_folder";

const TEXT: &[u8] = b"Each object is a list of bytes, and each call is on one of them alone. ";

// The seed, how many names are used, how many calls are made, and after how many the files are put on the disk.
fn rows() -> [(u64, u64, u32, u32); 5] {
    [
        (2009, 5, 1000, u32::MAX),
        (48, 6, 1000, u32::MAX),
        (1 << 40, 6, 1000, u32::MAX),
        (11_200, 6, 500, 100),
        (7, 12, 500, 100),
    ]
}

// More than stay open, and the last two in a folder below.
fn names() -> [&'static str; 12] {
    [
        "a", "b", "c", "d", "e", "f", "g", "h", "i", "j", "sub/a", "sub/b",
    ]
}

// Numbers by the shifts of Marsaglia's xorshift64.
#[derive(Drop)]
struct Numbers(u64);

impl Numbers {
    fn next(&mut self) -> u64 {
        self.0 ^= self.0 << 13;
        self.0 ^= self.0 >> 7;
        self.0 ^= self.0 << 17;
        self.0 >> 11
    }
}

#[derive(Clone, Copy)]
struct Call {
    kind: u64,
    name: &'static str,
    at: u64,
    len: usize,
}

fn drawn(numbers: &mut Numbers, count: u64) -> Call {
    let place = numbers.next().checked_rem(count).unwrap_or(0) as usize;
    Call {
        kind: numbers.next() % 16,
        name: names().get(place).copied().unwrap_or("a"),
        at: numbers.next() % 256,
        len: (numbers.next() % 64) as usize,
    }
}

// Makes a call, and gives its answer as bytes.
fn answer<F: Shelf>(alloc: Global, shelf: &mut F, call: Call) -> Result<Vec<u8>, Trouble> {
    let from = TEXT.get(call.len..).unwrap_or(b"");
    match call.kind {
        0 => shelf.create(call.name, from)?,
        1 => shelf.erase(call.name)?,
        2..=5 => shelf.append(call.name, from)?,
        6 => return Ok(vec![in alloc; u8::from(shelf.has(call.name)?)]?),
        _ => return shelf.read(alloc, call.name, call.at, call.len),
    }
    Ok(Vec::new(alloc))
}

#[test]
fn a_folder_answers_as_memory_does(rt: HostRuntime) -> Result<(), Fail> {
    let alloc = rt.alloc();
    for (seed, count, calls, period) in rows() {
        fs::create_dir(&rt, FOLDER)?;
        fs::create_dir(&rt, "outside_test_folder/sub")?;
        let mut folder = DirShelf::new(&rt, String::from_str(alloc, FOLDER)?);
        let mut memory = MemShelf::new(alloc, vec![in alloc]?);
        let mut numbers = Numbers(seed);
        for i in 1..=calls {
            let call = drawn(&mut numbers, count);
            let seen = answer(alloc, &mut folder, call)?;
            let want = answer(alloc, &mut memory, call)?;
            assert_eq!(rt; seen, want, "seed {seed}, call {i}");
            if i.checked_rem(period) == Some(0) {
                folder.sync()?;
            }
        }
        fs::remove_dir_all(&rt, FOLDER)?;
    }
    Ok(())
}
