// Each handle on shared objects keeps its own calls, in order.

use crate::call_record::{ReadCall, WriteCall};
use crate::{RecordShelf, Shelf, Trouble};
use std::alloc::Global;
use std::process::Abort;
use std::sync::Wait;
use std::test::Fail;
use std::thread::join;

const ROUNDS: u32 = 1000;

// Creates, adds to, reads and erases one object, again and again.
fn works<R: Wait + Sync>(
    alloc: Global,
    shelf: &mut RecordShelf<'_, R>,
    name: &str,
) -> Result<(), Trouble> {
    for i in 0..ROUNDS {
        shelf.create(name, &i.to_be_bytes())?;
        shelf.append(name, b"x")?;
        shelf.read(alloc, name, 3, 9)?;
        shelf.erase(name)?;
    }
    Ok(())
}

fn last_byte(i: usize) -> u8 {
    (i % 256) as u8
}

fn are_reads(calls: &[ReadCall], name: &str) -> bool {
    calls.iter().enumerate().all(|(i, call)| {
        call.name.as_str() == name
            && call.at == 3
            && call.max == 9
            && call.bytes.as_slice() == [last_byte(i), b'x'].as_slice()
    })
}

fn are_writes(calls: &[WriteCall], name: &str) -> bool {
    calls.iter().enumerate().all(|(i, call)| {
        let is_last = match call.bytes.as_slice() {
            [_, _, _, last] => i % 2 == 0 && *last == last_byte(i / 2),
            [last] => i % 2 == 1 && *last == b'x',
            _ => false,
        };
        is_last && call.name.as_str() == name
    })
}

fn has_worked<R: Wait + Sync + Abort>(rt: &R, shelf: &RecordShelf<'_, R>, name: &str) {
    let calls = shelf.calls();
    assert_eq!(rt; calls.gave().len(), 1000);
    assert_eq!(rt; calls.wrote().len(), 2000);
    assert_eq!(rt; calls.erased().len(), 1000);
    assert!(rt; are_reads(calls.gave(), name));
    assert!(rt; are_writes(calls.wrote(), name));
    assert!(rt; calls.erased().iter().all(|erased| erased.as_str() == name));
}

#[test]
fn two_handles_keep_their_calls_apart(rt: HostRuntime) -> Result<(), Fail> {
    let alloc = rt.alloc();
    let mut one = RecordShelf::new(&rt, alloc)?;
    let mut two = one.another()?;
    let (first, second) = join(
        &rt,
        || works(alloc, &mut one, "a"),
        || works(alloc, &mut two, "b"),
    );
    first?;
    second?;
    has_worked(&rt, &one, "a");
    has_worked(&rt, &two, "b");
    Ok(())
}

#[test]
fn handles_share_objects_and_no_record(rt: HostRuntime) -> Result<(), Fail> {
    let alloc = rt.alloc();
    let mut one = RecordShelf::new(&rt, alloc)?;
    let mut two = one.another()?;
    one.create("a", b"chunks")?;
    assert_eq!(rt; two.has("a"), Ok(true));
    let bytes = two.read(alloc, "a", 1, 3)?;
    assert_eq!(rt; bytes.as_slice(), b"hun".as_slice());
    two.erase("a")?;
    two.erase("a")?;
    assert_eq!(rt; one.has("a"), Ok(false));
    assert_eq!(rt; one.calls().wrote().len(), 1);
    assert_eq!(rt; one.calls().erased().len(), 0);
    assert_eq!(rt; two.calls().erased().len(), 2);
    Ok(())
}
