// A call that fails does a front of its bytes first.

use crate::{Shelf, TornShelf, Trouble};
use std::test::Fail;

// What a failed call leaves under `a`, which held `old`: of a create, and of an append.
fn rows() -> [(usize, &'static [u8], &'static [u8]); 4] {
    [
        (0, b"", b"old"),
        (2, b"ne", b"oldne"),
        (3, b"new", b"oldnew"),
        (9, b"new", b"oldnew"),
    ]
}

#[test]
fn a_torn_call_keeps_a_front(rt: HostRuntime) -> Result<(), Fail> {
    let alloc = rt.alloc();
    for (keep, created, appended) in rows() {
        let mut shelf = TornShelf::new(alloc, 2, keep);
        shelf.set("a", b"old")?;
        assert_eq!(rt; shelf.has("a"), Ok(true));
        assert_eq!(rt; shelf.create("a", b"new"), Err(Trouble::Fault));
        assert_eq!(rt; shelf.get("a").map(|x| x == created), Some(true));
        let mut shelf = TornShelf::new(alloc, 1, keep);
        shelf.set("a", b"old")?;
        assert_eq!(rt; shelf.append("a", b"new"), Err(Trouble::Fault));
        assert_eq!(rt; shelf.get("a").map(|x| x == appended), Some(true));
        assert_eq!(rt; shelf.append("a", b"!"), Ok(()));
    }
    Ok(())
}

#[test]
fn a_torn_read_or_erase_changes_nothing(rt: HostRuntime) -> Result<(), Fail> {
    let alloc = rt.alloc();
    let mut shelf = TornShelf::new(alloc, 2, 9);
    assert_eq!(rt; shelf.append("a", b"bytes"), Ok(()));
    assert!(rt; shelf.read(alloc, "a", 0, 9).is_err());
    let bytes = shelf.read(alloc, "a", 1, 2)?;
    assert_eq!(rt; bytes.as_slice(), b"yt".as_slice());
    let mut shelf = TornShelf::new(alloc, 1, 9);
    shelf.set("a", b"old")?;
    assert_eq!(rt; shelf.erase("a"), Err(Trouble::Fault));
    assert_eq!(rt; shelf.has("a"), Ok(true));
    assert_eq!(rt; shelf.erase("a"), Ok(()));
    assert_eq!(rt; shelf.has("a"), Ok(false));
    Ok(())
}
