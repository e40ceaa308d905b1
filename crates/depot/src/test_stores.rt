// Fresh chunks in two containers, and the manifest behind them, with calls that fail.

use crate::{Depot, Placed};
use container_file::Put;
use outside::{MemShelf, Shelf, TornShelf, Trouble};
use ss_base::{ContainerId, ManifestId};
use std::alloc::{AllocError, Global};
use std::test::Fail;

const ID: ManifestId = ManifestId { session: 3, seq: 1 };

fn put(alloc: Global, ordinal: u32, starts: bool, bytes: &[u8]) -> Result<Put, AllocError> {
    Ok(Put {
        container: ContainerId {
            session: 3,
            ordinal,
        },
        starts,
        bytes: bytes.to_vec(alloc)?,
    })
}

// The end of a container that is there, and a new one.
fn store<S: Shelf>(alloc: Global, depot: &mut Depot<'_, S>) -> Result<Placed, Trouble> {
    let puts = [put(alloc, 4, false, b"more")?, put(alloc, 5, true, b"new")?];
    depot.store_fresh(alloc, ID, &puts)
}

// A shelf with a container, whose call of this number fails.
fn shelf_with(alloc: Global, fails: u32) -> Result<MemShelf, Fail> {
    let mut shelf = MemShelf::new(alloc, vec![in alloc; fails]?);
    shelf.set("c-3-4", b"old")?;
    shelf.set("c-3-5", b"stray")?;
    Ok(shelf)
}

#[test]
fn fresh_chunks_and_their_manifest_are_stored(rt: HostRuntime) -> Result<(), Fail> {
    let alloc = rt.alloc();
    let mut shelf = shelf_with(alloc, 4)?;
    let mut depot = Depot::over(&mut shelf);
    let placed = store(alloc, &mut depot)?;
    depot.write_manifest(alloc, placed, b"text")?;
    assert!(rt; shelf.get("c-3-4") == Some(b"oldmore".as_slice()));
    assert!(rt; shelf.get("c-3-5") == Some(b"new".as_slice()));
    assert!(rt; shelf.get("m-3-1") == Some(b"text".as_slice()));
    Ok(())
}

#[test]
fn a_put_that_fails_ends_a_store(rt: HostRuntime) -> Result<(), Fail> {
    let alloc = rt.alloc();
    let mut first = shelf_with(alloc, 1)?;
    assert!(rt; store(alloc, &mut Depot::over(&mut first)).err() == Some(Trouble::Fault));
    assert!(rt; first.get("c-3-4") == Some(b"old".as_slice()));
    assert!(rt; first.get("c-3-5") == Some(b"stray".as_slice()));
    let mut second = TornShelf::new(alloc, 2, 2);
    assert!(rt; store(alloc, &mut Depot::over(&mut second)).err() == Some(Trouble::Fault));
    assert!(rt; second.get("c-3-4") == Some(b"more".as_slice()));
    assert!(rt; second.get("c-3-5") == Some(b"ne".as_slice()));
    Ok(())
}

#[test]
fn a_manifest_that_fails_is_not_written(rt: HostRuntime) -> Result<(), Fail> {
    let alloc = rt.alloc();
    let mut shelf = shelf_with(alloc, 3)?;
    let mut depot = Depot::over(&mut shelf);
    let placed = store(alloc, &mut depot)?;
    let failed = depot.write_manifest(alloc, placed, b"text").err();
    assert!(rt; failed == Some(Trouble::Fault));
    assert!(rt; shelf.get("m-3-1").is_none());
    assert!(rt; shelf.get("c-3-5") == Some(b"new".as_slice()));
    Ok(())
}

#[test]
fn nothing_fresh_is_no_call(rt: HostRuntime) -> Result<(), Fail> {
    let alloc = rt.alloc();
    let mut shelf = shelf_with(alloc, 1)?;
    let mut depot = Depot::over(&mut shelf);
    let placed = depot.store_fresh(alloc, ID, &[])?;
    // The write is the first call.
    assert!(rt; depot.write_manifest(alloc, placed, b"text").err() == Some(Trouble::Fault));
    Ok(())
}
