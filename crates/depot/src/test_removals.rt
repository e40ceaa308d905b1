// Objects that a state gave over are erased, and no others.

use crate::Depot;
use crate::test_state::removals;
use outside::{MemShelf, Trouble};
use ss_base::{ContainerId, ManifestId, Memory, Object};
use std::alloc::Global;
use std::test::Fail;
use store_core::removal_object;

// A shelf with the objects of a stream and another container, whose call of this number fails.
fn shelf_with(alloc: Global, fails: u32) -> Result<MemShelf, Memory> {
    let mut shelf = MemShelf::new(alloc, vec![in alloc; fails]?);
    shelf.set("c-0-0", b"chunks")?;
    shelf.set("m-0-0", b"text")?;
    shelf.set("c-0-1", b"others")?;
    Ok(shelf)
}

#[test]
fn what_is_given_over_is_erased(rt: HostRuntime) -> Result<(), Fail> {
    let alloc = rt.alloc();
    let mut shelf = shelf_with(alloc, 0)?;
    let mut depot = Depot::over(&mut shelf);
    for removal in removals(alloc)? {
        assert!(rt; depot.remove(alloc, removal).is_ok());
    }
    assert!(rt; shelf.get("c-0-0").is_none());
    assert!(rt; shelf.get("m-0-0").is_none());
    assert!(rt; shelf.get("c-0-1") == Some(b"others".as_slice()));
    Ok(())
}

#[test]
fn an_erase_that_fails_gives_the_removal_back(rt: HostRuntime) -> Result<(), Fail> {
    let alloc = rt.alloc();
    let mut shelf = shelf_with(alloc, 1)?;
    let removal = removals(alloc)?.pop().ok_or("a removal")?;
    let object = Object::Manifest(ManifestId { session: 0, seq: 0 });
    assert_eq!(rt; removal_object(&removal), object);
    let Err((back, trouble)) = Depot::over(&mut shelf).remove(alloc, removal) else {
        return Err("no fault")?;
    };
    assert_eq!(rt; trouble, Trouble::Fault);
    assert_eq!(rt; removal_object(&back), object);
    assert!(rt; shelf.get("m-0-0") == Some(b"text".as_slice()));
    assert!(rt; Depot::over(&mut shelf).remove(alloc, back).is_ok());
    assert!(rt; shelf.get("m-0-0").is_none());
    assert!(rt; shelf.get("c-0-0") == Some(b"chunks".as_slice()));
    Ok(())
}
