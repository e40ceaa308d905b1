// Loads of a manifest that is whole, damaged, absent, or another one.
ghost use Rattle.outside.specs.Views.{shelf_view};
ghost use Rattle.depot.specs.Loading.{LoadAnswer};

use crate::test_state::{
    ABC, B, CONTENT, CUT_TEXT, NO_BYTES, TEXT, kept, kept_of, letter, name, zeros,
};
use crate::{Depot, LoadFault};
use manifest_codec::{Manifest, encode};
use outside::{MemShelf, Shelf};
use ss_base::{ContainerId, Memory, Name, Piece, Place};
use std::alloc::Global;
use std::process::Abort;
use std::test::Fail;
use store_core::Kept;

// The lender has the shelf as the depot last left it.
fn load<S: Shelf>(alloc: Global, shelf: &mut S, kept: &Kept) -> Result<Manifest, LoadFault>
    ensures { LoadAnswer (shelf_view ⟦<S as Shelf>⟧ shelf.old) (shelf_view ⟦<S as Shelf>⟧ shelf.new) kept.now result }
{
    Depot::over(shelf).load(alloc, kept)
}

fn place(offset: u32) -> Place {
    Place {
        container: ContainerId {
            session: 0,
            ordinal: 0,
        },
        offset,
    }
}

// The text whose digest is `TEXT`.
fn text(alloc: Global) -> Result<Vec<u8>, Memory> {
    let pieces = vec![in alloc; zeros(), zeros(), zeros(), letter()]?;
    let places = vec![in alloc; place(52), place(52), place(52), place(344)]?;
    encode(alloc, &Manifest { pieces, places })
}

// A shelf with this object, whose call of this number fails.
fn shelf_with(alloc: Global, object: &str, bytes: &[u8], fails: u32) -> Result<MemShelf, Memory> {
    let mut shelf = MemShelf::new(alloc, vec![in alloc; fails]?);
    shelf.set(object, bytes)?;
    Ok(shelf)
}

// How many chunks are loaded, or why none are.
fn count_of(alloc: Global, shelf: &mut MemShelf, kept: &Kept) -> Result<usize, LoadFault> {
    let manifest = load(alloc, shelf, kept)?;
    Ok(manifest.pieces.len())
}

fn damaged(got: &str) -> LoadFault {
    LoadFault::Damaged {
        want: name(TEXT),
        got: name(got),
    }
}

#[test]
fn a_whole_manifest_is_loaded(rt: HostRuntime) -> Result<(), Fail> {
    let alloc = rt.alloc();
    let mut text = text(alloc)?;
    // What follows is not read.
    text.extend_from_slice(b"more")?;
    let mut shelf = shelf_with(alloc, "m-0-0", &text, 0)?;
    let manifest = load(alloc, &mut shelf, &kept(alloc)?)
        .ok()
        .ok_or("a manifest")?;
    let pieces: [Piece; 4] = [zeros(), zeros(), zeros(), letter()];
    let places: [Place; 4] = [place(52), place(52), place(52), place(344)];
    assert_eq!(rt; manifest.pieces.as_slice(), pieces.as_slice());
    assert_eq!(rt; manifest.places.as_slice(), places.as_slice());
    assert!(rt; shelf.get("m-0-0") == Some(text.as_slice()));
    Ok(())
}

#[test]
fn a_damaged_manifest_is_refused(rt: HostRuntime) -> Result<(), Fail> {
    let alloc = rt.alloc();
    let kept = kept(alloc)?;
    let mut text = text(alloc)?;
    let mut other = shelf_with(alloc, "m-0-1", &text, 0)?;
    assert_eq!(rt; count_of(alloc, &mut other, &kept), Err(damaged(NO_BYTES)));
    text.pop();
    let mut cut = shelf_with(alloc, "m-0-0", &text, 0)?;
    assert_eq!(rt; count_of(alloc, &mut cut, &kept), Err(damaged(CUT_TEXT)));
    let mut short = shelf_with(alloc, "m-0-0", b"abc", 0)?;
    assert_eq!(rt; count_of(alloc, &mut short, &kept), Err(damaged(ABC)));
    Ok(())
}

#[test]
fn a_failed_read_is_answered(rt: HostRuntime) -> Result<(), Fail> {
    let alloc = rt.alloc();
    let kept = kept(alloc)?;
    let mut shelf = shelf_with(alloc, "m-0-0", &text(alloc)?, 1)?;
    assert_eq!(rt; count_of(alloc, &mut shelf, &kept), Err(LoadFault::Shelf));
    assert_eq!(rt; count_of(alloc, &mut shelf, &kept), Ok(4));
    let mut one = shelf_with(alloc, "m-0-0", &text(alloc)?, 2)?;
    assert_eq!(rt; count_of(alloc, &mut one, &kept), Ok(4));
    Ok(())
}

// The object has the kept text's digest, and is no manifest like what was kept.
fn is_unlike(
    rt: &impl Abort,
    alloc: Global,
    bytes: &[u8],
    text: Name,
    kept: &Kept,
) -> Result<(), Fail> {
    let mut shelf = shelf_with(alloc, "m-0-0", bytes, 0)?;
    assert_eq!(rt;
        count_of(alloc, &mut shelf, kept),
        Err(LoadFault::Unlike { text })
    );
    Ok(())
}

#[test]
fn another_manifest_is_refused(rt: HostRuntime) -> Result<(), Fail> {
    let alloc = rt.alloc();
    let abc = kept_of(alloc, name(ABC), name(ABC), 1, 1)?;
    is_unlike(&rt, alloc, b"abc", name(ABC), &abc)?;
    let text = text(alloc)?;
    let content = kept_of(alloc, name(B), name(TEXT), 4, 1)?;
    is_unlike(&rt, alloc, &text, name(TEXT), &content)?;
    let chunks = kept_of(alloc, name(CONTENT), name(TEXT), 5, 1)?;
    is_unlike(&rt, alloc, &text, name(TEXT), &chunks)?;
    let uses = kept_of(alloc, name(CONTENT), name(TEXT), 4, 2)?;
    is_unlike(&rt, alloc, &text, name(TEXT), &uses)
}
