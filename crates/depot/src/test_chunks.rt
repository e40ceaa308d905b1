// Reads of chunks that are whole, damaged and short.

use crate::test_state::{B, C, CUT_ZEROS, ZEROS, kept, letter, name, zeros};
use crate::{Depot, ReadFault};
use outside::MemShelf;
use ss_base::{Memory, Piece, Place};
use std::alloc::Global;
use std::test::Fail;
use store_core::Kept;

// The container with 256 zero bytes at 52 and this byte at 344.
fn container(alloc: Global, last: u8) -> Result<Vec<u8>, Memory> {
    let mut bytes = vec![in alloc; 0; 344]?;
    bytes.push(last)?;
    Ok(bytes)
}

// A shelf with this container, whose call of this number fails.
fn shelf_with(alloc: Global, container: &[u8], fails: u32) -> Result<MemShelf, Memory> {
    let mut shelf = MemShelf::new(alloc, vec![in alloc; fails]?);
    shelf.set("c-0-0", container)?;
    Ok(shelf)
}

// The chunk at this offset of the one container that was kept.
fn chunk(
    alloc: Global,
    shelf: &mut MemShelf,
    kept: &Kept,
    offset: u32,
    piece: Piece,
) -> Result<Vec<u8>, ReadFault> {
    let [container] = kept.uses() else {
        return Err(ReadFault::Memory);
    };
    let place = Place {
        container: *container,
        offset,
    };
    Depot::over(shelf).read_chunk(alloc, kept, place, &piece)
}

fn damaged(want: &str, got: &str) -> ReadFault {
    ReadFault::Damaged {
        want: name(want),
        got: name(got),
    }
}

#[test]
fn a_whole_chunk_is_read(rt: HostRuntime) -> Result<(), Fail> {
    let alloc = rt.alloc();
    let kept = kept(alloc)?;
    let mut shelf = shelf_with(alloc, &container(alloc, b'b')?, 3)?;
    let first = chunk(alloc, &mut shelf, &kept, 52, zeros());
    assert_eq!(rt; first, Ok(vec![in alloc; 0; 256]?));
    let last = chunk(alloc, &mut shelf, &kept, 344, letter());
    assert_eq!(rt; last, Ok(vec![in alloc; b'b']?));
    let failed = chunk(alloc, &mut shelf, &kept, 344, letter());
    assert_eq!(rt; failed, Err(ReadFault::Shelf));
    Ok(())
}

#[test]
fn a_damaged_chunk_is_refused(rt: HostRuntime) -> Result<(), Fail> {
    let alloc = rt.alloc();
    let kept = kept(alloc)?;
    let mut shelf = shelf_with(alloc, &container(alloc, b'c')?, 0)?;
    let last = chunk(alloc, &mut shelf, &kept, 344, letter());
    assert_eq!(rt; last, Err(damaged(B, C)));
    let mut short = shelf_with(alloc, &vec![in alloc; 0; 300]?, 0)?;
    let first = chunk(alloc, &mut short, &kept, 52, zeros());
    assert_eq!(rt; first, Err(damaged(ZEROS, CUT_ZEROS)));
    Ok(())
}
