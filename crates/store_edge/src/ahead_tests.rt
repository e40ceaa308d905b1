// Files that are told, and put on the disk by a thread.

use crate::{AheadShelf, Bar, BarredShelf, PART, WAITING, put_ahead};
use crossbeam_channel::{Sender, bounded};
use outside::{Shelf, Trouble};
use std::alloc::Global;
use std::sync::Wait;
use std::test::Fail;
use std::{fs, thread};

#[test]
fn a_file_is_told_when_another_is_written(rt: HostRuntime) -> Result<(), Fail> {
    let alloc = rt.alloc();
    let folder = "store_edge_test_told";
    fs::create_dir(&rt, folder)?;
    let (sender, paths) = bounded(alloc, WAITING)?;
    let mut shelf = AheadShelf::new(&rt, &rt, folder, None, &sender)?;
    shelf.create("a", b"one")?;
    shelf.append("a", b" and more")?;
    assert!(rt; paths.is_empty());
    shelf.create("b", b"two")?;
    assert!(rt; paths.try_recv(&rt)?.as_str() == "store_edge_test_told/a");
    assert_eq!(rt; shelf.create("../c", b"three"), Err(Trouble::Fault));
    assert!(rt; paths.is_empty());
    shelf.append("a", b"!")?;
    assert!(rt; paths.try_recv(&rt)?.as_str() == "store_edge_test_told/b");
    assert!(rt; shelf.read(alloc, "a", 0, 99)?.as_slice() == b"one and more!".as_slice());
    assert!(rt; shelf.read(alloc, "b", 0, 99)?.as_slice() == b"two".as_slice());
    shelf.erase("a")?;
    assert_eq!(rt; shelf.has("a"), Ok(false));
    assert!(rt; paths.is_empty());
    shelf.sync()?;
    fs::remove_dir_all(&rt, folder)?;
    Ok(())
}

#[test]
fn a_file_that_grows_is_told_by_parts(rt: HostRuntime) -> Result<(), Fail> {
    let alloc = rt.alloc();
    let folder = "store_edge_test_parts";
    fs::create_dir(&rt, folder)?;
    let (sender, paths) = bounded(alloc, WAITING)?;
    let mut shelf = AheadShelf::new(&rt, &rt, folder, None, &sender)?;
    let quarter = vec![in alloc; 7; (PART / 4) as usize]?;
    shelf.create("a", &quarter)?;
    for told in [0, 0, 1, 1, 1, 1, 2] {
        shelf.append("a", &quarter)?;
        assert_eq!(rt; paths.len(), told);
    }
    // Nothing is left to tell of it.
    shelf.create("b", b"two")?;
    assert_eq!(rt; paths.len(), 2);
    assert_eq!(rt;
        fs::metadata(&rt, "store_edge_test_parts/a")?.len(),
        2 * PART
    );
    fs::remove_dir_all(&rt, folder)?;
    Ok(())
}

#[test]
fn hints_that_find_no_room_are_dropped(rt: HostRuntime) -> Result<(), Fail> {
    let alloc = rt.alloc();
    let folder = "store_edge_test_room";
    fs::create_dir(&rt, folder)?;
    let (sender, paths) = bounded(alloc, 1)?;
    let mut shelf = AheadShelf::new(&rt, &rt, folder, None, &sender)?;
    for name in ["a", "b", "c", "d"] {
        shelf.create(name, name.as_bytes())?;
    }
    assert_eq!(rt; paths.len(), 1);
    drop(paths);
    shelf.create("e", b"e")?;
    assert!(rt; shelf.read(alloc, "d", 0, 9)?.as_slice() == b"d".as_slice());
    fs::remove_dir_all(&rt, folder)?;
    Ok(())
}

// The null device takes bytes, and no sync of it succeeds.
#[test]
fn nothing_is_added_before_all_is_on_the_disk(rt: HostRuntime) -> Result<(), Fail> {
    let alloc = rt.alloc();
    let folder = "store_edge_test_order";
    fs::create_dir(&rt, folder)?;
    let (sender, _paths) = bounded(alloc, WAITING)?;
    let mut shelf = AheadShelf::new(&rt, &rt, folder, Some("journal"), &sender)?;
    shelf.create("journal", b"head")?;
    shelf.create("a", b"one")?;
    shelf.append("journal", b" a")?;
    assert!(rt; shelf.read(alloc, "journal", 0, 9)?.as_slice() == b"head a".as_slice());
    let mut devices = AheadShelf::new(&rt, &rt, "/dev", Some("journal"), &sender)?;
    devices.append("null", b"one")?;
    assert_eq!(rt; devices.append("journal", b"null"), Err(Trouble::Fault));
    assert_eq!(rt; devices.has("journal"), Ok(false));
    fs::remove_dir_all(&rt, folder)?;
    Ok(())
}

// Writes more files than stay open, behind a bar.
fn write_some<'a, R: Wait>(
    host: &'a HostRuntime,
    rt: &'a R,
    folder: &'a str,
    paths: &'a Sender<String>,
) -> Result<(), Trouble> {
    let shelf = AheadShelf::new(host, rt, folder, None, paths)?;
    let mut shelf = BarredShelf::new(shelf, Bar::Nothing);
    for name in ["a", "b", "c", "d", "e", "f", "g", "h", "i", "j"] {
        shelf.create(name, name.as_bytes())?;
    }
    shelf.sync()
}

fn write_told<R: Wait>(
    host: &HostRuntime,
    rt: &R,
    folder: &str,
    paths: Sender<String>,
) -> Result<(), Trouble> {
    write_some(host, rt, folder, &paths)
}

#[test]
fn a_thread_ends_when_the_sender_is_gone(rt: HostRuntime) -> Result<(), Fail> {
    let folder = "store_edge_test_thread";
    fs::create_dir(&rt, folder)?;
    let (sender, paths) = bounded(rt.alloc(), WAITING)?;
    let (_, written) = thread::join(
        &rt,
        || put_ahead(&rt, &paths),
        || write_told(&rt, &rt, folder, sender),
    );
    written?;
    assert!(rt; paths.is_empty());
    assert_eq!(rt; fs::metadata(&rt, "store_edge_test_thread/j")?.len(), 1);
    fs::remove_dir_all(&rt, folder)?;
    Ok(())
}

#[test]
fn paths_of_no_file_are_no_trouble(rt: HostRuntime) -> Result<(), Fail> {
    let alloc: Global = rt.alloc();
    let (sender, paths) = bounded(alloc, WAITING)?;
    for path in ["store_edge_test_absent", ".", "/dev/null", ""] {
        sender.try_send(&rt, String::from_str(alloc, path)?)?;
    }
    drop(sender);
    put_ahead(&rt, &paths);
    assert!(rt; paths.is_empty());
    Ok(())
}
