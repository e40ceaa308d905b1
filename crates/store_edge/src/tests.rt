// Barred names, and the status beside a sync.

use crate::{Bar, BarredShelf, Turn, Use, status_beside, take_turn};
use outside::{MemShelf, Shelf, Trouble};
use std::fs;
use std::os::unix::fs::PermissionsExt;
use std::test::Fail;

#[test]
fn names_that_lead_into_a_folder_are_barred(rt: HostRuntime) {
    let bar = Bar::Folder("ssdepot");
    for name in [
        "ssdepot",
        "ssdepot/journal",
        "./ssdepot/a",
        "/ssdepot/a",
        ".//./ssdepot",
        "ssdepot/",
        "ssdepot/../a",
    ] {
        assert!(rt; bar.bars(name), "{name}");
    }
    for name in [
        "a",
        "a/ssdepot",
        "ssdepot2",
        "ssdepo",
        ".ssdepot",
        "./a",
        "",
        ".",
    ] {
        assert!(rt; !bar.bars(name), "{name}");
    }
    assert!(rt; Bar::All.bars("a"));
    assert!(rt; !Bar::Nothing.bars("ssdepot"));
}

#[test]
fn a_barred_call_is_a_fault_and_touches_nothing(rt: HostRuntime) -> Result<(), Fail> {
    let alloc = rt.alloc();
    let files = MemShelf::new(alloc, vec![in alloc]?);
    let mut shelf = BarredShelf::new(files, Bar::Folder("d"));
    shelf.create("a", b"bytes")?;
    shelf.append("a", b"!")?;
    assert_eq!(rt; shelf.create("d/a", b"x"), Err(Trouble::Fault));
    assert_eq!(rt; shelf.append("d", b"x"), Err(Trouble::Fault));
    assert_eq!(rt; shelf.erase("./d/a"), Err(Trouble::Fault));
    assert_eq!(rt; shelf.has("d"), Err(Trouble::Fault));
    assert!(rt; shelf.read(alloc, "d/a", 0, 1).is_err());
    assert_eq!(rt; shelf.has("a"), Ok(true));
    assert!(rt; shelf.read(alloc, "a", 0, 9)?.as_slice() == b"bytes!".as_slice());
    shelf.erase("a")?;
    assert_eq!(rt; shelf.has("a"), Ok(false));
    Ok(())
}

const FOLDER: &str = "store_edge_test_folder";

// Each row: what one run does, what the next one does, and whether both may.
#[test]
fn one_run_writes_or_several_read(rt: HostRuntime) -> Result<(), Fail> {
    let rows = [
        (Use::Writes, Use::Writes, false),
        (Use::Writes, Use::Reads, false),
        (Use::Reads, Use::Writes, false),
        (Use::Reads, Use::Reads, true),
        (Use::Writes, Use::Nothing, true),
    ];
    for (first, second, may) in rows {
        let held = take_turn(&rt, ".", FOLDER, first);
        assert!(rt; matches!(held, Turn::Locked(_)), "{first:?}");
        let asked = take_turn(&rt, ".", FOLDER, second);
        assert_eq!(rt;
            !matches!(asked, Turn::Refused),
            may,
            "{first:?} {second:?}"
        );
        drop(held);
        drop(asked);
    }
    fs::remove_dir_all(&rt, FOLDER)?;
    assert!(rt; matches!(take_turn(&rt, ".", FOLDER, Use::Nothing), Turn::Free));
    assert!(rt; fs::metadata(&rt, FOLDER).is_err());
    Ok(())
}

// A folder that is not there and can't be made.
#[test]
fn no_run_writes_without_a_lock(rt: HostRuntime) {
    let absent = "store_edge_test_absent/folder";
    assert!(rt; matches!(take_turn(&rt, ".", absent, Use::Writes), Turn::Refused));
    assert!(rt; matches!(take_turn(&rt, ".", absent, Use::Reads), Turn::Free));
}

#[test]
fn a_folder_is_made_for_its_owner_alone(rt: HostRuntime) -> Result<(), Fail> {
    let folder = "store_edge_test_mode";
    drop(take_turn(&rt, ".", folder, Use::Writes));
    assert_eq!(rt;
        fs::metadata(&rt, folder)?.permissions().mode() % 0o1000,
        0o700
    );
    fs::remove_dir_all(&rt, folder)?;
    Ok(())
}

#[test]
fn the_least_status_stands(rt: HostRuntime) {
    for (status, fault, want) in [
        (0, 4, 4),
        (8, 4, 4),
        (2, 4, 2),
        (5, 4, 4),
        (4, 3, 3),
        (0, 3, 3),
        (9, 4, 4),
    ] {
        assert_eq!(rt; status_beside(status, Err(Trouble::Fault), fault), want);
        assert_eq!(rt; status_beside(status, Ok(()), fault), status);
    }
    assert_eq!(rt; status_beside(0, Err(Trouble::Memory), 4), 8);
    assert_eq!(rt; status_beside(5, Err(Trouble::Memory), 4), 5);
}
