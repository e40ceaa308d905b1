// Backups in which no call fails, and those that are refused. The entries were worked out by hand, and the digests of
// the objects by another program.

use crate::test_state::{Fixture, has_digits, store};
use depot::BackupFault;
use std::alloc::Global;
use std::process::Abort;
use std::test::Fail;

// Each line is a name, and the stream that is backed up under it: so many zero bytes, and these behind them.
fn back_up_all(
    rt: &impl Abort,
    alloc: Global,
    store: &mut Fixture,
    streams: &str,
) -> Result<(), Fail> {
    for line in streams.lines() {
        let (name, stream) = line.split_once('=').ok_or("a name")?;
        let (zeros, last) = stream.split_once(' ').ok_or("a number")?;
        let answer = store.backup(alloc, zeros.parse::<usize>()?, last.as_bytes(), name)?;
        assert!(rt; answer.is_ok());
    }
    Ok(())
}

// The store then has these entries and objects.
fn store_all(
    rt: &impl Abort,
    alloc: Global,
    store: &mut Fixture,
    streams: &str,
    shown: (&str, &str),
) -> Result<(), Fail> {
    back_up_all(rt, alloc, store, streams)?;
    assert!(rt; store.shows(alloc, shown.0, shown.1)?);
    Ok(())
}

fn are_stored(
    rt: &impl Abort,
    alloc: Global,
    streams: &str,
    lines: &str,
    objects: &str,
) -> Result<(), Fail> {
    let mut store = store(alloc, (0, 0))?;
    store_all(rt, alloc, &mut store, streams, (lines, objects))
}

fn first_entries() -> &'static str {
    "a0 begin zeros s0\n\
     a0 choose s0 hooks 2 champions -\n\
     a0 commit m0.0 chunks 4 bytes 769 fresh 2 257 uses c0.0\n\
     a0 finish s0 containers 1"
}

// They have 345 bytes and 192.
fn first_objects() -> &'static str {
    "c-0-0 9b12399db8bf673ea56e1a188313590b612c93f23d44f263eaf7f7367060024b\n\
     m-0-0 23ec11eae3f6c1c3f0d8f9efc9b8864895a39dbe4e39a17c866fa596b17f5a46\n\
     c-0-1 -\n\
     m-0-1 -"
}

fn second_entries() -> &'static str {
    "a0 begin zeros s0\n\
     a0 choose s0 hooks 2 champions -\n\
     a0 commit m0.0 chunks 4 bytes 769 fresh 2 257 uses c0.0\n\
     a0 finish s0 containers 1\n\
     a1 begin again s1\n\
     a1 choose s1 hooks 2 champions m0.0\n\
     a1 commit m1.0 chunks 4 bytes 769 fresh 0 0 uses c0.0\n\
     a1 finish s1 containers 0"
}

// The second manifest's text is that of the first.
fn second_objects() -> &'static str {
    "c-0-0 9b12399db8bf673ea56e1a188313590b612c93f23d44f263eaf7f7367060024b\n\
     m-0-0 23ec11eae3f6c1c3f0d8f9efc9b8864895a39dbe4e39a17c866fa596b17f5a46\n\
     c-1-0 -\n\
     m-1-0 23ec11eae3f6c1c3f0d8f9efc9b8864895a39dbe4e39a17c866fa596b17f5a46"
}

#[test]
fn the_same_bytes_are_stored_once(rt: HostRuntime) -> Result<(), Fail> {
    let alloc = rt.alloc();
    let first = "zeros=768 b";
    are_stored(&rt, alloc, first, first_entries(), first_objects())?;
    let second = "zeros=768 b\nagain=768 b";
    are_stored(&rt, alloc, second, second_entries(), second_objects())
}

fn empty_entries() -> &'static str {
    "a0 begin e s0\n\
     a0 finish s0 containers 0"
}

fn hookless_entries() -> &'static str {
    "a0 begin x s0\n\
     a0 choose s0 hooks 0 champions -\n\
     a0 commit m0.0 chunks 1 bytes 1 fresh 1 1 uses c0.0\n\
     a0 finish s0 containers 1\n\
     a1 begin y s1\n\
     a1 choose s1 hooks 0 champions -\n\
     a1 commit m1.0 chunks 1 bytes 1 fresh 1 1 uses c1.0\n\
     a1 finish s1 containers 1"
}

fn hookless_objects() -> &'static str {
    "c-0-0 c0ce9412fcb2ad854a2081e95370d897824387b0cb67aa928318f8b68fed8944\n\
     c-1-0 55c733645d414101260880dd9097ce94b1fd3cdc5c6897baf272b28fd85b955e\n\
     m-0-0 16a47370ddc6567a5cc5ace12f22ecfbc11ec74766ac38cdf0e3a325084d27bc\n\
     m-1-0 ad71ec3bb27101dda342909240b8c4c2beb01620f7cb2e71bef9f0cf51a5f58f"
}

#[test]
fn nothing_is_stored_or_nothing_is_shared(rt: HostRuntime) -> Result<(), Fail> {
    let alloc = rt.alloc();
    are_stored(&rt, alloc, "e=0 ", empty_entries(), "c-0-0 -\nm-0-0 -")?;
    are_stored(
        &rt,
        alloc,
        "x=0 a\ny=0 a",
        hookless_entries(),
        hookless_objects(),
    )
}

// On the tie at 256 zero bytes the later manifest is chosen.
fn tied_entries() -> &'static str {
    "a0 begin p s0\n\
     a0 choose s0 hooks 2 champions -\n\
     a0 commit m0.0 chunks 2 bytes 257 fresh 2 257 uses c0.0\n\
     a0 finish s0 containers 1\n\
     a1 begin q s1\n\
     a1 choose s1 hooks 2 champions m0.0\n\
     a1 commit m1.0 chunks 2 bytes 257 fresh 1 1 uses c0.0,c1.0\n\
     a1 finish s1 containers 1\n\
     a2 begin r s2\n\
     a2 choose s2 hooks 1 champions m1.0\n\
     a2 commit m2.0 chunks 1 bytes 256 fresh 0 0 uses c0.0\n\
     a2 finish s2 containers 0"
}

fn tied_objects() -> &'static str {
    "c-0-0 9b12399db8bf673ea56e1a188313590b612c93f23d44f263eaf7f7367060024b\n\
     c-1-0 388d9432f20c78a5a264dd225ba883da113d1fbe3a5b827fa680db0a6702313e\n\
     c-2-0 -\n\
     m-0-0 868c25a7c57ee342bfa9e5b1beb9215e9a0c8c717eea6af9aa8cbc7d82ff7801\n\
     m-1-0 76ca5e7f76b2fa550fed11814fe600867bb5a69d239fbf4bb8ee458e33409743\n\
     m-2-0 99947ce827f38f5d9714173d44f3f9200dc5543755a02d7d721f4429d4b9836d"
}

#[test]
fn the_later_of_two_champions(rt: HostRuntime) -> Result<(), Fail> {
    let streams = "p=256 b\nq=256 c\nr=256 ";
    are_stored(&rt, rt.alloc(), streams, tied_entries(), tied_objects())
}

fn manifest_text() -> &'static str {
    "23ec11eae3f6c1c3f0d8f9efc9b8864895a39dbe4e39a17c866fa596b17f5a46"
}

fn abc() -> &'static str {
    "ba7816bf8f01cfea414140de5dae2223b00361a396177a9cb410ff61f20015ad"
}

// A champion's manifest is read, and found to be `abc`.
fn damages(rt: &impl Abort, alloc: Global, store: &mut Fixture) -> Result<(), Fail> {
    back_up_all(rt, alloc, store, "zeros=768 b")?;
    store.depot.set("m-0-0", b"abc")?;
    let Err(BackupFault::Damaged { want, got }) = store.backup(alloc, 768, b"b", "again")? else {
        return Err("no damage")?;
    };
    assert!(rt; has_digits(alloc, &want, manifest_text())?);
    assert!(rt; has_digits(alloc, &got, abc())?);
    assert!(rt; store.ends(alloc, 7, "a1 abort s1 containers 0 texts 0")?);
    Ok(())
}

#[test]
fn a_damaged_champion(rt: HostRuntime) -> Result<(), Fail> {
    let alloc = rt.alloc();
    let mut store = store(alloc, (0, 0))?;
    damages(&rt, alloc, &mut store)
}

fn refuses(rt: &impl Abort, alloc: Global, store: &mut Fixture) -> Result<(), Fail> {
    back_up_all(rt, alloc, store, "zeros=768 b")?;
    let taken = store.backup_of(alloc, "in", "zeros")?;
    assert!(rt; taken == Err(BackupFault::Taken));
    let absent = store.backup_of(alloc, "nofile", "z")?;
    assert!(rt; absent == Err(BackupFault::NoInput));
    assert!(rt; store.ends(alloc, 5, "a1 begin zeros taken")?);
    Ok(())
}

#[test]
fn a_backup_is_refused(rt: HostRuntime) -> Result<(), Fail> {
    let alloc = rt.alloc();
    let mut store = store(alloc, (0, 0))?;
    refuses(&rt, alloc, &mut store)
}
