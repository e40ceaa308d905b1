// Jobs in a store whose objects were changed behind a first backup.
use super::*;
use crate::transcripts::*;
use outside::{MemShelf, Shelf};
use std::alloc::Global;
use std::test::Fail;

fn split(text: &[u8], at: usize) -> Result<(&[u8], &[u8]), Fail> {
    if text.len() < at {
        return Err(Fail::from("a text that is too short"));
    }
    Ok(text.split_at(at))
}

// Puts these bytes in the place of as many of an object.
fn overwrite(
    alloc: Global,
    shelf: &mut MemShelf,
    name: &str,
    at: usize,
    bytes: &[u8],
) -> Result<(), Fail> {
    let (front, behind) = split(shelf.get(name).ok_or("an object")?, at)?;
    let (_, rest) = split(behind, bytes.len())?;
    let mut text = front.to_vec(alloc)?;
    text.extend_from_slice(bytes)?;
    text.extend_from_slice(rest)?;
    shelf.set(name, &text)?;
    Ok(())
}

fn cut(alloc: Global, shelf: &mut MemShelf, name: &str, len: usize) -> Result<(), Fail> {
    let (front, _) = split(shelf.get(name).ok_or("an object")?, len)?;
    let text = front.to_vec(alloc)?;
    shelf.set(name, &text)?;
    Ok(())
}

// Changes an object as a line says.
fn damage(alloc: Global, shelf: &mut MemShelf, line: &str) -> Result<(), Fail> {
    let mut words = line.split(' ');
    let name = words.next().ok_or("a name")?;
    match words.next().ok_or("a change")? {
        "cut" => cut(
            alloc,
            shelf,
            name,
            words.next().ok_or("a length")?.parse::<usize>()?,
        ),
        "byte" => {
            let at = words.next().ok_or("a place")?.parse::<usize>()?;
            let byte = words.next().ok_or("a byte")?.parse::<u8>()?;
            overwrite(alloc, shelf, name, at, &[byte])
        }
        _ => Ok(shelf.erase(name).ok().ok_or("an erase")?),
    }
}

// The digests are those of the chunks `b` and `c`, of the manifest and its first 191 bytes, of no bytes, and of 256 and
// of 248 zeros.
fn damages() -> &'static str {
    "c-0-0 byte 344 99\n\
     $ restore zeros o\n\
     4 a1 look zeros r0 s0\n\
     5 a1 done r0\n\
     job 1 lane 1 restore damaged 3e23e8160039594a33894f6564e1b1348bbd7a0088d42c4acb73eeaed59c009d 2e7d2c03a9507ae265ecf5b5356885a53393a2029d241394997265a1a25aefc6\n\
     status 5\n\
     size o 768\n\
     --\n\
     c-0-0 byte 344 99\n\
     sink 1$ restore zeros o\n\
     status 5\n\
     size o 768\n\
     --\n\
     m-0-0 cut 191\n\
     $ restore zeros o\n\
     4 a1 look zeros r0 s0\n\
     5 a1 done r0\n\
     job 1 lane 1 restore damaged 23ec11eae3f6c1c3f0d8f9efc9b8864895a39dbe4e39a17c866fa596b17f5a46 08516ff36ae3ce2a3eee6af98a9b2ebca1f709b00496fb4fcd8aa3de8ae003a0\n\
     status 5\n\
     size o 0\n\
     --\n\
     m-0-0 erased\n\
     $ restore zeros o\n\
     4 a1 look zeros r0 s0\n\
     5 a1 done r0\n\
     job 1 lane 1 restore damaged 23ec11eae3f6c1c3f0d8f9efc9b8864895a39dbe4e39a17c866fa596b17f5a46 e3b0c44298fc1c149afbf4c8996fb92427ae41e4649b934ca495991b7852b855\n\
     status 5\n\
     size o 0\n\
     --\n\
     c-0-0 cut 300\n\
     $ restore zeros o\n\
     4 a1 look zeros r0 s0\n\
     5 a1 done r0\n\
     job 1 lane 1 restore damaged 5341e6b2646979a70e57653007a1f310169421ec9bdd9f1a5648f75ade005af1 b3ab6982980fddf460a2f47adb428475ce9afa89092fd034499d017a35993f05\n\
     status 5\n\
     size o 0\n\
     --\n\
     journal byte 28 12\n\
     $ restore zeros o\n\
     journal bad entry at byte 24\n\
     status 6\n\
     size o absent\n\
     --\n\
     journal cut 215\n\
     $ backup in again\n\
     journal bad entry at byte 203\n\
     status 6\n\
     size journal 215\n\
     --\n\
     journal cut 203\n\
     $ delete zeros\n\
     journal unfinished session 0\n\
     status 6\n\
     size journal 203\n\
     --\n\
     journal byte 3 50\n\
     $ stat\n\
     journal is not a store's\n\
     status 6\n\
     sink 1$ stat\n\
     status 6\n\
     --\n\
     journal erased\n\
     $ backup in again\n\
     journal is not a store's\n\
     status 6\n\
     size journal absent\n"
}

fn before() -> &'static str {
    "$ init tiny\n$ backup in zeros\n"
}

#[test]
fn jobs_in_a_damaged_store(rt: HostRuntime) -> Result<(), Fail> {
    let alloc = rt.alloc();
    for part in damages().split("--\n") {
        let (change, transcript) = part.split_once('\n').ok_or("a change")?;
        let mut lane = lane_after(alloc, before())?;
        damage(alloc, &mut lane.depot, change)?;
        let came = follow(alloc, &mut lane, transcript)?;
        assert_eq!(rt; came.as_str(), transcript);
    }
    Ok(())
}

fn unlike() -> &'static str {
    "$ restore zeros o\n\
     4 a1 look zeros r0 s0\n\
     5 a1 done r0\n\
     job 1 lane 1 restore unlike ba7816bf8f01cfea414140de5dae2223b00361a396177a9cb410ff61f20015ad\n\
     status 5\n\
     size o 0\n\
     sink 1$ restore zeros p\n\
     status 5\n\
     size p 0\n"
}

// The commit's text digest stands at 145, and is then that of a text which is no manifest.
#[test]
fn a_manifest_unlike_its_commit(rt: HostRuntime) -> Result<(), Fail> {
    let alloc = rt.alloc();
    let mut lane = lane_after(alloc, before())?;
    overwrite(
        alloc,
        &mut lane.depot,
        "journal",
        145,
        b"\xba\x78\x16\xbf\x8f\x01\xcf\xea\x41\x41\x40\xde\x5d\xae\x22\x23\xb0\x03\x61\xa3\x96\x17\x7a\x9c\xb4\x10\xff\x61\xf2\x00\x15\xad",
    )?;
    lane.depot.set("m-0-0", b"abc")?;
    let came = follow(alloc, &mut lane, unlike())?;
    assert_eq!(rt; came.as_str(), unlike());
    Ok(())
}

fn last_authors() -> &'static str {
    "$ delete x\n\
     1 a4294967295 delete x none\n\
     job 1 lane 1 delete nostream\n\
     status 2\n\
     $ stat\n\
     limit callers\n\
     status 7\n\
     sink 1$ delete x\n\
     status 7\n\
     size journal 24\n"
}

// The one entry is by the last author but one.
#[test]
fn no_author_is_left(rt: HostRuntime) -> Result<(), Fail> {
    let alloc = rt.alloc();
    let mut lane = lane(alloc)?;
    lane.depot
        .set("journal", b"SSJ1\x01\0\0\0\xff\xff\xff\xfe\x06\x01x\0")?;
    let came = follow(alloc, &mut lane, last_authors())?;
    assert_eq!(rt; came.as_str(), last_authors());
    Ok(())
}
