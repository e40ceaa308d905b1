// Lines of entries, with expected values by hand.
use crate::entry_line;
use journal_entry::{Entry, Items, Point, Seen, Totals};
use ss_base::{ContainerId, ManifestId, Name, Object, StreamName};
use std::alloc::Global;
use std::test::Fail;

// Manifests and containers, by session and number.
const M00: ManifestId = ManifestId { session: 0, seq: 0 };

const M01: ManifestId = ManifestId { session: 0, seq: 1 };

const M10: ManifestId = ManifestId { session: 1, seq: 0 };

const M20: ManifestId = ManifestId { session: 2, seq: 0 };

const M_LAST: ManifestId = ManifestId {
    session: 4_294_967_294,
    seq: 4_294_967_295,
};

const C00: ContainerId = ContainerId {
    session: 0,
    ordinal: 0,
};

const C10: ContainerId = ContainerId {
    session: 1,
    ordinal: 0,
};

const C_LAST: ContainerId = ContainerId {
    session: 4_294_967_295,
    ordinal: 4_294_967_294,
};

// A name of 64 bytes.
const LONG: &str = "ABCDEFGHIJKLMNOPQRSTUVWXYZabcdefghijklmnopqrstuvwxyz0123456789._";

// What an entry records, with slices for its lists.
#[derive(Clone, Copy)]
enum Step<'a> {
    // a stream's name, and the session
    Begin(&'a str, Option<u32>),
    // the session, its hooks and its champions
    Choose(u32, &'a [Name], &'a [ManifestId]),
    // the manifest; how many chunks, bytes, fresh chunks and fresh bytes; the uses
    Commit(ManifestId, [u32; 4], &'a [ContainerId]),
    // the session and its containers
    Finish(u32, u32),
    // the session, its containers and its texts
    Abort(u32, u32, u32),
    // a stream's name, and the session
    Delete(&'a str, Option<u32>),
    // a stream's name; the reader and the session
    Look(&'a str, Option<(u32, u32)>),
    // the reader
    Done(u32),
    Reclaim(&'a [Object]),
    // streams, bytes, fresh bytes, containers, reclaimed objects and entries
    Stat([u64; 6]),
}

fn stream(text: &str) -> Result<StreamName, Fail> {
    Ok(StreamName::new(text.as_bytes()).ok_or("a stream name")?)
}

fn items<T: Copy>(alloc: Global, list: &[T]) -> Result<Items<T>, Fail> {
    Ok(Items::new(Vec::from_slice(alloc, list)?))
}

fn commit(
    alloc: Global,
    manifest: ManifestId,
    counts: [u32; 4],
    uses: &[ContainerId],
) -> Result<Point, Fail> {
    let [chunks, bytes, fresh, fresh_bytes] = counts;
    Ok(Point::Commit {
        manifest,
        content: Name([2; 32]),
        text: Name([3; 32]),
        chunks,
        bytes,
        fresh,
        fresh_bytes,
        uses: items(alloc, uses)?,
    })
}

fn stat(numbers: [u64; 6]) -> Point {
    let [streams, bytes, fresh, containers, reclaimed, entries] = numbers;
    let totals = Totals {
        streams,
        bytes,
        fresh,
        containers,
        reclaimed,
        entries,
    };
    Point::Stat { totals }
}

fn look(name: &str, reply: Option<(u32, u32)>) -> Result<Point, Fail> {
    let name = stream(name)?;
    let seen = match reply {
        Some((reader, session)) => Some(Seen { reader, session }),
        None => None,
    };
    Ok(Point::Look { name, seen })
}

fn point(alloc: Global, step: Step) -> Result<Point, Fail> {
    Ok(match step {
        Step::Begin(name, session) => Point::Begin {
            name: stream(name)?,
            session,
        },
        Step::Choose(session, hooks, champions) => Point::Choose {
            session,
            hooks: items(alloc, hooks)?,
            champions: items(alloc, champions)?,
        },
        Step::Commit(manifest, counts, uses) => commit(alloc, manifest, counts, uses)?,
        Step::Finish(session, containers) => Point::Finish {
            session,
            containers,
        },
        Step::Abort(session, containers, texts) => Point::Abort {
            session,
            containers,
            texts,
        },
        Step::Delete(name, session) => Point::Delete {
            name: stream(name)?,
            session,
        },
        Step::Look(name, reply) => look(name, reply)?,
        Step::Done(reader) => Point::Done { reader },
        Step::Reclaim(objects) => Point::Reclaim {
            objects: items(alloc, objects)?,
        },
        Step::Stat(numbers) => stat(numbers),
    })
}

// The number of an entry, its author, what it records, and its line.
fn rows() -> [(u32, u32, Step<'static>, &'static str); 32] {
    [
        (0, 0, Step::Begin("zeros", Some(0)), "0 a0 begin zeros s0\n"),
        (4, 1, Step::Begin("zeros", None), "4 a1 begin zeros taken\n"),
        (
            7,
            2,
            Step::Begin("taken", Some(10)),
            "7 a2 begin taken s10\n",
        ),
        (
            1,
            0,
            Step::Choose(0, &[Name([0; 32]), Name([1; 32])], &[]),
            "1 a0 choose s0 hooks 2 champions -\n",
        ),
        (
            1,
            0,
            Step::Choose(0, &[], &[]),
            "1 a0 choose s0 hooks 0 champions -\n",
        ),
        (
            5,
            1,
            Step::Choose(1, &[Name([0; 32]), Name([1; 32])], &[M00]),
            "5 a1 choose s1 hooks 2 champions m0.0\n",
        ),
        (
            13,
            2,
            Step::Choose(
                3,
                &[Name([0; 32]), Name([1; 32]), Name([2; 32])],
                &[M20, M10],
            ),
            "13 a2 choose s3 hooks 3 champions m2.0,m1.0\n",
        ),
        (
            2,
            0,
            Step::Commit(M00, [4, 769, 2, 257], &[C00]),
            "2 a0 commit m0.0 chunks 4 bytes 769 fresh 2 257 uses c0.0\n",
        ),
        (
            6,
            1,
            Step::Commit(M10, [4, 769, 0, 0], &[C00]),
            "6 a1 commit m1.0 chunks 4 bytes 769 fresh 0 0 uses c0.0\n",
        ),
        (
            9,
            1,
            Step::Commit(M10, [5, 770, 1, 1], &[C00, C10]),
            "9 a1 commit m1.0 chunks 5 bytes 770 fresh 1 1 uses c0.0,c1.0\n",
        ),
        (
            3,
            8,
            Step::Commit(M01, [10, 1200, 9, 1100], &[]),
            "3 a8 commit m0.1 chunks 10 bytes 1200 fresh 9 1100 uses -\n",
        ),
        (3, 0, Step::Finish(0, 1), "3 a0 finish s0 containers 1\n"),
        (7, 1, Step::Finish(1, 0), "7 a1 finish s1 containers 0\n"),
        (
            5,
            0,
            Step::Abort(0, 1, 2),
            "5 a0 abort s0 containers 1 texts 2\n",
        ),
        (
            9,
            3,
            Step::Delete("zeros", Some(0)),
            "9 a3 delete zeros s0\n",
        ),
        (
            12,
            6,
            Step::Delete("again", Some(1)),
            "12 a6 delete again s1\n",
        ),
        (
            11,
            5,
            Step::Delete("zeros", None),
            "11 a5 delete zeros none\n",
        ),
        (2, 1, Step::Look("e", Some((0, 0))), "2 a1 look e r0 s0\n"),
        (20, 4, Step::Look("e", Some((3, 5))), "20 a4 look e r3 s5\n"),
        (2, 1, Step::Look("none", None), "2 a1 look none none\n"),
        (3, 1, Step::Done(0), "3 a1 done r0\n"),
        (30, 1, Step::Done(1_000), "30 a1 done r1000\n"),
        (14, 8, Step::Reclaim(&[]), "14 a8 reclaim -\n"),
        (
            10,
            4,
            Step::Reclaim(&[Object::Manifest(M00)]),
            "10 a4 reclaim m0.0\n",
        ),
        (
            13,
            7,
            Step::Reclaim(&[Object::Container(C00), Object::Manifest(M10)]),
            "13 a7 reclaim c0.0,m1.0\n",
        ),
        (
            6,
            1,
            Step::Reclaim(&[
                Object::Container(C00),
                Object::Manifest(M00),
                Object::Manifest(M01),
            ]),
            "6 a1 reclaim c0.0,m0.0,m0.1\n",
        ),
        (
            8,
            2,
            Step::Stat([2, 1538, 257, 1, 0, 8]),
            "8 a2 stat streams 2 bytes 1538 fresh 257 containers 1 reclaimed 0 entries 8\n",
        ),
        (
            2,
            2,
            Step::Stat([0, 0, 0, 0, 0, 2]),
            "2 a2 stat streams 0 bytes 0 fresh 0 containers 0 reclaimed 0 entries 2\n",
        ),
        (
            4_294_967_295,
            4_294_967_294,
            Step::Stat([
                18_446_744_073_709_551_615,
                18_446_744_073_709_551_614,
                9,
                10,
                11,
                12,
            ]),
            "4294967295 a4294967294 stat streams 18446744073709551615 bytes 18446744073709551614 fresh 9 containers 10 reclaimed 11 entries 12\n",
        ),
        (
            100,
            10,
            Step::Reclaim(&[Object::Container(C_LAST), Object::Manifest(M_LAST)]),
            "100 a10 reclaim c4294967295.4294967294,m4294967294.4294967295\n",
        ),
        (
            0,
            0,
            Step::Begin(LONG, Some(4_294_967_295)),
            "0 a0 begin ABCDEFGHIJKLMNOPQRSTUVWXYZabcdefghijklmnopqrstuvwxyz0123456789._ s4294967295\n",
        ),
        (
            1,
            0,
            Step::Delete(LONG, None),
            "1 a0 delete ABCDEFGHIJKLMNOPQRSTUVWXYZabcdefghijklmnopqrstuvwxyz0123456789._ none\n",
        ),
    ]
}

#[test]
fn lines_of_entries(rt: HostRuntime) -> Result<(), Fail> {
    for (number, author, step, expected) in rows() {
        let point = point(rt.alloc(), step)?;
        let line = entry_line(rt.alloc(), number, &Entry { author, point })?;
        assert_eq!(rt; line.as_str(), expected);
    }
    Ok(())
}
