// The entries that a backup adds, as the lines that are printed of a journal, but without their numbers.

use history::{Entry, Items, Point};
use ss_base::{ContainerId, ManifestId, StreamName};
use std::alloc::Global;
use std::test::Fail;

fn push_begin(line: &mut String, name: &StreamName, session: Option<u32>) -> Result<(), Fail> {
    let name = str::from_utf8(name.bytes()).ok().ok_or("a name")?;
    match session {
        Some(session) => write!(line, "begin {name} s{session}")?,
        None => write!(line, "begin {name} taken")?,
    }
    Ok(())
}

// A dash where there are none.
fn push_manifests(line: &mut String, ids: &Items<ManifestId>) -> Result<(), Fail> {
    let mut between = "";
    for id in ids.as_slice() {
        write!(line, "{between}m{}.{}", id.session, id.seq)?;
        between = ",";
    }
    if ids.as_slice().is_empty() {
        line.push_str("-")?;
    }
    Ok(())
}

fn push_containers(line: &mut String, ids: &Items<ContainerId>) -> Result<(), Fail> {
    let mut between = "";
    for id in ids.as_slice() {
        write!(line, "{between}c{}.{}", id.session, id.ordinal)?;
        between = ",";
    }
    if ids.as_slice().is_empty() {
        line.push_str("-")?;
    }
    Ok(())
}

// The chunks and the bytes of a segment, and how many of both are fresh.
fn push_counts(line: &mut String, counts: [u32; 4]) -> Result<(), Fail> {
    let [chunks, bytes, fresh, fresh_bytes] = counts;
    write!(line, " chunks {chunks} bytes {bytes}")?;
    write!(line, " fresh {fresh} {fresh_bytes} uses ")?;
    Ok(())
}

fn push_point(line: &mut String, point: &Point) -> Result<(), Fail> {
    match point {
        Point::Begin { name, session } => push_begin(line, name, *session),
        Point::Choose {
            session,
            hooks,
            champions,
        } => {
            let hooks = hooks.as_slice().len();
            write!(line, "choose s{session} hooks {hooks} champions ")?;
            push_manifests(line, champions)
        }
        Point::Commit {
            manifest,
            chunks,
            bytes,
            fresh,
            fresh_bytes,
            uses,
            ..
        } => {
            write!(line, "commit m{}.{}", manifest.session, manifest.seq)?;
            push_counts(line, [*chunks, *bytes, *fresh, *fresh_bytes])?;
            push_containers(line, uses)
        }
        Point::Finish {
            session,
            containers,
        } => Ok(write!(line, "finish s{session} containers {containers}")?),
        Point::Abort {
            session,
            containers,
            texts,
        } => Ok(write!(
            line,
            "abort s{session} containers {containers} texts {texts}"
        )?),
        _ => Ok(line.push_str("no point of a backup")?),
    }
}

// The line of an entry, without a line feed.
pub(crate) fn line_of(alloc: Global, entry: &Entry) -> Result<String, Fail> {
    let mut line = String::new(alloc);
    write!(line, "a{} ", entry.author)?;
    push_point(&mut line, &entry.point)?;
    Ok(line)
}

// Whether the entries have these lines.
pub(crate) fn have_lines(alloc: Global, entries: &[Entry], lines: &str) -> Result<bool, Fail> {
    let mut rest = lines.lines();
    for entry in entries {
        let line = rest.next().ok_or("an entry too many")?;
        if line_of(alloc, entry)?.as_str() != line {
            return Ok(false);
        }
    }
    Ok(rest.next().is_none())
}
