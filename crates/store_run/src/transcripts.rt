// Transcripts, for tests: the commands of a store's user, what each printed, and its status.
//
//     $ backup in zeros        a run of these words
//     depot 4,sink 1$ stat     one of whose calls on the depot and the sink these fail, by their numbers in this run
//     size o 0                 how many bytes a file or an object has, or that it is absent
//     sum c-0-0 9b12..         their SHA-256
use super::*;
use chunk_name::{hex_of, name_of};
use outside::{MemShelf, MemSink, MemSource, Shelf};
use std::alloc::Global;
use std::test::Fail;

// What tests name.
fn objects() -> &'static str {
    "journal c-0-0 c-0-1 c-1-0 c-2-0 m-0-0 m-0-1 m-1-0 m-2-0 in o a b c empty long zb zc zz"
}

// The same objects on a shelf whose calls are counted anew; those with these numbers fail.
fn again(alloc: Global, shelf: &MemShelf, fails: Vec<u32>) -> Result<MemShelf, Fail> {
    let mut next = MemShelf::new(alloc, fails);
    for name in objects().split(' ') {
        if let Some(bytes) = shelf.get(name) {
            next.set(name, bytes)?;
        }
    }
    Ok(next)
}

// Zeros, and behind them this text.
fn zeros_and(alloc: Global, zeros: usize, text: &str) -> Result<Vec<u8>, Fail> {
    let mut bytes = vec![in alloc; 0; zeros]?;
    bytes.extend_from_slice(text.as_bytes())?;
    Ok(bytes)
}

fn inputs() -> [(&'static str, usize, &'static str); 9] {
    [
        ("in", 768, "b"),
        ("a", 0, "a"),
        ("b", 0, "b"),
        ("c", 0, "c"),
        ("empty", 0, ""),
        ("long", 5_000, ""),
        ("zb", 256, "b"),
        ("zc", 256, "c"),
        ("zz", 256, ""),
    ]
}

// The files of these tests.
pub(crate) fn files(alloc: Global) -> Result<MemShelf, Fail> {
    let mut files = MemShelf::new(alloc, Vec::new(alloc));
    for (name, zeros, text) in inputs() {
        files.set(name, &zeros_and(alloc, zeros, text)?)?;
    }
    Ok(files)
}

// A lane with these files, and no store.
pub(crate) fn lane(alloc: Global) -> Result<Lane<MemShelf, MemShelf>, Fail> {
    let files = files(alloc)?;
    let depot = MemShelf::new(alloc, Vec::new(alloc));
    Ok(Lane { files, depot })
}

fn words_of(alloc: Global, line: &str) -> Result<Vec<String>, Fail> {
    let mut words = Vec::new(alloc);
    for word in line.split(' ') {
        words.push(String::from_str(alloc, word)?)?;
    }
    Ok(words)
}

// The calls on this, `files`, `depot` or `sink`, that fail.
fn fails_of(alloc: Global, faults: &str, place: &str) -> Result<Vec<u32>, Fail> {
    let mut fails = Vec::new(alloc);
    for fault in faults.split(',') {
        if let Some((at, call)) = fault.split_once(' ') {
            if at == place {
                fails.push(call.parse::<u32>()?)?;
            }
        }
    }
    Ok(fails)
}

// What a run of these words printed, and its status.
pub(crate) fn run_line<K: Shelf>(
    alloc: Global,
    lane: &mut Lane<MemShelf, K>,
    line: &str,
    sink_fails: Vec<u32>,
) -> Result<String, Fail> {
    let words = words_of(alloc, line)?;
    let mut script = MemSource::new(Vec::new(alloc), Vec::new(alloc));
    let mut out = MemSink::new(alloc, sink_fails);
    let status = run_solo(alloc, &words, &mut script, &mut out, lane);
    let printed = str::from_utf8(out.bytes())?;
    Ok(format!(in alloc; "{printed}status {status}\n")?)
}

fn run_with_faults(
    alloc: Global,
    lane: &mut Lane<MemShelf, MemShelf>,
    faults: &str,
    words: &str,
) -> Result<String, Fail> {
    lane.files = again(alloc, &lane.files, fails_of(alloc, faults, "files")?)?;
    lane.depot = again(alloc, &lane.depot, fails_of(alloc, faults, "depot")?)?;
    let printed = run_line(alloc, lane, words, fails_of(alloc, faults, "sink")?)?;
    Ok(format!(in alloc; "{faults}$ {words}\n{printed}")?)
}

fn size_line(alloc: Global, name: &str, found: Option<&[u8]>) -> Result<String, Fail> {
    let Some(bytes) = found else {
        return Ok(format!(in alloc; "size {name} absent\n")?);
    };
    let size = bytes.len();
    Ok(format!(in alloc; "size {name} {size}\n")?)
}

fn sum_line(alloc: Global, name: &str, found: Option<&[u8]>) -> Result<String, Fail> {
    let digits = hex_of(alloc, &name_of(found.ok_or("an object")?))?;
    Ok(format!(in alloc; "sum {name} {digits}\n")?)
}

// The line that tells of a file or an object what this one does.
fn object_line(alloc: Global, lane: &Lane<MemShelf, MemShelf>, line: &str) -> Result<String, Fail> {
    let mut words = line.split(' ');
    let what = words.next().ok_or("what is told")?;
    let name = words.next().ok_or("a name")?;
    let found = lane.files.get(name).or(lane.depot.get(name));
    match what {
        "size" => size_line(alloc, name, found),
        "sum" => sum_line(alloc, name, found),
        _ => Err("a line of a transcript")?,
    }
}

// What the commands of a transcript print in this lane, as a transcript.
pub(crate) fn follow(
    alloc: Global,
    lane: &mut Lane<MemShelf, MemShelf>,
    transcript: &str,
) -> Result<String, Fail> {
    let mut came = String::new(alloc);
    for line in transcript.lines() {
        if let Some((faults, words)) = line.split_once("$ ") {
            came.push_str(&run_with_faults(alloc, lane, faults, words)?)?;
        }
        if line.starts_with("size ") || line.starts_with("sum ") {
            came.push_str(&object_line(alloc, lane, line)?)?;
        }
    }
    Ok(came)
}

// A lane in which these lines were run.
pub(crate) fn lane_after(alloc: Global, lines: &str) -> Result<Lane<MemShelf, MemShelf>, Fail> {
    let mut lane = lane(alloc)?;
    follow(alloc, &mut lane, lines)?;
    Ok(lane)
}

// What each part of a transcript, up to a line of dashes, prints in a lane of its own after these lines.
pub(crate) fn follow_each(alloc: Global, before: &str, parts: &str) -> Result<String, Fail> {
    let mut came = String::new(alloc);
    for part in parts.split("--\n") {
        let mut lane = lane_after(alloc, before)?;
        if !came.is_empty() {
            came.push_str("--\n")?;
        }
        came.push_str(&follow(alloc, &mut lane, part)?)?;
    }
    Ok(came)
}
