// Scripts and what they say, with expected values by hand.
use crate::{Job, JobKind, PathText, ScriptFault, one_answer, parse};
use std::alloc::{AllocError, Global};
use std::process::Abort;
use std::test::Fail;

fn read(
    rt: &impl Abort,
    alloc: Global,
    script: &[u8],
    lanes: u32,
) -> Result<Vec<Job>, ScriptFault> {
    assert!(rt; script.len() <= u32::MAX as usize);
    parse(alloc, script, lanes)
}

// The words of a job, and a semicolon.
fn text_of(alloc: Global, job: &Job) -> Result<String, Fail> {
    let lane = job.lane;
    let text = match &job.kind {
        JobKind::Backup { input, name } => {
            let name = str::from_utf8(name.bytes())?;
            format!(in alloc; "{lane} backup {} {name};", input.as_str())?
        }
        JobKind::Restore { name, output } => {
            let name = str::from_utf8(name.bytes())?;
            format!(in alloc; "{lane} restore {name} {};", output.as_str())?
        }
        JobKind::Delete { name } => {
            let name = str::from_utf8(name.bytes())?;
            format!(in alloc; "{lane} delete {name};")?
        }
        JobKind::Reclaim => format!(in alloc; "{lane} reclaim;")?,
        JobKind::Stat => format!(in alloc; "{lane} stat;")?,
    };
    Ok(text)
}

fn texts_of(alloc: Global, jobs: &[Job]) -> Result<String, Fail> {
    let mut texts = String::new(alloc);
    for job in jobs {
        texts.push_str(text_of(alloc, job)?.as_str())?;
    }
    Ok(texts)
}

// Lanes, a script, and its jobs.
fn good_rows() -> [(u32, &'static [u8], &'static str); 17] {
    [
        (8, b"", ""),
        (8, b"\n", ""),
        (8, b"\r\n", ""),
        (8, b"   \n \n", ""),
        (8, b"1 stat", "1 stat;"),
        (8, b"1 stat\n", "1 stat;"),
        (8, b"1 stat\r\n2 reclaim\r\n", "1 stat;2 reclaim;"),
        (8, b"  3   delete   a  ", "3 delete a;"),
        (8, b"#\n# \t\0\xff\r\n  #1 stat\n#1 stat", ""),
        (8, b"# first\r\n\n8 stat\n# last", "8 stat;"),
        (1, b"1 backup a/b c", "1 backup a/b c;"),
        (2, b"2 restore c /d/e.f", "2 restore c /d/e.f;"),
        (8, b"1 backup # .", "1 backup # .;"),
        (8, b"1 backup backup backup", "1 backup backup backup;"),
        (8, b"1 restore _ ~\n", "1 restore _ ~;"),
        (9, b"9 stat", "9 stat;"),
        (10, b"9 stat\n1 stat\n9 stat", "9 stat;1 stat;9 stat;"),
    ]
}

#[test]
fn jobs_of_scripts(rt: HostRuntime) -> Result<(), Fail> {
    one_answer();
    for (lanes, script, expected) in good_rows() {
        let jobs = read(&rt, rt.alloc(), script, lanes)?;
        assert_eq!(rt;
            texts_of(rt.alloc(), jobs.as_slice())?.as_str(),
            expected,
            "of {script:?}"
        );
    }
    Ok(())
}

// Lanes, a script, and the first line of it that is bad.
fn bad_rows() -> [(u32, &'static [u8], u32); 41] {
    [
        (8, b"\t1 stat", 1),
        (8, b"1\tstat", 1),
        (8, b"1 stat\t", 1),
        (8, b"1 delete a\0", 1),
        (8, b"1 backup \x1f a", 1),
        (8, b"1 backup \x7f a", 1),
        (8, b"1 restore a \x80", 1),
        (8, b"1 restore a \xff", 1),
        (8, b"\r", 1),
        (8, b"1 stat\r", 1),
        (8, b"1 stat\r\r\n", 1),
        (8, b"\r1 stat\n", 1),
        (8, b"0 stat", 1),
        (8, b"9 stat", 1),
        (8, b"9 backup a b", 1),
        (8, b"01 stat", 1),
        (20, b"10 stat", 1),
        (20, b": stat", 1),
        (2, b"3 stat", 1),
        (0, b"1 stat", 1),
        (8, b"1", 1),
        (8, b"stat", 1),
        (8, b"1 backup a", 1),
        (8, b"1 backup a b c", 1),
        (8, b"1 restore a", 1),
        (8, b"1 restore a b c", 1),
        (8, b"1 delete", 1),
        (8, b"1 delete a b", 1),
        (8, b"1 reclaim a", 1),
        (8, b"1 stat #", 1),
        (8, b"1 Stat", 1),
        (8, b"1 stats", 1),
        (8, b"1 sta", 1),
        (8, b"1 \xff", 1),
        (8, b"1 restore ! a", 1),
        (8, b"1 delete a/b", 1),
        (8, b"1 backup a b/c", 1),
        (8, b"1 restore a/b c", 1),
        (8, b"\n# x\n1 stat\r\n2 stat 2\nx\n", 4),
        (8, b"1 stat\n\nx", 3),
        (8, b"x\n1 stat\ny", 1),
    ]
}

#[test]
fn bad_lines(rt: HostRuntime) {
    for (lanes, script, line) in bad_rows() {
        let fault = read(&rt, rt.alloc(), script, lanes).err();
        assert_eq!(rt; fault, Some(ScriptFault::BadLine(line)), "of {script:?}");
    }
}

// A front, a piece that comes so many times, and a back.
#[derive(Clone, Copy)]
struct Long(&'static str, &'static str, u32, &'static str);

fn script_of(alloc: Global, long: Long) -> Result<Vec<u8>, AllocError> {
    let mut script = Vec::new(alloc);
    script.extend_from_slice(long.0.as_bytes())?;
    for _ in 0..long.2 {
        script.extend_from_slice(long.1.as_bytes())?;
    }
    script.extend_from_slice(long.3.as_bytes())?;
    Ok(script)
}

const BAD: Result<usize, ScriptFault> = Err(ScriptFault::BadLine(1));

// Scripts at a limit and one past it, and the number of their jobs.
fn long_rows() -> [(Long, Result<usize, ScriptFault>); 15] {
    [
        (Long("1 delete ", "n", 64, ""), Ok(1)),
        (Long("1 delete ", "n", 65, ""), BAD),
        (Long("1 backup a ", "n", 64, "\n"), Ok(1)),
        (Long("1 backup a ", "n", 65, "\n"), BAD),
        (Long("1 backup ", "n", 255, " a"), Ok(1)),
        (Long("1 backup ", "n", 256, " a"), BAD),
        (Long("1 restore a ", "n", 255, "\r\n"), Ok(1)),
        (Long("1 restore a ", "n", 256, "\r\n"), BAD),
        (Long("", "1 stat\n", 4096, ""), Ok(4096)),
        (Long("", "1 stat\n", 4096, "\n# x"), Ok(4096)),
        (
            Long("", "1 stat\n", 4096, "x\n1 stat"),
            Err(ScriptFault::BadLine(4097)),
        ),
        (
            Long("", "1 stat\n", 4096, "1 stat"),
            Err(ScriptFault::TooMany),
        ),
        (Long("", "1 stat\n", 4097, "x"), Err(ScriptFault::TooMany)),
        (Long("x\n", "1 stat\n", 4097, ""), BAD),
        (Long("", "\n", 1_048_576, ""), Ok(0)),
    ]
}

#[test]
fn long_scripts(rt: HostRuntime) -> Result<(), Fail> {
    for (long, expected) in long_rows() {
        let script = script_of(rt.alloc(), long)?;
        let read = read(&rt, rt.alloc(), script.as_slice(), 8);
        let jobs = read.map(|jobs| jobs.len());
        assert_eq!(rt; jobs, expected, "of {} {} times", long.1, long.2);
    }
    Ok(())
}

#[test]
fn file_names(rt: HostRuntime) -> Result<(), Fail> {
    let name = PathText::new(b"a/b~!").ok_or("a file name")?;
    assert_eq!(rt; name.as_str(), "a/b~!");
    assert!(rt; Some(name) == PathText::new(b"a/b~!"));
    assert!(rt; Some(name) != PathText::new(b"a/b~"));
    assert_eq!(rt; PathText::new(b""), None);
    assert_eq!(rt; PathText::new(b"a b"), None);
    Ok(())
}
