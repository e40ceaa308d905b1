// Entries, for tests, as the lines that are printed of a journal, but without their numbers, and with the hooks by
// letters.
use history::{Entry, Items, Point, Seen, Totals};
use ss_base::{ContainerId, ManifestId, Name, Object, StreamName};
use std::alloc::Global;
use std::test::Fail;

// Three hooks, each with one zero bit, a name with none, and a fourth hook.
pub(crate) const H: Name = Name([0; 32]);

pub(crate) const G: Name = Name([1; 32]);

pub(crate) const F: Name = Name([2; 32]);

pub(crate) const NO_HOOK: Name = Name([128; 32]);

const E: Name = Name([3; 32]);

// The digest of a manifest's text or pieces: each has its own.
fn digest(kind: u8, id: ManifestId) -> Name {
    let [_, _, _, session] = id.session.to_be_bytes();
    let [_, _, _, seq] = id.seq.to_be_bytes();
    let mut bytes = [kind; 32];
    bytes[0] = session;
    bytes[1] = seq;
    Name(bytes)
}

const CONTENT: u8 = 2;

const TEXT: u8 = 3;

// The number behind a letter.
fn numbered(letter: char, word: &str) -> Result<u32, Fail> {
    let digits = word.strip_prefix(letter).ok_or("the letter of a number")?;
    Ok(digits.parse::<u32>()?)
}

// The two numbers of an id behind its letter.
fn id(letter: char, word: &str) -> Result<(u32, u32), Fail> {
    let numbers = word.strip_prefix(letter).ok_or("the letter of an id")?;
    let (first, second) = numbers.split_once('.').ok_or("the numbers of an id")?;
    Ok((first.parse::<u32>()?, second.parse::<u32>()?))
}

// What stands in the lists of entries.
trait FromWord: Drop {
    fn from_word(word: &str) -> Result<Self, Fail>;
}

impl FromWord for ManifestId {
    fn from_word(word: &str) -> Result<ManifestId, Fail> {
        let (session, seq) = id('m', word)?;
        Ok(ManifestId { session, seq })
    }
}

impl FromWord for ContainerId {
    fn from_word(word: &str) -> Result<ContainerId, Fail> {
        let (session, ordinal) = id('c', word)?;
        Ok(ContainerId { session, ordinal })
    }
}

impl FromWord for Object {
    fn from_word(word: &str) -> Result<Object, Fail> {
        if word.starts_with('m') {
            return Ok(Object::Manifest(ManifestId::from_word(word)?));
        }
        Ok(Object::Container(ContainerId::from_word(word)?))
    }
}

impl FromWord for Name {
    fn from_word(word: &str) -> Result<Name, Fail> {
        Ok(match word {
            "h" => H,
            "g" => G,
            "f" => F,
            "e" => E,
            "n" => NO_HOOK,
            _ => return Err("a hook")?,
        })
    }
}

// A dash where there are no items, else their words with commas between.
fn items<T: FromWord>(alloc: Global, word: &str) -> Result<Items<T>, Fail> {
    let mut items = Vec::new(alloc);
    if word != "-" {
        for item in word.split(',') {
            items.push(T::from_word(item)?)?;
        }
    }
    Ok(Items::new(items))
}

fn stream(name: &str) -> Result<StreamName, Fail> {
    Ok(StreamName::new(name.as_bytes()).ok_or("a stream name")?)
}

// The session of a reply, which is none at this word.
fn reply(none: &str, word: &str) -> Result<Option<u32>, Fail> {
    if word == none {
        return Ok(None);
    }
    Ok(Some(numbered('s', word)?))
}

// The commit of a manifest with these counts of chunks and bytes, all and fresh.
pub(crate) fn commit(manifest: ManifestId, counts: [u32; 4], uses: Items<ContainerId>) -> Point {
    let [chunks, bytes, fresh, fresh_bytes] = counts;
    Point::Commit {
        manifest,
        content: digest(CONTENT, manifest),
        text: digest(TEXT, manifest),
        chunks,
        bytes,
        fresh,
        fresh_bytes,
        uses,
    }
}

fn read_begin(words: &[&str]) -> Result<Point, Fail> {
    let [name, session] = words else {
        return Err("a begin")?;
    };
    Ok(Point::Begin {
        name: stream(name)?,
        session: reply("taken", session)?,
    })
}

fn read_choose(alloc: Global, words: &[&str]) -> Result<Point, Fail> {
    let [session, "hooks", hooks, "champions", champions] = words else {
        return Err("a choice")?;
    };
    Ok(Point::Choose {
        session: numbered('s', session)?,
        hooks: items(alloc, hooks)?,
        champions: items(alloc, champions)?,
    })
}

fn read_commit(alloc: Global, words: &[&str]) -> Result<Point, Fail> {
    let [
        id,
        "chunks",
        chunks,
        "bytes",
        bytes,
        "fresh",
        fresh,
        fresh_bytes,
        "uses",
        uses,
    ] = words
    else {
        return Err("a commit")?;
    };
    let counts = [
        chunks.parse::<u32>()?,
        bytes.parse::<u32>()?,
        fresh.parse::<u32>()?,
        fresh_bytes.parse::<u32>()?,
    ];
    Ok(commit(ManifestId::from_word(id)?, counts, items(alloc, uses)?))
}

fn read_finish(words: &[&str]) -> Result<Point, Fail> {
    let [session, "containers", containers] = words else {
        return Err("a finish")?;
    };
    Ok(Point::Finish {
        session: numbered('s', session)?,
        containers: containers.parse::<u32>()?,
    })
}

fn read_abort(words: &[&str]) -> Result<Point, Fail> {
    let [session, "containers", containers, "texts", texts] = words else {
        return Err("an abort")?;
    };
    Ok(Point::Abort {
        session: numbered('s', session)?,
        containers: containers.parse::<u32>()?,
        texts: texts.parse::<u32>()?,
    })
}

fn read_delete(words: &[&str]) -> Result<Point, Fail> {
    let [name, session] = words else {
        return Err("a delete")?;
    };
    Ok(Point::Delete {
        name: stream(name)?,
        session: reply("none", session)?,
    })
}

fn read_look(words: &[&str]) -> Result<Point, Fail> {
    let (name, seen) = match words {
        [name, "none"] => (*name, None),
        [name, reader, session] => {
            let reader = numbered('r', reader)?;
            let session = numbered('s', session)?;
            (*name, Some(Seen { reader, session }))
        }
        _ => return Err("a look")?,
    };
    let name = stream(name)?;
    Ok(Point::Look { name, seen })
}

fn read_done(words: &[&str]) -> Result<Point, Fail> {
    let [reader] = words else {
        return Err("an end of a reading")?;
    };
    Ok(Point::Done {
        reader: numbered('r', reader)?,
    })
}

fn read_reclaim(alloc: Global, words: &[&str]) -> Result<Point, Fail> {
    let [objects] = words else {
        return Err("a reclaim")?;
    };
    Ok(Point::Reclaim {
        objects: items(alloc, objects)?,
    })
}

// The number behind a word that says what is counted.
fn counted(what: &str, words: &[&str]) -> Result<u64, Fail> {
    for (i, word) in words.iter().enumerate() {
        if *word == what {
            return Ok(words.get(i + 1).ok_or("a count")?.parse::<u64>()?);
        }
    }
    Err("what is counted")?
}

fn read_stat(words: &[&str]) -> Result<Point, Fail> {
    if words.len() != 12 {
        return Err("totals")?;
    }
    Ok(Point::Stat {
        totals: Totals {
            streams: counted("streams", words)?,
            bytes: counted("bytes", words)?,
            fresh: counted("fresh", words)?,
            containers: counted("containers", words)?,
            reclaimed: counted("reclaimed", words)?,
            entries: counted("entries", words)?,
        },
    })
}

fn read_point(alloc: Global, kind: &str, words: &[&str]) -> Result<Point, Fail> {
    match kind {
        "begin" => read_begin(words),
        "choose" => read_choose(alloc, words),
        "commit" => read_commit(alloc, words),
        "finish" => read_finish(words),
        "abort" => read_abort(words),
        "delete" => read_delete(words),
        "look" => read_look(words),
        "done" => read_done(words),
        "reclaim" => read_reclaim(alloc, words),
        "stat" => read_stat(words),
        _ => Err("a kind of entry")?,
    }
}

fn words<'a>(alloc: Global, line: &'a str) -> Result<Vec<&'a str>, Fail> {
    let mut words = Vec::new(alloc);
    for word in line.split(' ') {
        words.push(word)?;
    }
    Ok(words)
}

// The entry of a line, as a0 begin x s0.
pub(crate) fn read_entry(alloc: Global, line: &str) -> Result<Entry, Fail> {
    let words = words(alloc, line)?;
    let [author, kind, rest @ ..] = words.as_slice() else {
        return Err("an author and a kind of entry")?;
    };
    let author = numbered('a', author)?;
    let point = read_point(alloc, kind, rest)?;
    Ok(Entry { author, point })
}

// The entries of the lines.
pub(crate) fn read_entries(alloc: Global, lines: &str) -> Result<Vec<Entry>, Fail> {
    let mut entries = Vec::new(alloc);
    for line in lines.lines() {
        entries.push(read_entry(alloc, line)?)?;
    }
    Ok(entries)
}
