// A store with nothing in it, and a shelf of inputs.
use crate::backup_solo;
use crate::test_lines::{have_lines, line_of};
use chunk_name::{hex_of, name_of};
use depot::{BackupFault, Depot};
use history::Limits;
use manifest_cache::ManifestCache;
use outside::MemShelf;
use ss_base::{Memory, Name, Profile, StreamName};
use std::alloc::Global;
use std::test::Fail;
use store_core::State;

#[derive(Drop)]
pub(crate) struct Fixture {
    pub state: State<8, 8>,
    pub files: MemShelf,
    pub depot: MemShelf,
}

// The history admits so many entries, and so great a weight. One call on the files fails, and one on the depot.
pub(crate) fn limited(
    alloc: Global,
    entries: u8,
    weight: u8,
    fails: (u32, u32),
) -> Result<Fixture, Fail> {
    let limits = Limits {
        entries: u32::from(entries),
        weight: u32::from(weight),
    };
    let state = State::replay(alloc, Profile::Tiny, limits, Vec::new(alloc));
    Ok(Fixture {
        state: state.ok().ok_or("a state")?,
        files: MemShelf::new(alloc, vec![in alloc; fails.0]?),
        depot: MemShelf::new(alloc, vec![in alloc; fails.1]?),
    })
}

pub(crate) fn store(alloc: Global, fails: (u32, u32)) -> Result<Fixture, Fail> {
    limited(alloc, 100, 100, fails)
}

// So many zero bytes, and then these.
pub(crate) fn zeros_and(alloc: Global, zeros: usize, last: &[u8]) -> Result<Vec<u8>, Memory> {
    let mut bytes = vec![in alloc; 0; zeros]?;
    bytes.extend_from_slice(last)?;
    Ok(bytes)
}

impl Fixture {
    // What a backup by the next author answers, of so many zero bytes and these behind them.
    pub(crate) fn backup(
        &mut self,
        alloc: Global,
        zeros: usize,
        last: &[u8],
        name: &str,
    ) -> Result<Result<u32, BackupFault>, Fail> {
        self.files.set("in", &zeros_and(alloc, zeros, last)?)?;
        self.backup_of(alloc, "in", name)
    }

    // The same, of a file.
    pub(crate) fn backup_of(
        &mut self,
        alloc: Global,
        input: &str,
        name: &str,
    ) -> Result<Result<u32, BackupFault>, Fail> {
        let author = self.state.next_author().ok_or("an author")?;
        let name = StreamName::new(name.as_bytes()).ok_or("a name")?;
        let mut depot = Depot::over(&mut self.depot);
        let mut cache = ManifestCache::new(alloc, 64)?;
        Ok(backup_solo(
            alloc,
            &mut self.state,
            author,
            &mut self.files,
            input,
            name,
            &mut depot,
            &mut cache,
        ))
    }

    // Whether the entries are those of the lines, and the depot has the objects of the others. Each of these has the
    // name of one and the SHA-256 of its bytes, or a dash where it is not there.
    pub(crate) fn shows(&self, alloc: Global, lines: &str, objects: &str) -> Result<bool, Fail> {
        Ok(have_lines(alloc, self.state.entries(), lines)? && holds(alloc, &self.depot, objects)?)
    }

    // Whether there are so many entries, of which the last has this line.
    pub(crate) fn ends(&self, alloc: Global, entries: usize, line: &str) -> Result<bool, Fail> {
        let last = self.state.entries().last().ok_or("an entry")?;
        Ok(self.state.entries().len() == entries && line_of(alloc, last)?.as_str() == line)
    }
}

fn holds(alloc: Global, shelf: &MemShelf, objects: &str) -> Result<bool, Fail> {
    for line in objects.lines() {
        let (object, digits) = line.split_once(' ').ok_or("an object")?;
        if !holds_object(alloc, shelf, object, digits)? {
            return Ok(false);
        }
    }
    Ok(true)
}

fn holds_object(
    alloc: Global,
    shelf: &MemShelf,
    object: &str,
    digits: &str,
) -> Result<bool, Memory> {
    let Some(bytes) = shelf.get(object) else {
        return Ok(digits == "-");
    };
    has_digits(alloc, &name_of(bytes), digits)
}

pub(crate) fn has_digits(alloc: Global, name: &Name, digits: &str) -> Result<bool, Memory> {
    Ok(hex_of(alloc, name)?.as_str() == digits)
}
