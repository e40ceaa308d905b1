// A shelf over the files of a folder: the trusted edge, of whose bytes no contract speaks.
ghost use Rattle.std.specs.Prelude.{◌≡◌, ◌≤◌, Ok, Some, None, IfOk, string_bytes};
ghost use Rattle.outside.specs.DirShelf.{file_path};
ghost use Rattle.outside.specs.Faults.{Rose, HasCause};

use crate::file_error::FileError;
use crate::file_ops::{is_there, read_bytes};
use crate::open_files::OpenFiles;
use crate::paths::path_of;
use crate::written_files::WrittenFiles;
use crate::{Shelf, Trouble};
use std::alloc::Global;
use std::marker::Model;
use std::os::unix::fs::FileExt;
use std::rt::Files;

/// A shelf over the files of one folder. An object is the file of its name. A call that the system interrupted is
/// made again; each other `Err` of std's is a fault. It tells no bytes and keeps no record, only its counts.
///
/// A name leads out of the folder only by a link in it. Names of the depot's objects are made of letters, digits and
/// `-`. A file name is what the user wrote, of the bytes from `!` to `~`: it stands behind the folder and a `/`, so a
/// leading `/` means the folder, and one that has `..` among its parts is a fault before any file is touched.
///
/// Files in use stay open, at most eight to be read and eight to be added to; one is closed where this handle creates
/// or erases its name, and after an `Err` on it. Another handle's erase is not noticed: this one may go on with the
/// erased file. Names of the depot are never used twice, so no other bytes come of it. A file that makes room for
/// another is put on the disk first where `sync` would, and an `Err` of that is a fault of the call at hand.
#[derive(Drop)]
pub struct DirShelf<'a, R: Files + Sync> {
    rt: &'a R,
    folder: String,
    readers: OpenFiles<R::File>,
    written: WrittenFiles<R>,
    reads: u64,
    faults: u64,
}

impl<'a, R: Files + Sync> Model for DirShelf<'a, R> {
    ghost use Rattle.outside.specs.DirShelf.{FolderCounts};

    ghost Value = { FolderCounts };

    ghost view = { λ s. record { reads = s.reads; faults = s.faults } };
}

impl<'a, R: Files + Sync> DirShelf<'a, R> {
    /// A shelf over the files of this folder, which need not be there yet. No file is touched.
    pub fn new(rt: &'a R, folder: String) -> DirShelf<'a, R>
        ensures reads { result.reads ≡ 0 }
        ensures faults { result.faults ≡ 0 }
    {
        DirShelf {
            rt,
            folder,
            readers: OpenFiles::new(),
            written: WrittenFiles::new(),
            reads: 0,
            faults: 0,
        }
    }

    /// Puts on the disk what calls of this handle that answered Ok created, appended or erased: first the files'
    /// bytes, then their folder's entries. After a `Fault` nothing is known of what it was to put there.
    pub fn sync(&mut self) -> Result<(), Trouble>
        ensures reads { self.new.reads ≡ self.old.reads }
        ensures cause { HasCause self.old.faults self.new.faults result }
    {
        counted(&mut self.faults, self.written.sync(self.rt))
    }
}

impl<R: Files + Sync> Shelf for DirShelf<'_, R>
where
    R::File: FileExt,
{
    ghost held = { λ _. None };

    ghost gave = { λ _. None };

    ghost wrote = { λ _. None };

    ghost erased = { λ _. None };

    ghost reads = { λ s. s.reads };

    ghost faults = { λ s. s.faults };

    fn has(&mut self, name: &str) -> Result<bool, Trouble> {
        let path = path_or_fault(&mut self.faults, &self.folder, name)?;
        counted(&mut self.faults, is_there(self.rt, &path))
    }

    fn read(&mut self, alloc: Global, name: &str, at: u64, max: usize) -> Result<Vec<u8>, Trouble> {
        self.reads = self.reads.wrapping_add(1);
        let path = path_or_fault(&mut self.faults, &self.folder, name)?;
        let bytes = read_bytes(self.rt, &mut self.readers, alloc, path, at, max);
        counted(&mut self.faults, bytes)
    }

    fn create(&mut self, name: &str, bytes: &[u8]) -> Result<(), Trouble> {
        let path = path_or_fault(&mut self.faults, &self.folder, name)?;
        self.readers.let_go(&path);
        counted(&mut self.faults, self.written.create(self.rt, path, bytes))
    }

    fn append(&mut self, name: &str, bytes: &[u8]) -> Result<(), Trouble> {
        let path = path_or_fault(&mut self.faults, &self.folder, name)?;
        counted(&mut self.faults, self.written.append(self.rt, path, bytes))
    }

    fn erase(&mut self, name: &str) -> Result<(), Trouble> {
        let path = path_or_fault(&mut self.faults, &self.folder, name)?;
        self.readers.let_go(&path);
        counted(&mut self.faults, self.written.erase(self.rt, &path))
    }
}

// One more fault.
fn fault(faults: &mut u64) -> Trouble
    ensures fault { result ≡ Trouble.Fault }
    ensures later { faults.old ≤ faults.new }
    ensures rose { Rose faults.old faults.new }
{
    *faults = faults.saturating_add(1);
    Trouble::Fault
}

// Passes on an answer, and counts an `Err` of the files.
fn counted<T>(faults: &mut u64, answer: Result<T, FileError>) -> Result<T, Trouble>
    ensures value { IfOk result (λ value. answer ≡ Ok value) }
    ensures cause { HasCause faults.old faults.new result }
{
    match answer {
        Ok(value) => Ok(value),
        Err(FileError::Io(_)) => Err(fault(faults)),
        Err(FileError::Memory) => Err(Trouble::Memory),
    }
}

// The path of the file of this name, and a fault where it has none.
fn path_or_fault(faults: &mut u64, folder: &String, name: &str) -> Result<String, Trouble>
    ensures path { IfOk result (λ path. file_path (string_bytes folder.now) name.now ≡ Some (string_bytes path)) }
    ensures cause { HasCause faults.old faults.new result }
{
    match path_of(folder, name)? {
        Some(path) => Ok(path),
        None => Err(fault(faults)),
    }
}
