// The lock on a store's folder: one run that writes, or several that read, at a time.

use std::fs::{DirBuilder, File, OpenFile, TryLockError};
use std::io::ErrorKind;
use std::os::unix::fs::DirBuilderExt;
use std::rt::Files;
use std::{fs, io};

// For its owner alone.
const MODE: u32 = 0o700;

/// What a run does with the store.
#[derive(Clone, Copy, Debug, PartialEq, Eq)]
pub enum Use {
    /// Nothing: it takes no lock and makes no folder.
    Nothing,
    /// It reads, beside others that read.
    Reads,
    /// It may write, and no other run may use the store.
    Writes,
}

/// What a run was given. A lock is given up when this is dropped, or the process ends.
#[derive(Drop)]
pub enum Turn {
    /// There is nothing to lock: the run has no use for the store, or it only reads, and the folder is not there and
    /// can't be made.
    Free,
    /// The lock.
    Locked(File),
    /// Another run holds the lock, or the system gave none, or what a run that writes needs of the folder failed.
    Refused,
}

/// Takes the advisory lock on this folder, without waiting. The folder is made first, for its owner alone, where it is
/// not there. Before a run that writes, its entry in its parent is put on the disk.
pub fn take_turn<R: Files<File = File>>(rt: &R, parent: &str, folder: &str, usage: Use) -> Turn {
    if usage == Use::Nothing {
        return Turn::Free;
    }
    // Where it can't be made it is there already, or can't be opened.
    let _ = DirBuilder::new().mode(MODE).create(rt, folder);
    match fs::open(rt, folder) {
        Ok(file) => locked(rt, parent, file, usage),
        Err(e) if usage == Use::Reads && e.kind() == ErrorKind::NotFound => Turn::Free,
        Err(_) => Turn::Refused,
    }
}

fn locked<R: Files<File = File>>(rt: &R, parent: &str, file: File, usage: Use) -> Turn {
    let taken = match usage {
        Use::Writes => file.try_lock(),
        _ => file.try_lock_shared(),
    };
    if taken.is_err() {
        return Turn::Refused;
    }
    if usage == Use::Writes && sync_folder(rt, parent).is_err() {
        return Turn::Refused;
    }
    Turn::Locked(file)
}

// Puts a folder's entries on the disk.
fn sync_folder<R: Files<File = File>>(rt: &R, folder: &str) -> io::Result<()> {
    fs::open(rt, folder)?.sync_all()
}
