// The files of a folder that are made, added to and taken away, and what of them is not on the disk yet.

use crate::file_error::FileError;
use crate::file_ops::{open_to_append, remove_file, sync_folder};
use crate::open_files::{KeptFile, OpenFiles};
use crate::paths::folder_of;
use std::fs::OpenFile;
use std::io;
use std::io::Write;
use std::rt::Files;

// Not on the disk yet are bytes of files that are open, and entries of one folder.
#[derive(Drop)]
pub(crate) struct WrittenFiles<R: Files> {
    appenders: OpenFiles<R::File>,
    unsynced_folder: Option<String>,
}

impl<R: Files> WrittenFiles<R> {
    pub(crate) fn new() -> WrittenFiles<R> {
        WrittenFiles {
            appenders: OpenFiles::new(),
            unsynced_folder: None,
        }
    }

    // One open, which makes the file where it is not there. What it held goes.
    pub(crate) fn create(&mut self, rt: &R, path: String, bytes: &[u8]) -> Result<(), FileError> {
        self.note_folder(rt, &path)?;
        let kept = open_to_append(rt, path)?;
        if kept.file.metadata()?.len() > 0 {
            kept.file.set_len(0)?;
        }
        self.appenders.let_go(&kept.path);
        Ok(write_and_keep(&mut self.appenders, kept, bytes)?)
    }

    // Adds bytes to the file that is open, or by one open, which makes the file where it is not there.
    pub(crate) fn append(&mut self, rt: &R, path: String, bytes: &[u8]) -> Result<(), FileError> {
        let kept = match self.appenders.take(&path) {
            Some(kept) => kept,
            None => {
                self.note_folder(rt, &path)?;
                open_to_append(rt, path)?
            }
        };
        Ok(write_and_keep(&mut self.appenders, kept, bytes)?)
    }

    // That the file is not there is no cause of an `Err`.
    pub(crate) fn erase(&mut self, rt: &R, path: &String) -> Result<(), FileError> {
        self.note_folder(rt, path)?;
        remove_file(rt, path)?;
        self.appenders.let_go(path);
        Ok(())
    }

    // Puts on the disk what is not there yet: bytes first, then entries. What an `Err` left out stays noted.
    pub(crate) fn sync(&mut self, rt: &R) -> Result<(), FileError> {
        self.appenders.sync()?;
        self.sync_folder(rt)?;
        Ok(())
    }

    // Notes that entries of this path's folder are not on the disk. Those of another one are put there first.
    fn note_folder(&mut self, rt: &R, path: &String) -> Result<(), FileError> {
        let folder = folder_of(path);
        if self.is_noted(folder) {
            return Ok(());
        }
        let folder = String::from_str(*path.allocator(), folder)?;
        self.sync_folder(rt)?;
        self.unsynced_folder = Some(folder);
        Ok(())
    }

    fn is_noted(&self, folder: &str) -> bool {
        self.unsynced_folder
            .as_ref()
            .is_some_and(|noted| noted.as_str() == folder)
    }

    fn sync_folder(&mut self, rt: &R) -> io::Result<()> {
        if let Some(folder) = &self.unsynced_folder {
            sync_folder(rt, folder)?;
        }
        self.unsynced_folder = None;
        Ok(())
    }
}

// A file that is not kept, for an `Err` or for want of room, is put on the disk first.
fn write_and_keep<F: Write + OpenFile + Drop>(
    appenders: &mut OpenFiles<F>,
    mut kept: KeptFile<F>,
    bytes: &[u8],
) -> io::Result<()> {
    kept.is_unsynced = true;
    if let Err(e) = kept.file.write_all(bytes) {
        let _ = kept.sync();
        return Err(e);
    }
    match appenders.put(kept) {
        Some(mut least) => least.sync(),
        None => Ok(()),
    }
}
