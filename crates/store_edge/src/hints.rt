// Which files a thread beside the run puts on the disk early.

use crossbeam_channel::{Receiver, Sender};
use std::alloc::{AllocError, Global};
use std::fs::OpenFile;
use std::rt::Files;
use std::sync::Wait;
use std::{fs, io};

/// A file that grows is told of once so many bytes came that were not told.
pub const PART: u64 = 8 * 1024 * 1024;

/// How many paths wait for the thread at most. More are dropped.
pub const WAITING: usize = 64;

// The file that was written to last, and how many bytes came since it was told.
#[derive(Drop)]
struct Growing {
    name: String,
    untold: u64,
}

// What is told of the files of one folder. Each path is a hint: it is dropped where the channel is full, or memory is
// wanted.
#[derive(Drop)]
pub(crate) struct Hints<'a, R: Wait> {
    rt: &'a R,
    alloc: Global,
    folder: &'a str,
    paths: &'a Sender<String>,
    last: Option<Growing>,
}

impl<'a, R: Wait> Hints<'a, R> {
    pub(crate) fn new(
        rt: &'a R,
        alloc: Global,
        folder: &'a str,
        paths: &'a Sender<String>,
    ) -> Hints<'a, R> {
        Hints {
            rt,
            alloc,
            folder,
            paths,
            last: None,
        }
    }

    // Notes that a file was written to. The one before it is told, and this one once it grew by a part.
    pub(crate) fn note(&mut self, name: &str, added: usize) {
        if !self.is_last(name) {
            self.tell(1);
            self.last = begun(self.alloc, name);
        }
        if let Some(last) = &mut self.last {
            last.untold = last.untold.saturating_add(added as u64);
        }
        self.tell(PART);
    }

    fn is_last(&self, name: &str) -> bool {
        self.last
            .as_ref()
            .is_some_and(|last| last.name.as_str() == name)
    }

    // Tells the last file's path, where so many bytes were not told.
    fn tell(&mut self, least: u64) {
        if let Some(last) = &mut self.last {
            if last.untold >= least {
                last.untold = 0;
                if let Ok(path) = path_of(self.alloc, self.folder, &last.name) {
                    let _ = self.paths.try_send(self.rt, path);
                }
            }
        }
    }
}

fn begun(alloc: Global, name: &str) -> Option<Growing> {
    match String::from_str(alloc, name) {
        Ok(name) => Some(Growing { name, untold: 0 }),
        Err(_) => None,
    }
}

fn path_of(alloc: Global, folder: &str, name: &str) -> Result<String, AllocError> {
    let mut path = String::from_str(alloc, folder)?;
    path.push('/')?;
    path.push_str(name)?;
    Ok(path)
}

/// Puts the files of these paths on the disk as they come, until all senders are gone. An error is ignored: the handle
/// by which the file was written meets it at its own sync.
pub fn put_ahead<R: Files + Wait>(rt: &R, paths: &Receiver<String>) {
    for path in paths.iter(rt) {
        let _ = put_on_disk(rt, &path);
    }
}

// Another than a plain file, as a pipe, could make the open wait.
fn put_on_disk<R: Files>(rt: &R, path: &str) -> io::Result<()> {
    if fs::metadata(rt, path)?.is_file() {
        fs::open(rt, path)?.sync_data()?;
    }
    Ok(())
}
