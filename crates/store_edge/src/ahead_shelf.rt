// A shelf whose files a thread puts on the disk early.
ghost use Rattle.std.specs.Prelude.{None};

use crate::hints::Hints;
use crossbeam_channel::Sender;
use outside::{DirShelf, Shelf, Trouble};
use ss_base::Memory;
use std::alloc::Global;
use std::sync::Wait;

/// A shelf over a folder that tells which of its files [`crate::put_ahead`] is to put on the disk: the one written to
/// before, when another one is, and one that grew by [`crate::PART`]. So a sync finds little left to do; what it
/// promises is as ever. One object may name the others: before it is added to, all is put on the disk, and where that
/// fails nothing is added. It tells no bytes and keeps no record, only its counts.
#[derive(Drop)]
pub struct AheadShelf<'a, R: Wait> {
    shelf: DirShelf<'a, HostRuntime>,
    hints: Hints<'a, R>,
    names_others: Option<&'a str>,
}

impl<'a, R: Wait> AheadShelf<'a, R> {
    /// A shelf over the files of this folder. It tells paths to this sender.
    pub fn new(
        host: &'a HostRuntime,
        rt: &'a R,
        folder: &'a str,
        names_others: Option<&'a str>,
        paths: &'a Sender<String>,
    ) -> Result<AheadShelf<'a, R>, Memory> {
        let alloc = host.alloc();
        Ok(AheadShelf {
            shelf: DirShelf::new(host, String::from_str(alloc, folder)?),
            hints: Hints::new(rt, alloc, folder, paths),
            names_others,
        })
    }

    /// Puts on the disk what calls on the folder's shelf changed.
    pub fn sync(&mut self) -> Result<(), Trouble> {
        self.shelf.sync()
    }
}

impl<R: Wait> Shelf for AheadShelf<'_, R> {
    ghost held = { λ _. None };

    ghost gave = { λ _. None };

    ghost wrote = { λ _. None };

    ghost erased = { λ _. None };

    ghost reads = { λ s. s.shelf.reads };

    ghost faults = { λ s. s.shelf.faults };

    fn has(&mut self, name: &str) -> Result<bool, Trouble> {
        self.shelf.has(name)
    }

    fn read(&mut self, alloc: Global, name: &str, at: u64, max: usize) -> Result<Vec<u8>, Trouble> {
        self.shelf.read(alloc, name, at, max)
    }

    fn create(&mut self, name: &str, bytes: &[u8]) -> Result<(), Trouble> {
        self.shelf.create(name, bytes)?;
        self.hints.note(name, bytes.len());
        Ok(())
    }

    fn append(&mut self, name: &str, bytes: &[u8]) -> Result<(), Trouble> {
        if self.names_others == Some(name) {
            self.shelf.sync()?;
        }
        self.shelf.append(name, bytes)?;
        self.hints.note(name, bytes.len());
        Ok(())
    }

    fn erase(&mut self, name: &str) -> Result<(), Trouble> {
        self.shelf.erase(name)
    }
}
