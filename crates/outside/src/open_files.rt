// Files that stay open from call to call, the one used last in front.
use crate::paths::is_same_file;
use std::fs::OpenFile;
use std::{io, mem};

// An open file, and the path that it was opened by.
#[derive(Drop)]
pub(crate) struct KeptFile<F> {
    pub(crate) path: String,
    pub(crate) file: F,
    pub(crate) is_unsynced: bool,
}

impl<F: OpenFile> KeptFile<F> {
    // Puts its bytes on the disk, where some may not be there yet.
    pub(crate) fn sync(&mut self) -> io::Result<()> {
        if self.is_unsynced {
            self.file.sync_data()?;
            self.is_unsynced = false;
        }
        Ok(())
    }
}

// At most eight, each path at most once.
#[derive(Drop)]
pub(crate) struct OpenFiles<F> {
    kept: [Option<KeptFile<F>>; 8],
}

impl<F: Drop> OpenFiles<F> {
    pub(crate) fn new() -> OpenFiles<F> {
        OpenFiles {
            kept: [None, None, None, None, None, None, None, None],
        }
    }

    // Takes the file of this path out.
    pub(crate) fn take(&mut self, path: &str) -> Option<KeptFile<F>> {
        for place in &mut self.kept {
            if place
                .as_ref()
                .is_some_and(|kept| kept.path.as_str() == path)
            {
                return place.take();
            }
        }
        None
    }

    // Puts a file in front, and answers the one used longest ago where there is no room for it.
    pub(crate) fn put(&mut self, kept: KeptFile<F>) -> Option<KeptFile<F>> {
        let mut moved = Some(kept);
        for place in &mut self.kept {
            mem::swap(place, &mut moved);
            if moved.is_none() {
                return None;
            }
        }
        moved
    }

    // Closes the file of this path, also where it was opened by a path with other empty parts or parts `.`.
    pub(crate) fn let_go(&mut self, path: &str) {
        for place in &mut self.kept {
            if place
                .as_ref()
                .is_some_and(|kept| is_same_file(&kept.path, path))
            {
                *place = None;
            }
        }
    }
}

impl<F: OpenFile + Drop> OpenFiles<F> {
    // Puts the bytes of each file on the disk, up to an `Err`.
    pub(crate) fn sync(&mut self) -> io::Result<()> {
        for place in &mut self.kept {
            if let Some(kept) = place {
                kept.sync()?;
            }
        }
        Ok(())
    }
}
