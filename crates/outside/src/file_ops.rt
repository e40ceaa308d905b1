// Calls on the files of a folder, by their paths. One that the system interrupted is made again.
ghost use Rattle.std.specs.Prelude.{◌≤◌, IfOk, vec_len};
ghost use Rattle.std.specs.Io.{ReadsAtMost};

use crate::file_error::FileError;
use crate::open_files::{KeptFile, OpenFiles};
use std::alloc::Global;
use std::fs::{OpenFile, OpenOptions};
use std::io::ErrorKind;
use std::os::unix::fs::FileExt;
use std::rt::Files;
use std::{fs, io};

// Whether this is what std answers of a file that is not there.
fn is_absent(e: &io::Error) -> bool {
    matches!(e.kind(), ErrorKind::NotFound | ErrorKind::NotADirectory)
}

// Whether there is such a file. It is not opened.
pub(crate) fn is_there(rt: &impl Files, path: &str) -> Result<bool, FileError> {
    for _ in 0..u64::MAX {
        match fs::metadata(rt, path) {
            Ok(_) => return Ok(true),
            Err(e) if is_absent(&e) => return Ok(false),
            Err(e) if e.kind() == ErrorKind::Interrupted => {}
            Err(e) => return Err(FileError::Io(e)),
        }
    }
    Err(FileError::Io(io::Error::from(ErrorKind::Interrupted)))
}

// That the file is not there is no cause of an `Err`.
pub(crate) fn remove_file(rt: &impl Files, path: &str) -> io::Result<()> {
    for _ in 0..u64::MAX {
        match fs::remove_file(rt, path) {
            Ok(()) => return Ok(()),
            Err(e) if is_absent(&e) => return Ok(()),
            Err(e) if e.kind() == ErrorKind::Interrupted => {}
            Err(e) => return Err(e),
        }
    }
    Err(io::Error::from(ErrorKind::Interrupted))
}

// Puts a folder's entries on the disk. One that is not there has none.
pub(crate) fn sync_folder(rt: &impl Files, path: &str) -> io::Result<()> {
    match fs::open(rt, path) {
        Ok(folder) => folder.sync_all(),
        Err(e) if is_absent(&e) => Ok(()),
        Err(e) => Err(e),
    }
}

// As many bytes as `max` from a place on, or to the file's end.
pub(crate) fn read_bytes<R: Files>(
    rt: &R,
    readers: &mut OpenFiles<R::File>,
    alloc: Global,
    path: String,
    at: u64,
    max: usize,
) -> Result<Vec<u8>, FileError>
where
    R::File: FileExt,
    ensures { IfOk result (λ bytes. vec_len bytes ≤ max) }
{
    let mut bytes = vec![in alloc; 0; max]?;
    let given = read_file(rt, readers, path, at, &mut bytes)?;
    bytes.truncate(given);
    Ok(bytes)
}

// Reads from a place on, from the file that is open or by one open. A file that is not there gives no bytes.
pub(crate) fn read_file<R: Files>(
    rt: &R,
    readers: &mut OpenFiles<R::File>,
    path: String,
    at: u64,
    bytes: &mut [u8],
) -> io::Result<usize>
where
    R::File: FileExt,
    ensures { ReadsAtMost result bytes.new }
{
    let kept = match readers.take(&path) {
        Some(kept) => kept,
        None => match fs::open(rt, path.as_str()) {
            Ok(file) => KeptFile {
                path,
                file,
                is_unsynced: false,
            },
            Err(e) if is_absent(&e) => return Ok(0),
            Err(e) => return Err(e),
        },
    };
    let given = fill_from(&kept.file, at, bytes)?;
    readers.put(kept);
    Ok(given)
}

// Reads from a place on until the bytes are full or the file ends, and answers how many came.
pub(crate) fn fill_from<F: FileExt>(file: &F, at: u64, bytes: &mut [u8]) -> io::Result<usize>
    ensures { ReadsAtMost result bytes.new }
{
    let mut filled = 0;
    for _ in 0..u64::MAX {
        if filled >= bytes.len() {
            return Ok(filled);
        }
        match file.read_at(&mut bytes[filled..], at.saturating_add(filled as u64)) {
            Ok(0) => return Ok(filled),
            Ok(n) => filled += n,
            Err(e) => {
                if e.kind() != ErrorKind::Interrupted {
                    return Err(e);
                }
            }
        }
    }
    Err(io::Error::from(ErrorKind::Interrupted))
}

// One open for adding at the end, which makes the file where it is not there.
pub(crate) fn open_to_append<R: Files>(rt: &R, path: String) -> io::Result<KeptFile<R::File>> {
    let file = OpenOptions::new()
        .append(true)
        .create(true)
        .open(rt, path.as_str())?;
    Ok(KeptFile {
        path,
        file,
        is_unsynced: false,
    })
}
