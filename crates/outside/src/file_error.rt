// Why a call on files did not answer.
use ss_base::Memory;
use std::alloc::AllocError;
use std::io;

#[derive(Drop)]
pub(crate) enum FileError {
    Io(io::Error),
    Memory,
}

impl From<io::Error> for FileError {
    fn from(e: io::Error) -> Self {
        FileError::Io(e)
    }
}

impl From<AllocError> for FileError {
    fn from(_: AllocError) -> Self {
        FileError::Memory
    }
}

impl From<Memory> for FileError {
    fn from(_: Memory) -> Self {
        FileError::Memory
    }
}
