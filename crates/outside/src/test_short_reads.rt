// A file is read on where a read gives less than was asked for, or was interrupted.

use crate::file_ops::fill_from;
use std::io;
use std::io::ErrorKind;
use std::os::unix::fs::FileExt;
use std::sync::atomic::{AtomicU64, Ordering};
use std::test::Fail;

// A file of five bytes that gives one byte a read. Its second read is interrupted.
#[derive(Drop)]
struct Slow(AtomicU64);

impl FileExt for Slow {
    fn read_at(&self, buf: &mut [u8], offset: u64) -> io::Result<usize> {
        if self.0.fetch_add(1, Ordering::SeqCst) == 1 {
            return Err(io::Error::from(ErrorKind::Interrupted));
        }
        match buf {
            [first, ..] if offset < 5 => {
                *first = b"chunk"[offset as usize];
                Ok(1)
            }
            _ => Ok(0),
        }
    }

    fn write_at(&self, _buf: &[u8], _offset: u64) -> io::Result<usize> {
        Err(io::Error::from(ErrorKind::Unsupported))
    }
}

#[test]
fn short_reads_go_on_to_the_end(rt: HostRuntime) -> Result<(), Fail> {
    for (at, max, want) in [
        (0, 3, b"chu".as_slice()),
        (1, 9, b"hunk".as_slice()),
        (5, 2, b"".as_slice()),
    ] {
        let mut bytes = vec![in rt.alloc(); 0; max]?;
        let filled = fill_from(&Slow(AtomicU64::new(0)), at, &mut bytes)?;
        bytes.truncate(filled);
        assert_eq!(rt; bytes.as_slice(), want);
    }
    Ok(())
}
