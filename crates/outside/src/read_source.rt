// A source over a reader of std.
ghost use Rattle.std.specs.Prelude.{◌≡◌, ◌≤◌, ◌<◌, ℕ, List, [], true, Some, take, length, vec_len, IfOk, OnErr, IsErrOf, IsTrue, MatchResult};
ghost use Rattle.std.specs.Io.{ReadsAtMost};
ghost use Rattle.std.specs.Io.KnownBytes.{Keeps, Consumes, IsAtEnd};
ghost use Rattle.outside.specs.Behind.{nothing_behind};
ghost use Rattle.outside.specs.Faults.{HasCause};

use crate::{Source, Trouble};
use std::alloc::Global;
use std::io;
use std::io::{ErrorKind, Read};

/// A source over a reader of std. It tells what the reader tells. Each read makes one call of the reader's
/// `read`, and makes it again where the system interrupted it; each other `Err` of it is a fault. Once the reader
/// has given no bytes it is not called again.
#[derive(Drop)]
pub struct ReadSource<R: Read> {
    reader: R,
    has_ended: bool,
    faults: u64,
    ghost at_end: { has_ended ≡ true → (bytes : List ℕ) → R.remaining reader ≡ Some bytes → bytes ≡ [] },
}

impl<R: Read> ReadSource<R> {
    /// A source of what this reader gives.
    pub fn new(reader: R) -> ReadSource<R>
        ensures left { ⟦<ReadSource<R> as Source>⟧.left result ≡ R.remaining reader }
        ensures faults { ⟦<ReadSource<R> as Source>⟧.faults result ≡ 0 }
    {
        ReadSource {
            reader,
            has_ended: false,
            faults: 0,
        }
    }
}

impl<R: Read> Source for ReadSource<R> {
    ghost use Rattle.outside.specs.ReadSource.{reader_of, reader_ended, reader_faults};

    ghost left = { λ s. R.remaining s.reader };

    ghost ended = { reader_ended };

    ghost faults = { reader_faults };

    ghost behind = { λ s. nothing_behind };

    fn read(&mut self, alloc: Global, max: usize) -> Result<Vec<u8>, Trouble>
        requires { 1 ≤ max }
        ensures most { IfOk result (λ bytes. vec_len bytes ≤ max) }
        ensures bytes { MatchResult result
            (λ bytes. Consumes (R.remaining (reader_of self.old)) (R.remaining (reader_of self.new)) bytes.items)
            (λ _. Keeps (R.remaining (reader_of self.old)) (R.remaining (reader_of self.new))) }
        ensures end { IfOk result (λ bytes. bytes.items ≡ [] →
            IsTrue (reader_ended self.new) × IsAtEnd (R.remaining (reader_of self.new))) }
        ensures stays { IsTrue (reader_ended self.old) →
            IsTrue (reader_ended self.new) × IfOk result (λ bytes. bytes.items ≡ []) }
        ensures cause { HasCause (reader_faults self.old) (reader_faults self.new) result }
        ensures behind { nothing_behind ≡ nothing_behind }

        // Only an empty answer ends it.
        ensures ended { MatchResult result
            (λ bytes. IsTrue (reader_ended self.new) → bytes.items ≡ [])
            (λ _. reader_ended self.new ≡ reader_ended self.old) }

        // Where memory is wanted, the reader was not called.
        ensures memory { IsErrOf result Trouble.Memory → self.new ≡ self.old }
    {
        if self.has_ended {
            return Ok(Vec::new(alloc));
        }
        let mut bytes = vec![in alloc; 0; max]?;
        match read_again(&mut self.reader, &mut bytes) {
            Ok(n) => {
                bytes.truncate(n);
                self.has_ended = n == 0;
                Ok(bytes)
            }
            Err(_) => {
                self.faults = self.faults.saturating_add(1);
                Err(Trouble::Fault)
            }
        }
    }
}

// One read, made again where the system interrupted it.
fn read_again<R: Read>(reader: &mut R, bytes: &mut [u8]) -> io::Result<usize>
    ensures most { ReadsAtMost result bytes.new }
    ensures bytes { IfOk result (λ n. Consumes (R.remaining reader.old) (R.remaining reader.new) (take n bytes.new)) }
    ensures end { IfOk result (λ n. n ≡ 0 → 0 < length bytes.old → IsAtEnd (R.remaining reader.new)) }
    ensures err { OnErr result (Keeps (R.remaining reader.old) (R.remaining reader.new)) }
{
    for _ in 0..u64::MAX {
        match reader.read(bytes) {
            Ok(n) => return Ok(n),
            Err(e) => {
                if e.kind() != ErrorKind::Interrupted {
                    return Err(e);
                }
            }
        }
    }
    Err(io::Error::from(ErrorKind::Interrupted))
}
