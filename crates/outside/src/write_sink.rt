// A sink over a writer of std.
ghost use Rattle.std.specs.Prelude.{◌≡◌, ◌<◌, take, length, IfOk, IfErr, OnErr};
ghost use Rattle.std.specs.Io.{WritesAtMost};
ghost use Rattle.std.specs.Io.KnownBytes.{Keeps, Appends};
ghost use Rattle.outside.specs.Bytes.{AppendsFront};
ghost use Rattle.outside.specs.Faults.{HasCause};

use crate::{Sink, Trouble};
use std::io;
use std::io::{ErrorKind, Write};

/// A sink over a writer of std. It tells what the writer tells. Each write makes one call of the writer's
/// `write`, and makes it again where the system interrupted it; each other `Err` of it is a fault, and so is an
/// answer of 0 for a piece that is not empty.
#[derive(Drop)]
pub struct WriteSink<W> {
    writer: W,
    faults: u64,
}

impl<W: Write> WriteSink<W> {
    /// A sink that writes to this writer.
    pub fn new(writer: W) -> WriteSink<W>
        ensures written { ⟦<WriteSink<W> as Sink>⟧.written result ≡ W.contents writer }
        ensures faults { ⟦<WriteSink<W> as Sink>⟧.faults result ≡ 0 }
    {
        WriteSink { writer, faults: 0 }
    }
}

impl<W: Write> Sink for WriteSink<W> {
    ghost use Rattle.outside.specs.WriteSink.{writer_of, writer_faults};

    ghost written = { λ s. W.contents s.writer };

    ghost faults = { writer_faults };

    fn write(&mut self, bytes: &[u8]) -> Result<usize, Trouble>
        ensures most { WritesAtMost result bytes.now }
        ensures some { IfOk result (λ n. 0 < length bytes.now → 0 < n) }
        ensures bytes { IfOk result (λ n. Appends (W.contents (writer_of self.old)) (W.contents (writer_of self.new)) (take n bytes.now)) }
        ensures err { OnErr result (AppendsFront (W.contents (writer_of self.old)) (W.contents (writer_of self.new)) bytes.now) }
        ensures cause { HasCause (writer_faults self.old) (writer_faults self.new) result }

        // It takes no memory, and where it fails nothing was written.
        ensures fault { IfErr result (λ e. e ≡ Trouble.Fault) }
        ensures none { OnErr result (Keeps (W.contents (writer_of self.old)) (W.contents (writer_of self.new))) }
    {
        if let Ok(n) = write_again(&mut self.writer, bytes) {
            if n > 0 || bytes.is_empty() {
                return Ok(n);
            }
        }
        self.faults = self.faults.saturating_add(1);
        Err(Trouble::Fault)
    }
}

// One write, made again where the system interrupted it.
fn write_again<W: Write>(writer: &mut W, bytes: &[u8]) -> io::Result<usize>
    ensures most { WritesAtMost result bytes.now }
    ensures bytes { IfOk result (λ n. Appends (W.contents writer.old) (W.contents writer.new) (take n bytes.now)) }
    ensures err { OnErr result (Keeps (W.contents writer.old) (W.contents writer.new)) }
{
    for _ in 0..u64::MAX {
        match writer.write(bytes) {
            Ok(n) => return Ok(n),
            Err(e) => {
                if e.kind() != ErrorKind::Interrupted {
                    return Err(e);
                }
            }
        }
    }
    Err(io::Error::from(ErrorKind::Interrupted))
}
