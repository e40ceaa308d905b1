// What bytes are written to.
ghost use Rattle.std.specs.Prelude.{◌≡◌, ◌<◌, ◌≤◌, ℕ, List, Option, take, length, IfOk, OnOk, OnErr};
ghost use Rattle.std.specs.Io.{WritesAtMost};
ghost use Rattle.std.specs.Io.KnownBytes.{Appends};
ghost use Rattle.outside.specs.Bytes.{AppendsFront};
ghost use Rattle.outside.specs.Faults.{HasCause};

use crate::Trouble;

/// A sink for bytes, which are written one behind the other.
pub trait Sink {
    /// The bytes written so far, where they are told.
    ghost written: { Self → Option (List ℕ) };

    /// How often this sink has failed.
    ghost faults: { Self → ℕ };

    /// Writes a front of `bytes` and answers its length, which is 0 for the empty piece alone. After an `Err`
    /// a front of `bytes` may have been written, perhaps none of them.
    fn write(&mut self, bytes: &[u8]) -> Result<usize, Trouble>
        ensures most { WritesAtMost result bytes.now }
        ensures some { IfOk result (λ n. 0 < length bytes.now → 0 < n) }
        ensures bytes { IfOk result (λ n. Appends (written self.old) (written self.new) (take n bytes.now)) }
        ensures err { OnErr result (AppendsFront (written self.old) (written self.new) bytes.now) }
        ensures cause { HasCause (faults self.old) (faults self.new) result };
}

/// Writes all of `bytes`. After an `Err` a front of them may have been written, perhaps none of them.
pub fn write_all<O: Sink>(out: &mut O, bytes: &[u8]) -> Result<(), Trouble>
    ensures ok { OnOk result (Appends (O.written out.old) (O.written out.new) bytes.now) }
    ensures err { OnErr result (AppendsFront (O.written out.old) (O.written out.new) bytes.now) }
    ensures cause { HasCause (O.faults out.old) (O.faults out.new) result }
{
    let mut rest = bytes;
    while !rest.is_empty() {
        let taken = out.write(rest)?;
        rest = rest.split_at(taken).1;
    }
    Ok(())
}
