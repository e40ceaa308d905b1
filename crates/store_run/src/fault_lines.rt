// The lines of runs that end early.
ghost use Rattle.std.specs.Prelude.{◌≡◌, ◌++◌, ◌∷◌, [], IfOk, OnOk, OnErr, string_bytes};
ghost use Rattle.std.specs.Fmt.{decimal};
ghost use Rattle.std.specs.Io.KnownBytes.{Appends};
ghost use Rattle.outside.specs.Bytes.{AppendsFront};
ghost use Rattle.outside.specs.Faults.{HasCause};
ghost use Rattle.outside.specs.Views.{sink_view};
ghost use Rattle.store_run.specs.Run.{Refuses};
ghost use Rattle.store_run.specs.Stop.{fault_line};

use crate::stop::Stop;
use outside::{Sink, Trouble, write_all};
use ss_base::Memory;
use std::alloc::Global;

/// Prints the lines that wait and the fault line of a run that ends early, and answers its status.
pub fn refuse<O: Sink>(alloc: Global, out: &mut O, waiting: &[u8], why: Stop) -> u8
    ensures { Refuses why waiting.now (sink_view ⟦<O as Sink>⟧ out.old) (sink_view ⟦<O as Sink>⟧ out.new) result }
{
    match write_behind(alloc, out, waiting, why) {
        Ok(()) => why.status(),
        Err(Trouble::Memory) => 8,
        Err(Trouble::Fault) => why.status_beside_sink_fault(),
    }
}

pub(crate) fn write_behind<O: Sink>(
    alloc: Global,
    out: &mut O,
    waiting: &[u8],
    why: Stop,
) -> Result<(), Trouble>
    ensures ok { OnOk result (Appends (O.written out.old) (O.written out.new) (waiting.now ++ fault_line why)) }
    ensures err { OnErr result (AppendsFront (O.written out.old) (O.written out.new) (waiting.now ++ fault_line why)) }
    ensures cause { HasCause (O.faults out.old) (O.faults out.new) result }
{
    write_all(out, waiting)?;
    write_fault_line(alloc, out, why)
}

// A line without a number takes no memory.
fn write_fault_line<O: Sink>(alloc: Global, out: &mut O, why: Stop) -> Result<(), Trouble>
    ensures ok { OnOk result (Appends (O.written out.old) (O.written out.new) (fault_line why)) }
    ensures err { OnErr result (AppendsFront (O.written out.old) (O.written out.new) (fault_line why)) }
    ensures cause { HasCause (O.faults out.old) (O.faults out.new) result }
{
    match why {
        Stop::Usage => write_all(out, b"usage\n"),
        Stop::TooLong => write_all(out, b"limit stream\n"),
        Stop::Callers => write_all(out, b"limit callers\n"),
        Stop::Memory => write_all(out, b"memory\n"),
        Stop::AlreadyStore => write_all(out, b"already a store\n"),
        Stop::SourceFault => write_all(out, b"source fault\n"),
        Stop::DepotFault => write_all(out, b"depot fault\n"),
        Stop::NotStore => write_all(out, b"journal is not a store's\n"),
        Stop::BadEntry(place) => write_numbered(alloc, out, "journal bad entry at byte ", place),
        Stop::IllegalEntry(number) => {
            write_numbered(alloc, out, "journal illegal entry ", u64::from(number))
        }
        Stop::UnfinishedSession(session) => {
            write_numbered(
                alloc,
                out,
                "journal unfinished session ",
                u64::from(session),
            )
        }
        Stop::UnfinishedReading(reader) => {
            write_numbered(alloc, out, "journal unfinished reading ", u64::from(reader))
        }
    }
}

// A line of words and a number, in one piece.
fn write_numbered<O: Sink>(
    alloc: Global,
    out: &mut O,
    words: &str,
    number: u64,
) -> Result<(), Trouble>
    ensures ok { OnOk result (Appends (O.written out.old) (O.written out.new)
        (words.now ++ decimal number ++ 10 ∷ [])) }
    ensures err { OnErr result (AppendsFront (O.written out.old) (O.written out.new)
        (words.now ++ decimal number ++ 10 ∷ [])) }
    ensures cause { HasCause (O.faults out.old) (O.faults out.new) result }
{
    let line = numbered_line(alloc, words, number)?;
    write_all(out, line.as_bytes())
}

fn numbered_line(alloc: Global, words: &str, number: u64) -> Result<String, Memory>
    ensures { IfOk result (λ line. string_bytes line ≡ words.now ++ decimal number ++ 10 ∷ []) }
{
    Ok(format!(in alloc; "{words}{number}\n")?)
}
