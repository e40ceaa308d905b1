// Text that is written in large pieces.
ghost use Rattle.std.specs.Prelude.{◌≡◌, ◌≤◌, ◌++◌, ◌∷◌, [], ℕ, List, length, OnOk, OnErr};
ghost use Rattle.std.specs.Io.KnownBytes.{Appends};
ghost use Rattle.outside.specs.Bytes.{AppendsFront};
ghost use Rattle.outside.specs.Faults.{HasCause};
ghost use Rattle.store_run.specs.Advances.{AdvancesByLines, Writes};
ghost use Rattle.store_run.specs.Lines.{IsLines};
ghost use Rattle.store_run.specs.SoFar.{Stage, at_end, so_far};

use crate::chunk_lines::ChunkLines;
use outside::{Sink, Trouble, write_all};
use ss_base::PIECE_LEN;
use std::alloc::Global;

/// Prints the lines that are whole with this chunk. After an `Err` a front of what waits and of the lines to come may
/// have been written.
pub fn print_chunk<L: ChunkLines, O: Sink>(
    alloc: Global,
    lines: &mut L,
    waiting: &mut Vec<u8>,
    chunk: &[u8],
    out: &mut O,
) -> Result<(), Trouble>
    requires some { 1 ≤ length chunk.now }
    requires fits { length chunk.now ≤ L.most lines.old }
    requires whole { IsLines waiting.old.items }
    ensures most { L.most lines.new ≡ L.most lines.old }
    ensures ok { OnOk result ((stage : Stage) → AdvancesByLines (O.written out.old) (O.written out.new)
        (λ later. waiting.old.items ++ L.text stage lines.old (chunk.now ∷ later))
        (λ later. waiting.new.items ++ L.text stage lines.new later)) }
    ensures none_whole { OnOk result (L.text so_far lines.new [] ≡ []) }
    ensures whole { OnOk result (IsLines waiting.new.items) }
    ensures err { OnErr result ((later : List (List ℕ)) →
        AppendsFront (O.written out.old) (O.written out.new) (waiting.old.items ++ L.text at_end lines.old
        (chunk.now ∷ later))) }
    ensures cause { HasCause (O.faults out.old) (O.faults out.new) result }
{
    let text = lines.add(alloc, chunk)?;
    print_text(out, waiting, text.as_bytes())
}

/// Prints what waits and the lines that are left at the stream's end. After an `Err` a front of them may have been
/// written.
pub fn print_rest<L: ChunkLines, O: Sink>(
    alloc: Global,
    lines: &mut L,
    waiting: &mut Vec<u8>,
    out: &mut O,
) -> Result<(), Trouble>
    ensures ok { OnOk result (Appends (O.written out.old) (O.written out.new)
        (waiting.old.items ++ L.text at_end lines.old [])) }
    ensures err { OnErr result (AppendsFront (O.written out.old) (O.written out.new)
        (waiting.old.items ++ L.text at_end lines.old [])) }
    ensures cause { HasCause (O.faults out.old) (O.faults out.new) result }
{
    let text = lines.rest(alloc)?;
    waiting.extend_from_slice(text.as_bytes())?;
    write_all(out, waiting)
}

/// Adds text to what waits, and writes what waits once it is of `PIECE_LEN` bytes. After an `Err` a front of both
/// may have been written.
pub fn print_text<O: Sink>(out: &mut O, waiting: &mut Vec<u8>, text: &[u8]) -> Result<(), Trouble>
    ensures ok { OnOk result (Writes (O.written out.old)
        (O.written out.new) waiting.old.items waiting.new.items text.now) }
    ensures err { OnErr result (AppendsFront (O.written out.old) (O.written out.new)
        (waiting.old.items ++ text.now)) }
    ensures cause { HasCause (O.faults out.old) (O.faults out.new) result }
{
    waiting.extend_from_slice(text)?;
    if waiting.len() < PIECE_LEN {
        return Ok(());
    }
    write_all(out, waiting)?;
    waiting.clear();
    Ok(())
}
