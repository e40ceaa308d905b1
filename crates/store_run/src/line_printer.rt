// From the bytes of a stream to printed lines, in one pass.
ghost use Rattle.std.specs.Prelude.{◌≡◌, ◌≤◌, ◌++◌, ℕ, List, [], IfOk, OnOk, OnErr};
ghost use Rattle.std.specs.Io.KnownBytes.{Appends};
ghost use Rattle.outside.specs.Bytes.{AppendsFront};
ghost use Rattle.ss_base.specs.Profile.{numbers_of};
ghost use Rattle.store_run.specs.Advances.{AdvancesByLines};
ghost use Rattle.store_run.specs.LinePrinter.{still, Fits, IsUpToDate};
ghost use Rattle.store_run.specs.Lines.{IsLines};
ghost use Rattle.store_run.specs.SoFar.{Stage, at_end, so_far, chunks_of};
ghost use Rattle.store_run.specs.Halt.{OnEarly, OnUnprinted, CountsSink};

use crate::chunk_lines::ChunkLines;
use crate::printing::{print_chunk, print_rest};
use crate::stop::{Halt, Stop};
use outside::Sink;
use ss_base::{Memory, Profile};
use std::alloc::Global;
use tttd_chunker::Chunker;

/// Prints a stream's lines while its bytes come.
#[derive(Drop)]
pub struct LinePrinter<L: ChunkLines> {
    chunker: Chunker,
    lines: L,
    // Lines that are not written yet.
    waiting: Vec<u8>,
}

impl<L: ChunkLines> LinePrinter<L> {
    /// A printer at the start of a stream.
    pub fn new(alloc: Global, profile: Profile, lines: L) -> Result<Self, Memory>
        requires fits { (numbers_of profile).tmax ≤ L.most lines }
        requires none_whole { L.text so_far lines [] ≡ [] }
        ensures fits { IfOk result (Fits L.most) }
        ensures text { IfOk result (λ printer. (stage : Stage) (more : List ℕ) →
            still L.text stage printer more ≡ L.text stage lines (chunks_of stage (numbers_of profile) more)) }
        ensures up_to_date { IfOk result (IsUpToDate L.text) }
        ensures whole { IfOk result (λ printer. IsLines printer.waiting.items) }
    {
        Ok(LinePrinter {
            chunker: Chunker::new(alloc, profile)?,
            lines,
            waiting: Vec::new(alloc),
        })
    }

    /// The lines that are not written yet.
    pub fn waiting(&self) -> &[u8]
        ensures { result.now ≡ self.now.waiting.items }
    {
        &self.waiting
    }

    /// Adds the next bytes of the stream.
    pub fn push(&mut self, bytes: &[u8]) -> Result<(), Memory>
        requires { Fits L.most self.old }
        ensures fits { Fits L.most self.new }
        ensures lines { self.new.lines ≡ self.old.lines }
        ensures waiting { self.new.waiting ≡ self.old.waiting }
        ensures ok { OnOk result ((stage : Stage) (more : List ℕ) →
            still L.text stage self.new more ≡ still L.text stage self.old (bytes.now ++ more)) }
        ensures err { OnErr result
            ((stage : Stage) (more : List ℕ) → still L.text stage self.new more ≡ still L.text stage self.old more) }
    {
        self.chunker.push(bytes)
    }

    /// Prints the lines of the chunks that are whole.
    pub fn print_ready<O: Sink>(&mut self, alloc: Global, out: &mut O) -> Result<(), Halt>
        requires fits { Fits L.most self.old }
        requires none_whole { L.text so_far self.old.lines [] ≡ [] }
        requires whole { IsLines self.old.waiting.items }
        ensures fits { Fits L.most self.new }
        ensures ok { OnOk result ((stage : Stage) → AdvancesByLines (O.written out.old) (O.written out.new)
            (still L.text stage self.old) (still L.text stage self.new)) }
        ensures up_to_date { OnOk result (IsUpToDate L.text self.new) }
        ensures whole { OnOk result (IsLines self.new.waiting.items) }
        ensures early { OnEarly result (λ why. (why ≡ Stop.Memory)
            × (AdvancesByLines (O.written out.old) (O.written out.new) (still L.text so_far self.old)
            (still L.text so_far self.new) × IsLines self.new.waiting.items)) }
        ensures unprinted { OnUnprinted result (AppendsFront (O.written out.old) (O.written out.new)
            (still L.text at_end self.old [])) }
        ensures count { CountsSink result (O.faults out.old) (O.faults out.new) }
    {
        while let Some(chunk) = self.chunker.next(alloc)? {
            print_chunk(alloc, &mut self.lines, &mut self.waiting, &chunk, out)?;
        }
        Ok(())
    }

    /// Prints all that is left at the stream's end.
    pub fn finish<O: Sink>(&mut self, alloc: Global, out: &mut O) -> Result<(), Halt>
        requires fits { Fits L.most self.old }
        requires up_to_date { IsUpToDate L.text self.old }
        requires whole { IsLines self.old.waiting.items }
        ensures ok { OnOk result (Appends (O.written out.old) (O.written out.new)
            (still L.text at_end self.old [])) }
        ensures early { OnEarly result (λ why. (why ≡ Stop.Memory)
            × (AdvancesByLines (O.written out.old) (O.written out.new) (still L.text so_far self.old)
            (still L.text so_far self.new) × IsLines self.new.waiting.items)) }
        ensures unprinted { OnUnprinted result (AppendsFront (O.written out.old) (O.written out.new)
            (still L.text at_end self.old [])) }
        ensures count { CountsSink result (O.faults out.old) (O.faults out.new) }
    {
        let Some(chunk) = self.chunker.rest(alloc)? else {
            return Ok(print_rest(alloc, &mut self.lines, &mut self.waiting, out)?);
        };
        print_chunk(alloc, &mut self.lines, &mut self.waiting, &chunk, out)?;
        Ok(print_rest(alloc, &mut self.lines, &mut self.waiting, out)?)
    }
}
