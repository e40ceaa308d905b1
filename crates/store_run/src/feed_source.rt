// A source's bytes are fed to a printer of lines.
ghost use Rattle.std.specs.Prelude.{OnOk};
ghost use Rattle.outside.specs.Views.{source_view, sink_view};
ghost use Rattle.store_run.specs.Feed.{IsPrinted, IsHalted, IsCutShort};
ghost use Rattle.store_run.specs.Halt.{OnEarly, OnUnprinted, CountsSource, CountsSink};
ghost use Rattle.store_run.specs.LinePrinter.{still, Fits, IsUpToDate};
ghost use Rattle.store_run.specs.Lines.{IsLines};
ghost use Rattle.store_run.specs.SoFar.{at_end, so_far};

use crate::chunk_lines::ChunkLines;
use crate::line_printer::LinePrinter;
use crate::stop::{Halt, Stop};
use outside::{Sink, Source, Trouble};
use ss_base::PIECE_LEN;
use std::alloc::Global;

/// Prints the lines of the source's bytes, which it reads in pieces of at most 65,536 and to their end. `TooLong`
/// comes exactly where a piece brings the bytes above `limit`, `SourceFault` where the first read failed.
pub fn feed<L: ChunkLines, S: Source, O: Sink>(
    alloc: Global,
    source: &mut S,
    limit: usize,
    printer: &mut LinePrinter<L>,
    out: &mut O,
) -> Result<(), Halt>
    requires fits { Fits L.most printer.old }
    requires up_to_date { IsUpToDate L.text printer.old }
    requires whole { IsLines printer.old.waiting.items }
    ensures ok { OnOk result (IsPrinted limit
        (source_view ⟦<S as Source>⟧ source.old) (source_view ⟦<S as Source>⟧ source.new)
        (sink_view ⟦<O as Sink>⟧ out.old) (sink_view ⟦<O as Sink>⟧ out.new) (still L.text at_end printer.old)) }
    ensures early { OnEarly result (λ why. IsHalted why limit
        (source_view ⟦<S as Source>⟧ source.old) (source_view ⟦<S as Source>⟧ source.new)
        (sink_view ⟦<O as Sink>⟧ out.old) (sink_view ⟦<O as Sink>⟧ out.new)
        (still L.text so_far printer.old) printer.new.waiting.items) }
    ensures unprinted { OnUnprinted result (IsCutShort
        (source_view ⟦<S as Source>⟧ source.old) (source_view ⟦<S as Source>⟧ source.new)
        (sink_view ⟦<O as Sink>⟧ out.old) (sink_view ⟦<O as Sink>⟧ out.new) (still L.text at_end printer.old)) }
    ensures source_count { CountsSource result (S.faults source.old) (S.faults source.new) }
    ensures sink_count { CountsSink result (O.faults out.old) (O.faults out.new) }
{
    let mut taken = 0;
    loop {
        let piece = match source.read(alloc, PIECE_LEN) {
            Ok(piece) => piece,
            Err(Trouble::Fault) => return Err(Halt::Early(Stop::SourceFault)),
            Err(Trouble::Memory) => return Err(Halt::Early(Stop::Memory)),
        };
        if piece.is_empty() {
            return printer.finish(alloc, out);
        }
        if piece.len() > limit - taken {
            return Err(Halt::Early(Stop::TooLong));
        }
        taken += piece.len();
        printer.push(&piece)?;
        printer.print_ready(alloc, out)?;
    }
}
