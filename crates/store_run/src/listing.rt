// `journal`: one line for each entry of a store's history.
ghost use Rattle.std.specs.Prelude.{◌+◌, ◌≤◌, ◌++◌, length, OnOk, OnErr};
ghost use Rattle.std.specs.Io.KnownBytes.{Appends};
ghost use Rattle.outside.specs.Bytes.{AppendsFront};
ghost use Rattle.outside.specs.Faults.{HasCause};
ghost use Rattle.outside.specs.Views.{sink_view, shelf_view};
ghost use Rattle.journal_file.specs.declared.limits.TheConstants.{MAX_ENTRIES};
ghost use Rattle.store_run.specs.Advances.{Moves};
ghost use Rattle.store_run.specs.EntryLines.{entry_lines};
ghost use Rattle.store_run.specs.Listing.{JournalAnswer};

use crate::fault_lines::refuse;
use crate::opening::open;
use crate::printing::print_text;
use history::Entry;
use outside::{Shelf, Sink, Trouble, write_all};
use report::entry_line;
use std::alloc::Global;

/// Prints the entries of the store's journal, and answers the status.
pub fn list_journal<O: Sink, K: Shelf>(alloc: Global, depot: &mut K, out: &mut O) -> u8
    ensures { JournalAnswer (shelf_view ⟦<K as Shelf>⟧ depot.old) (shelf_view ⟦<K as Shelf>⟧ depot.new)
        (sink_view ⟦<O as Sink>⟧ out.old) (sink_view ⟦<O as Sink>⟧ out.new) result }
{
    let state = match open(alloc, depot) {
        Ok(state) => state,
        Err(why) => return refuse(alloc, out, &[], why),
    };
    match print_all(alloc, state.entries(), out) {
        Ok(()) => 0,
        Err(Trouble::Memory) => 8,
        Err(Trouble::Fault) => 9,
    }
}

fn print_all<O: Sink>(alloc: Global, entries: &[Entry], out: &mut O) -> Result<(), Trouble>
    requires { length entries.now ≤ MAX_ENTRIES }
    ensures ok { OnOk result (Appends (O.written out.old) (O.written out.new) (entry_lines 0 entries.now)) }
    ensures err { OnErr result (AppendsFront (O.written out.old) (O.written out.new) (entry_lines 0 entries.now)) }
    ensures cause { HasCause (O.faults out.old) (O.faults out.new) result }
{
    let mut waiting = Vec::new(alloc);
    print_entries(alloc, 0, entries, &mut waiting, out)?;
    write_all(out, &waiting)
}

/// Prints the lines of entries, the first of which has this number, behind what waits; some of them wait then. After
/// an `Err` a front of all may have been written.
pub fn print_entries<O: Sink>(
    alloc: Global,
    first: u32,
    entries: &[Entry],
    waiting: &mut Vec<u8>,
    out: &mut O,
) -> Result<(), Trouble>
    requires { first + length entries.now ≤ MAX_ENTRIES }
    ensures ok { OnOk result (Moves (O.written out.old) (O.written out.new)
        waiting.old.items waiting.new.items (entry_lines first entries.now)) }
    ensures err { OnErr result (AppendsFront (O.written out.old) (O.written out.new)
        (waiting.old.items ++ entry_lines first entries.now)) }
    ensures cause { HasCause (O.faults out.old) (O.faults out.new) result }
{
    let mut number = first;
    let mut rest = entries;
    while let Some((entry, behind)) = rest.split_first() {
        let line = entry_line(alloc, number, entry)?;
        print_text(out, waiting, line.as_bytes())?;
        number += 1;
        rest = behind;
    }
    Ok(())
}
