// The lines of entries.
ghost use Rattle.std.specs.Prelude.{◌≡◌, IfOk, string_bytes};
ghost use Rattle.report.specs.EntryLine.{entry_line};

use crate::points::push_point;
use journal_entry::Entry;
use ss_base::Memory;
use std::alloc::Global;

// Enough for most lines, in bytes.
const ROOM: usize = 96;

/// The line of the entry with this number: `NUMBER aAUTHOR`, what is printed of its point, and LF. Numbers are decimal.
/// A list is joined by commas, and an empty one is `-`.
#[tactic(auto, unfolding(crate::specs::EntryLine::entry_line))]
pub fn entry_line(alloc: Global, number: u32, entry: &Entry) -> Result<String, Memory>
    ensures { IfOk result (λ line. string_bytes line ≡ entry_line number entry.now) }
{
    let mut line = String::with_capacity(alloc, ROOM)?;
    let author = entry.author;
    write!(line, "{number} a{author} ")?;
    push_point(&mut line, &entry.point)?;
    line.push_str("\n")?;
    Ok(line)
}
