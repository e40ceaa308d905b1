// More entries of a journal.
ghost use Rattle.std.specs.Prelude.{◌≡◌, ◌≤◌, [], All, IfOk, IsOk, MatchResult};
ghost use Rattle.std.specs.List.{AllByRecursion};
ghost use Rattle.outside.specs.Shelf.{AppendLeaves};
ghost use Rattle.journal_entry.specs.Bounds.{IsEntry, IsWithinBounds};
ghost use Rattle.journal_entry.specs.EntryText.{entries_text};
ghost use Rattle.journal_file.specs.Cause.{AppendCount};
ghost use Rattle.journal_file.specs.Header.{journal_name};
ghost use Rattle.journal_file.specs.Adding.{with_entries, with_write};

use crate::AppendFault;
use crate::fitting::entries_fit;
use journal_entry::{Entry, encode_entry};
use outside::Shelf;
use ss_base::Memory;
use std::alloc::Global;

/// Adds the texts of these entries to the journal, by one call; where there are none, by no call. After an `Err`
/// a front of their texts may stand behind the old bytes, perhaps none of them.
pub fn append<S: Shelf>(alloc: Global, shelf: &mut S, entries: &[Entry]) -> Result<(), AppendFault>
    requires { All IsWithinBounds entries.now }
    ensures held { MatchResult result
        (λ _. S.held shelf.new ≡ with_entries (S.held shelf.old) entries.now)
        (λ _. AppendLeaves (S.held shelf.old) (S.held shelf.new) journal_name (entries_text entries.now)) }
    ensures wrote { MatchResult result
        (λ _. S.wrote shelf.new ≡ with_write (S.wrote shelf.old) entries.now)
        (λ _. S.wrote shelf.new ≡ S.wrote shelf.old) }
    ensures none { entries.now ≡ [] → IsOk result × (shelf.new ≡ shelf.old) }

    // Each of them can be read from its text, whatever the answer.
    ensures entries { AllByRecursion IsEntry entries.now }

    ensures gave { S.gave shelf.new ≡ S.gave shelf.old }
    ensures erased { S.erased shelf.new ≡ S.erased shelf.old }
    ensures reads { S.reads shelf.new ≡ S.reads shelf.old }
    ensures later { S.faults shelf.old ≤ S.faults shelf.new }
    ensures count { AppendCount result (S.faults shelf.old) (S.faults shelf.new) }
{
    entries_fit(entries);
    if entries.is_empty() {
        return Ok(());
    }
    let text = text_of(alloc, entries)?;
    shelf.append("journal", &text)?;
    Ok(())
}

fn text_of(alloc: Global, entries: &[Entry]) -> Result<Vec<u8>, Memory>
    requires { All IsWithinBounds entries.now }
    ensures text { IfOk result (λ text. text.items ≡ entries_text entries.now) }
{
    let mut text = Vec::new(alloc);
    for entry in entries {
        text.extend_from_slice(&encode_entry(alloc, entry)?)?;
    }
    Ok(text)
}
