// A journal as it stands on a shelf.
ghost use Rattle.std.specs.Prelude.{◌≡◌, ◌≤◌, IfSome};
ghost use Rattle.outside.specs.Shelf.{bytes_of};
ghost use Rattle.journal_file.specs.Cause.{ReadCount};
ghost use Rattle.journal_file.specs.Header.{journal_name};
ghost use Rattle.journal_file.specs.Answer.{IsAnswer, HasRead};

use crate::JournalFault;
use crate::scan::Scan;
use journal_entry::Entry;
use outside::Shelf;
use ss_base::{PIECE_LEN, Profile};
use std::alloc::Global;

/// Reads the journal to its end: after one `has`, pieces of 65,536 bytes, each from where the one before ended, up
/// to the first that is empty. A refusal may end it sooner. It changes no object.
///
/// `NotStore` comes exactly where there is no journal, or its first 8 bytes are no header. `BadEntry(at)` comes
/// exactly where the bytes from the place `at` on do not begin with the text of an entry, or with that of one that
/// would be past 2^20 entries or past a weight of 2^24; `at` is the first such place.
pub fn read<S: Shelf>(alloc: Global, shelf: &mut S) -> Result<(Profile, Vec<Entry>), JournalFault>
    ensures told { IfSome (S.held shelf.old) (λ objects. IsAnswer result (bytes_of objects journal_name)) }
    ensures gave { HasRead (S.gave shelf.old) (S.gave shelf.new) (S.reads shelf.old) (S.reads shelf.new) result }

    ensures held { S.held shelf.new ≡ S.held shelf.old }
    ensures wrote { S.wrote shelf.new ≡ S.wrote shelf.old }
    ensures erased { S.erased shelf.new ≡ S.erased shelf.old }
    ensures later { S.faults shelf.old ≤ S.faults shelf.new }
    ensures count { ReadCount result (S.faults shelf.old) (S.faults shelf.new) }
{
    if !shelf.has("journal")? {
        return Err(JournalFault::NotStore);
    }
    let mut scan = Scan::new(alloc);
    let mut place = 0;
    loop {
        let piece = shelf.read(alloc, "journal", place, PIECE_LEN)?;
        if piece.is_empty() {
            return scan.finish();
        }
        scan.add(alloc, &piece)?;
        place += piece.len() as u64;
    }
}
