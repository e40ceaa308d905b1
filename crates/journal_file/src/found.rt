// The entries that were found in a journal so far.
ghost use Rattle.std.specs.Prelude.{◌≡◌, ◌≤◌, ◌<◌, [], ◌∷◌, ◌++◌, length, IfOk, IfErr, IfSome, IfNone, OnOk};
ghost use Rattle.journal_entry.specs.Bounds.{IsEntry, Begins, PointIsWithinBounds};
ghost use Rattle.journal_entry.specs.EntryText.{entry_text, entries_text};
ghost use Rattle.journal_entry.specs.Weight.{point_weight};
ghost use Rattle.journal_file.specs.Journal.{FitsJournal};
ghost use Rattle.journal_file.specs.Scan.{longest_entry, AreFound, NoneBegins, NoneWillBegin, IsBadFor, IsBodyFault};

use crate::JournalFault;
use crate::limits::{MAX_ENTRIES, MAX_WEIGHT};
use journal_entry::{Entry, Point, decode_entry, point_weight};
use std::alloc::Global;

// The length of the longest text of an entry: that of a choice with the longest lists.
const LONGEST_ENTRY: usize = 133_124;

/// Entries, with their weight and the place behind the last of them, in bytes.
#[derive(Drop)]
pub(crate) struct Found {
    pub(crate) entries: Vec<Entry>,
    pub(crate) weight: u32,
    pub(crate) place: u64,
}

impl Found {
    /// Adds the next entry, whose text has this length. It is refused where a journal has no room for it.
    fn add(&mut self, entry: Entry, len: usize) -> Result<(), JournalFault>
        requires valid { IsEntry entry }
        requires text { len ≡ length (entry_text entry) }
        requires before { AreFound self.old.entries.items self.old.weight self.old.place }
        ensures ok { OnOk result (self.new.entries.items ≡ self.old.entries.items ++ entry ∷ []) }
        ensures after { OnOk result (AreFound self.new.entries.items self.new.weight self.new.place) }
        ensures full { IfErr result (λ fault. IsBadFor fault self.old.place
            (FitsJournal (self.old.entries.items ++ entry ∷ []) → ⊥)) }
    {
        let weight = weight_of(&entry.point);
        if self.entries.len() == MAX_ENTRIES || weight > MAX_WEIGHT - self.weight {
            return Err(JournalFault::BadEntry(self.place));
        }
        self.entries.push(entry)?;
        self.weight += weight;
        self.place += len as u64;
        Ok(())
    }
}

#[tactic(auto, unfolding(journal_entry::specs::Weight::point_weight))]
fn weight_of(point: &Point) -> u32
    requires { PointIsWithinBounds point.now }
    ensures weight { result ≡ point_weight point.now }
    ensures most { result ≤ 4096 }
{
    point_weight(point) as u32
}

/// The entry that begins the bytes, and the length of its text; `None` where it may still come whole. `place` is
/// where the bytes stand.
fn next_entry(
    alloc: Global,
    bytes: &[u8],
    place: u64,
) -> Result<Option<(Entry, usize)>, JournalFault>
    ensures found { IfOk result (λ answer. IfSome answer (λ found. Begins found.0 found.1 bytes.now)) }
    ensures short { IfOk result (λ answer. IfNone answer (length bytes.now < longest_entry)) }
    ensures none { IfOk result (λ answer. IfNone answer (NoneBegins bytes.now)) }
    ensures bad { IfErr result (λ fault. IsBadFor fault place (NoneWillBegin bytes.now)) }
{
    match decode_entry(alloc, bytes)? {
        None if bytes.len() >= LONGEST_ENTRY => Err(JournalFault::BadEntry(place)),
        answer => Ok(answer),
    }
}

/// Takes the entries off the front of the bytes while they are whole, and gives the bytes behind them.
pub(crate) fn take_entries<'a>(
    alloc: Global,
    found: &mut Found,
    bytes: &'a [u8],
) -> Result<&'a [u8], JournalFault>
    requires { AreFound found.old.entries.items found.old.weight found.old.place }
    ensures text { IfOk result (λ rest. entries_text found.old.entries.items ++ bytes.now
        ≡ entries_text found.new.entries.items ++ rest.now) }
    ensures found { OnOk result (AreFound found.new.entries.items found.new.weight found.new.place) }
    ensures short { IfOk result (λ rest. length rest.now < longest_entry) }
    ensures none { IfOk result (λ rest. NoneBegins rest.now) }
    ensures bad { IfErr result (λ fault. IsBodyFault fault (entries_text found.old.entries.items ++ bytes.now)) }
{
    let mut rest = bytes;
    while let Some((entry, len)) = next_entry(alloc, rest, found.place)? {
        found.add(entry, len)?;
        rest = rest.split_at(len).1;
    }
    Ok(rest)
}
