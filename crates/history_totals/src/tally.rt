// The numbers of a history, entry by entry.
ghost use Rattle.std.specs.Prelude.{◌≡◌, ◌<◌, ◌+◌, ◌^◌, nat_lt, nat_le, true, max, List, [], ◌∷◌, length, reverse, if◌then◌else◌};
ghost use Rattle.journal_entry.specs.Weight.{weight};
ghost use Rattle.history.specs.Legal.{is_allowed, is_legal, is_within, unfinished_sessions, unfinished_readings};
ghost use Rattle.history_totals.specs.Parts.{HasRoom};
ghost use Rattle.history_totals.specs.TallyOf.{commits_settled, tally_of};

use crate::parts::{starts, stops};
use crate::totals::totals_after;
use history::{Entry, Rules, Totals, point_weight};

/// The numbers of a history.
#[derive(Clone, Copy, Debug, PartialEq, Eq)]
pub struct Tally {
    pub totals: Totals,
    /// Names of hooks and containers that the entries list.
    pub weight: u32,
    /// Unfinished sessions and unfinished readings.
    pub unfinished: u32,
    /// One above the greatest author, 0 where there is no entry.
    pub next_author: u64,
}

fn later_author(next: u64, author: u32) -> u64
    ensures { result ≡ max (author + 1) next }
{
    let after = u64::from(author) + 1;
    if after < next { next } else { after }
}

// The limits fit their types.
fn limits_fit(rules: &Rules)
    ensures entries { rules.now.limits.entries < 2 ^ 32 }
    ensures weight { rules.now.limits.weight < 2 ^ 32 }
{
    let _entries = rules.limits.entries;
    let _weight = rules.limits.weight;
}

// The unfinished sessions and readings after the entry.
fn unfinished_after(unfinished: u32, rules: &Rules, before: &[Entry], entry: &Entry) -> u64
    requires legal { is_legal rules.now (reverse before.now) ≡ true }
    requires allowed { is_allowed rules.now (reverse before.now) entry.now.author entry.now.point ≡ true }
    requires agrees { unfinished ≡ unfinished_sessions (reverse before.now) + unfinished_readings (reverse before.now) }
    ensures { result ≡ unfinished_sessions (entry.now ∷ reverse before.now) + unfinished_readings (entry.now ∷ reverse before.now) }
{
    let unfinished = u64::from(unfinished);
    if starts(&entry.point) {
        return unfinished + 1;
    }
    if stops(&entry.point) {
        return unfinished - 1;
    }
    unfinished
}

// Whether the entry's weight is within the limit, beside that of the entries before it.
fn fits_weight(so_far: u32, rules: &Rules, before: &[Entry], entry: &Entry) -> bool
    requires legal { is_legal rules.now (reverse before.now) ≡ true }
    requires agrees { so_far ≡ weight (reverse before.now) }
    ensures { result ≡ nat_le (weight (entry.now ∷ reverse before.now)) rules.now.limits.weight }
{
    point_weight(&entry.point) <= (rules.limits.weight - so_far) as usize
}

impl Tally {
    /// The numbers of no entries.
    pub fn new() -> Tally
        ensures none { result ≡ tally_of [] }
        ensures room { HasRoom result.totals }
    {
        Tally {
            totals: Totals {
                streams: 0,
                bytes: 0,
                fresh: 0,
                containers: 0,
                reclaimed: 0,
                entries: 0,
            },
            weight: 0,
            unfinished: 0,
            next_author: 0,
        }
    }

    /// One entry more, which may follow the entries before it, oldest first. `commits` are the numbers of the Commits
    /// of the session that the entry finishes, or whose stream it deletes. The time is that of the entry's own lists and
    /// of those commits.
    pub fn add_entry(&mut self, rules: &Rules, before: &[Entry], entry: &Entry, commits: &[u32])
        requires legal { is_legal rules.now (entry.now ∷ reverse before.now) ≡ true }
        requires agrees { self.old ≡ tally_of (reverse before.now) }
        requires room { HasRoom self.old.totals }
        requires commits { commits.now ≡ commits_settled entry.now.point (reverse before.now) }
        ensures agrees { self.new ≡ tally_of (entry.now ∷ reverse before.now) }
        ensures room { HasRoom self.new.totals }
    {
        limits_fit(rules);
        self.totals = totals_after(self.totals, rules, before, entry, commits);
        self.weight += point_weight(&entry.point) as u32;
        self.unfinished = unfinished_after(self.unfinished, rules, before, entry) as u32;
        self.next_author = later_author(self.next_author, entry.author);
    }

    /// Whether the entry, which is allowed after the entries before it, fits the limits with them.
    pub fn fits(&self, rules: &Rules, before: &[Entry], entry: &Entry) -> bool
        requires legal { is_legal rules.now (reverse before.now) ≡ true }
        requires allowed { is_allowed rules.now (reverse before.now) entry.now.author entry.now.point ≡ true }
        requires agrees { self.now ≡ tally_of (reverse before.now) }
        ensures { result ≡ is_within rules.now.limits (entry.now ∷ reverse before.now) }
    {
        limits_fit(rules);
        let unfinished = unfinished_after(self.unfinished, rules, before, entry);
        before.len() as u64 + 1 + unfinished <= u64::from(rules.limits.entries)
            && fits_weight(self.weight, rules, before, entry)
    }

    /// The author that comes next: one above the greatest, or 0. None where the greatest is 2^32 - 1.
    pub fn next_author(&self) -> Option<u32>
        ensures { result ≡ (if nat_lt self.now.next_author (2 ^ 32) then Some self.now.next_author else None) }
    {
        u32::try_from(self.next_author).ok()
    }
}
