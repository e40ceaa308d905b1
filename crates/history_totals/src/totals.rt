// The totals of a history after one entry more.
ghost use Rattle.std.specs.Prelude.{◌≡◌, ◌<◌, ◌≤◌, ◌^◌, ◌∷◌, true, length, reverse};
ghost use Rattle.journal_entry.specs.declared.entry.Totals.{Totals};
ghost use Rattle.history.specs.TotalsOf.{totals};
ghost use Rattle.history.specs.Legal.{is_legal};
ghost use Rattle.history_totals.specs.Parts.{HasRoom};
ghost use Rattle.history_totals.specs.TallyOf.{commits_settled};

use crate::parts::{
    bytes_of, bytes_stored, containers_closed, gives_stream, objects_named, takes_stream,
};
use history::{Entry, Rules, Totals};

fn streams_after(streams: u64, rules: &Rules, before: &[Entry], entry: &Entry) -> u64
    requires few { length before.now < 2 ^ 32 }
    requires legal { is_legal rules.now (entry.now ∷ reverse before.now) ≡ true }
    requires agrees { streams ≡ (totals (reverse before.now)).streams }
    ensures { result ≡ (totals (entry.now ∷ reverse before.now)).streams }
{
    if gives_stream(&entry.point) {
        return streams + 1;
    }
    if takes_stream(&entry.point) {
        return streams - 1;
    }
    streams
}

fn bytes_after(bytes: u64, rules: &Rules, before: &[Entry], entry: &Entry, commits: &[u32]) -> u64
    requires few { length before.now < 2 ^ 32 }
    requires legal { is_legal rules.now (entry.now ∷ reverse before.now) ≡ true }
    requires agrees { bytes ≡ (totals (reverse before.now)).bytes }
    requires commits { commits.now ≡ commits_settled entry.now.point (reverse before.now) }
    ensures { result ≡ (totals (entry.now ∷ reverse before.now)).bytes }
{
    if gives_stream(&entry.point) {
        return bytes + bytes_of(before, commits);
    }
    if takes_stream(&entry.point) {
        return bytes - bytes_of(before, commits);
    }
    bytes
}

fn fresh_after(fresh: u64, rules: &Rules, before: &[Entry], entry: &Entry) -> u64
    requires few { length before.now < 2 ^ 32 }
    requires legal { is_legal rules.now (entry.now ∷ reverse before.now) ≡ true }
    requires agrees { fresh ≡ (totals (reverse before.now)).fresh }
    ensures { result ≡ (totals (entry.now ∷ reverse before.now)).fresh }
{
    fresh + u64::from(bytes_stored(&entry.point))
}

fn reclaimed_after(reclaimed: u64, rules: &Rules, before: &[Entry], entry: &Entry) -> u64
    requires few { length before.now < 2 ^ 32 }
    requires legal { is_legal rules.now (entry.now ∷ reverse before.now) ≡ true }
    requires agrees { reclaimed ≡ (totals (reverse before.now)).reclaimed }
    ensures { result ≡ (totals (entry.now ∷ reverse before.now)).reclaimed }
{
    reclaimed + objects_named(&entry.point) as u64
}

pub(crate) fn totals_after(
    so_far: Totals,
    rules: &Rules,
    before: &[Entry],
    entry: &Entry,
    commits: &[u32],
) -> Totals
    requires few { length before.now < 2 ^ 32 }
    requires legal { is_legal rules.now (entry.now ∷ reverse before.now) ≡ true }
    requires agrees { so_far ≡ totals (reverse before.now) }
    requires room { HasRoom so_far }
    requires commits { commits.now ≡ commits_settled entry.now.point (reverse before.now) }
    ensures sums { result ≡ totals (entry.now ∷ reverse before.now) }
    ensures room { HasRoom result }
{
    Totals {
        streams: streams_after(so_far.streams, rules, before, entry),
        bytes: bytes_after(so_far.bytes, rules, before, entry, commits),
        fresh: fresh_after(so_far.fresh, rules, before, entry),
        containers: so_far.containers + u64::from(containers_closed(&entry.point)),
        reclaimed: reclaimed_after(so_far.reclaimed, rules, before, entry),
        entries: so_far.entries + 1,
    }
}
