// Holds of the manifests that some entries commit.
ghost use Rattle.std.specs.Prelude.{◌≡◌, ◌+◌, ◌-◌, ◌<◌, ◌^◌, ℕ, All, length, reverse, true};
ghost use Rattle.ss_base.specs.declared.ids.ContainerId.{ContainerId as Part};
ghost use Rattle.ss_base.specs.declared.ids.ManifestId.{ManifestId as Text};
ghost use Rattle.ss_base.specs.declared.object.Object.{Object as Stored};
ghost use Rattle.ss_base.specs.declared.object.Object.TheVariants.{Manifest};
ghost use Rattle.ss_base.specs.Ids.{has_container};
ghost use Rattle.ss_base.specs.Order.{are_ascending};
ghost use Rattle.history.specs.Need.{commits_manifest};
ghost use Rattle.history_laws.specs.EntryNumbers.{uses_listed};
ghost use Rattle.pins_counts.specs.Counts.{use_number, hold_number, is_ready, one_if};
ghost use Rattle.history_counts.specs.CountsOf.{lists_object};
ghost use Rattle.history_counts.specs.InStep.{IsHistory, Agrees, HasHolds, times, gives_up};

use history::{Entry, Point};
use pins_counts::Counts;

// Holds the manifest of each of these commits once more.
pub(crate) fn pin_all(counts: &mut Counts, before: &[Entry], numbers: &[u32])
    requires within { All (λ n. n < length before.now) numbers.now }
    requires agrees { Agrees counts.old (reverse before.now) }
    requires held { (id : Text) → 0 < times numbers.now (reverse before.now) id → 0 < hold_number counts.old id }
    requires below { (id : Text) → hold_number counts.old id + times numbers.now (reverse before.now) id < 2 ^ 32 }
    ensures agrees { Agrees counts.new (reverse before.now) }
    ensures holds { HasHolds (times numbers.now (reverse before.now)) counts.old counts.new }
{
    for n in numbers {
        pin_one(counts, &before[*n as usize]);
    }
}

// Takes one hold of the manifest of each of these commits away, and the uses of those that have none left.
pub(crate) fn release_all(counts: &mut Counts, before: &[Entry], numbers: &[u32])
    requires history { IsHistory (reverse before.now) }
    requires within { All (λ n. n < length before.now) numbers.now }
    requires agrees { Agrees counts.old (reverse before.now) }
    requires above { (id : Text) → times numbers.now (reverse before.now) id < hold_number counts.old id + 1 }
    ensures agrees { Agrees counts.new (reverse before.now) }
    ensures holds { HasHolds (times numbers.now (reverse before.now)) counts.new counts.old }
{
    for n in numbers {
        release_one(counts, &before[*n as usize]);
    }
}

// Holds the manifest that the entry commits once more.
#[tactic(auto, unfolding(history::specs::Need::commits_manifest))]
fn pin_one(counts: &mut Counts, commit: &Entry)
    requires ready { (id : Text) → commits_manifest id commit.now.point ≡ true → is_ready counts.old (Manifest id) ≡ true }
    requires below { (id : Text) → commits_manifest id commit.now.point ≡ true → hold_number counts.old id < 2 ^ 32 - 1 }
    ensures holds { HasHolds (λ id. one_if (commits_manifest id commit.now.point)) counts.old counts.new }
    ensures uses { (c : Part) → use_number counts.new c ≡ use_number counts.old c }
{
    match &commit.point {
        Point::Commit { manifest, .. } => counts.pin(*manifest),
        _ => {}
    }
}

// Takes one hold of the manifest that the entry commits away, and its uses where it has none left.
#[tactic(auto, unfolding(history::specs::Need::commits_manifest, history_laws::specs::EntryNumbers::uses_listed, crate::specs::InStep::gives_up, crate::specs::CountsOf::lists_object))]
fn release_one(counts: &mut Counts, commit: &Entry)
    requires ready { (q : Stored) → lists_object q commit.now.point ≡ true → is_ready counts.old q ≡ true }
    requires above { (id : Text) → commits_manifest id commit.now.point ≡ true → 0 < hold_number counts.old id }
    requires used { (c : Part) → has_container c (uses_listed commit.now.point) ≡ true → 0 < use_number counts.old c }
    requires ascending { are_ascending (uses_listed commit.now.point) ≡ true }
    ensures holds { HasHolds (λ id. one_if (commits_manifest id commit.now.point)) counts.new counts.old }
    ensures uses { (c : Part) → use_number counts.old c ≡ use_number counts.new c + one_if (gives_up counts.new c commit.now.point) }
{
    match &commit.point {
        Point::Commit { manifest, uses, .. } => {
            counts.unpin(*manifest);
            if counts.holds(*manifest) == 0 {
                counts.drop_uses(uses.as_slice());
            }
        }
        _ => {}
    }
}
