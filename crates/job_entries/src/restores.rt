// The entries of a restore.
ghost use Rattle.std.specs.Prelude.{ℕ, ◌≡◌, List, ◌++◌, map, Result};
ghost use Rattle.journal_entry.specs.declared.entry.Point.{Point};
ghost use Rattle.store_core.specs.View.{StateView, made};
ghost use Rattle.depot.specs.declared.fault.RestoreFault.{RestoreFault};
ghost use Rattle.history_calls.specs.Tokens.{IdleView};
ghost use Rattle.restore.specs.Copies.{Shelves};
ghost use Rattle.restore.specs.Restores.{CallsOf, StateCalls, RestoreAnswer};
ghost use Rattle.job_entries.specs.Interleaved.{AddsPoints};
ghost use Rattle.job_entries.specs.RestorePoints.{RestorePoints};

use crate::Others;

/// A restore adds the entries that its answer says, and gives its caller back; where the caller has the state to itself,
/// just these. It runs nothing.
pub fn entries_of_a_restore<O: Others>()
    ensures beside_others { (standings champions : ℕ) (name output : List ℕ) (before after : IdleView) (shelves shelves' : Shelves) (result : Result ℕ RestoreFault)
        → RestoreAnswer (CallsOf O.others standings champions before name after) output shelves shelves' result
        → (points : List Point) × (after.author ≡ before.author) × AddsPoints O.others before.author before.seen after.seen points × RestorePoints name result points }
    ensures alone { (author : ℕ) (name output : List ℕ) (before after : StateView) (shelves shelves' : Shelves) (result : Result ℕ RestoreFault)
        → RestoreAnswer (StateCalls before author name after) output shelves shelves' result
        → (points : List Point) × (after ≡ record before { entries = before.entries ++ map (made author) points }) × RestorePoints name result points }
{}
