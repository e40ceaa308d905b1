// The entries of a backup.
ghost use Rattle.std.specs.Prelude.{ℕ, ◌≡◌, List, [], ◌++◌, map, Result};
ghost use Rattle.ss_base.specs.Profile.{numbers_of};
ghost use Rattle.journal_entry.specs.declared.entry.Point.{Point};
ghost use Rattle.store_core.specs.View.{made};
ghost use Rattle.outside.specs.Views.{ShelfView};
ghost use Rattle.depot.specs.declared.fault.BackupFault.{BackupFault};
ghost use Rattle.history_calls.specs.Tokens.{IdleView};
ghost use Rattle.segment_store.specs.Loads.{Entries};
ghost use Rattle.session.specs.Backup.{BackupAnswer, input_view};
ghost use Rattle.job_entries.specs.Interleaved.{AddsPoints};
ghost use Rattle.job_entries.specs.BackupPoints.{BackupPoints};
ghost use Rattle.job_entries.specs.BackupStores.{BackupStores};

use crate::Others;

/// A backup adds the entries that its answer says, and gives its caller back; where the caller has the history to itself,
/// just these. It runs nothing.
pub fn entries_of_a_backup<O: Others>()
    ensures beside_others { (standings champions : ℕ) (files : ShelfView) (input name : List ℕ) (before : IdleView) (depot : ShelfView) (cache : Entries) (after : IdleView) (depot' : ShelfView) (cache' : Entries) (result : Result ℕ BackupFault)
        → BackupAnswer O.others standings champions files input name before depot cache after depot' cache' result
        → (points : List Point) × (after.author ≡ before.author) × AddsPoints O.others before.author before.seen after.seen points × BackupPoints name result points }
    ensures alone { (standings champions : ℕ) (files : ShelfView) (input name : List ℕ) (before : IdleView) (depot : ShelfView) (cache : Entries) (after : IdleView) (depot' : ShelfView) (cache' : Entries) (result : Result ℕ BackupFault)
        → BackupAnswer (λ came. came ≡ []) standings champions files input name before depot cache after depot' cache' result
        → (points : List Point) × (after.seen ≡ record before.seen { entries = before.seen.entries ++ map (made before.author) points }) × BackupPoints name result points }
{}

/// A backup's session has a pair of a Choose and a Commit for each segment of what its input gave, in turn, with the
/// segment's hooks, number of chunks, bytes and content digest: for each segment of the whole stream where it finished;
/// else for the first ones, with perhaps one Choose more for the next. It runs nothing.
pub fn segments_of_a_backup<O: Others>()
    ensures { (standings champions : ℕ) (files : ShelfView) (input name : List ℕ) (before : IdleView) (depot : ShelfView) (cache : Entries) (after : IdleView) (depot' : ShelfView) (cache' : Entries) (result : Result ℕ BackupFault)
        → BackupAnswer O.others standings champions files input name before depot cache after depot' cache' result
        → BackupStores O.others before.author (numbers_of before.seen.profile) (input_view files input) name before.seen after.seen result }
{}
