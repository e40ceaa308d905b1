// What the counts of a history tell.
ghost use Rattle.std.specs.Prelude.{◌≡◌, List, [], true};
ghost use Rattle.std.specs.FinMap as map;
ghost use Rattle.std.specs.FinSet as set;
ghost use Rattle.journal_entry.specs.declared.entry.Entry.{Entry};
ghost use Rattle.history.specs.declared.rules.Rules.{Rules};
ghost use Rattle.history.specs.Need.{erasable};
ghost use Rattle.history.specs.Legal.{is_legal};
ghost use Rattle.pins_counts.specs.Counts.{Counted, dead_objects};
ghost use Rattle.history_counts.specs.CountsOf.{AreCountsOf};

/// Where the counts are those of a legal history, the dead objects are what can be erased.
pub fn dead_is_erasable()
    ensures { (rules : Rules) (counted : Counted) (past : List Entry) → is_legal rules past ≡ true
        → AreCountsOf counted past → dead_objects counted ≡ erasable past }
{}

/// Counts in which nothing is counted are those of the empty history.
pub fn nothing_is_counted()
    ensures { AreCountsOf (record { numbers = map.empty; sessions = []; gone = set.empty; room = 0 }) [] }
{}
