// The entries of a legal history.
ghost use Rattle.std.specs.Prelude.{◌≡◌, ◌≤◌, ◌∷◌, ◌++◌, List, All, true};
ghost use Rattle.journal_entry.specs.declared.entry.Entry.{Entry};
ghost use Rattle.history.specs.declared.rules.Rules.{Rules};
ghost use Rattle.history.specs.Bounds.{IsWithinBounds};
ghost use Rattle.history.specs.Legal.{is_legal};

/// The older entries of a legal history are a legal history.
pub fn legal_prefix()
    ensures { (rules : Rules) (newer older : List Entry) → is_legal rules (newer ++ older) ≡ true → is_legal rules older ≡ true }
{}

/// Each entry of a legal history is within the bounds of an entry, where a segment has at most 255 champions.
pub fn entries_within_bounds()
    ensures newest { (rules : Rules) (entry : Entry) (past : List Entry) → rules.champions ≤ 255
        → is_legal rules (entry ∷ past) ≡ true → IsWithinBounds entry }
    ensures each { (rules : Rules) (past : List Entry) → rules.champions ≤ 255 → is_legal rules past ≡ true
        → All IsWithinBounds past }
{}
