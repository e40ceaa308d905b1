// Streams and their names.
ghost use Rattle.std.specs.Prelude.{◌≡◌, ◌≤◌, ℕ, List, true, Some, Contains, count_by};
ghost use Rattle.journal_entry.specs.declared.entry.Entry.{Entry};
ghost use Rattle.history.specs.declared.rules.Rules.{Rules};
ghost use Rattle.history.specs.Sessions.{sessions_under, is_retained, retained};
ghost use Rattle.history.specs.Legal.{is_legal};

/// Of the sessions that reserved a name, at most one is retained, and it is the one that the name stands for.
pub fn one_retained()
    ensures once { (rules : Rules) (past : List Entry) (name : List ℕ) → is_legal rules past ≡ true
        → count_by (λ session. is_retained session past) (sessions_under name past) ≤ 1 }
    ensures found { (rules : Rules) (past : List Entry) (name : List ℕ) (session : ℕ) → is_legal rules past ≡ true
        → Contains (sessions_under name past) session → is_retained session past ≡ true → retained name past ≡ Some session }
{}
