// The containers of its own that a session used.
ghost use Rattle.std.specs.Prelude.{◌<◌, ◌≤◌, ℕ, List, Contains};
ghost use Rattle.ss_base.specs.declared.ids.ContainerId.{ContainerId};
ghost use Rattle.journal_entry.specs.declared.entry.Entry.{Entry};
ghost use Rattle.history.specs.OwnEnd.{own_end};
ghost use Rattle.history_laws.specs.OwnUse.{UsesOwn};

/// `own_end` is the least number that is above each ordinal of the session's own containers that it used.
pub fn own_end_is_least()
    ensures above { (past : List Entry) (session : ℕ) (entry : Entry) (id : ContainerId) → Contains past entry
        → UsesOwn session id entry.point → id.ordinal < own_end session past }
    ensures least { (past : List Entry) (session n : ℕ)
        → ((entry : Entry) (id : ContainerId) → Contains past entry → UsesOwn session id entry.point → id.ordinal < n)
        → own_end session past ≤ n }
{}
