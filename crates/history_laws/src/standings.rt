// What stands at a hook.
ghost use Rattle.std.specs.Prelude.{◌≡◌, ◌==◌, ◌≤◌, ℕ, List, true, length, map, All, Contains};
ghost use Rattle.std.specs.List.{IsDistinct};
ghost use Rattle.ss_base.specs.declared.ids.Standing.{Standing};
ghost use Rattle.ss_base.specs.declared.name.Name.{Name};
ghost use Rattle.ss_base.specs.Ids.{same_manifest};
ghost use Rattle.journal_entry.specs.declared.entry.Entry.{Entry};
ghost use Rattle.history.specs.declared.rules.Rules.{Rules};
ghost use Rattle.history.specs.StandingList.{standing};
ghost use Rattle.history.specs.Legal.{is_legal};
ghost use Rattle.history_laws.specs.Stands.{MayStand, HasChosen};

/// What stands at a hook is a committed manifest of a session that is neither aborted nor deleted, with the number of
/// its Commit; the session's last choice before that has the hook; and it stands there once. There are at most as many
/// as the bound. Standings at two hooks have the same manifest exactly where they have the same stamp.
pub fn what_stands()
    ensures committed { (rules : Rules) (past : List Entry) (bound : ℕ) (hook : Name) → is_legal rules past ≡ true
        → All (λ stands. MayStand stands past) (standing bound hook past) }
    ensures chosen { (rules : Rules) (past : List Entry) (bound : ℕ) (hook : Name) → is_legal rules past ≡ true
        → All (λ stands. HasChosen hook stands past) (standing bound hook past) }
    ensures bounded { (rules : Rules) (past : List Entry) (bound : ℕ) (hook : Name) → is_legal rules past ≡ true
        → length (standing bound hook past) ≤ bound }
    ensures once { (rules : Rules) (past : List Entry) (bound : ℕ) (hook : Name) → is_legal rules past ≡ true
        → IsDistinct same_manifest (map (λ (stands : Standing). stands.id) (standing bound hook past)) }
    ensures stamps { (rules : Rules) (past : List Entry) (bound : ℕ) (hook other : Name) (a b : Standing) → is_legal rules past ≡ true
        → Contains (standing bound hook past) a → Contains (standing bound other past) b
        → same_manifest a.id b.id ≡ (a.stamp == b.stamp) }
{}
