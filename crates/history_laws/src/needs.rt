// What is needed no more stays so.
ghost use Rattle.std.specs.Prelude.{◌≡◌, ◌∷◌, ◌++◌, ◌||◌, nat_lt, ℕ, List, true, false, Contains};
ghost use Rattle.std.specs.List.{IsDistinct};
ghost use Rattle.ss_base.specs.declared.ids.ContainerId.{ContainerId};
ghost use Rattle.ss_base.specs.declared.ids.ManifestId.{ManifestId};
ghost use Rattle.ss_base.specs.declared.object.Object.{Object};
ghost use Rattle.ss_base.specs.Ids.{same_object, has_manifest};
ghost use Rattle.journal_entry.specs.declared.entry.Entry.{Entry};
ghost use Rattle.history.specs.declared.rules.Rules.{Rules};
ghost use Rattle.history.specs.Sessions.{is_closed, is_unfinished, has, pending_champions};
ghost use Rattle.history.specs.Need.{commits_manifest, is_live, is_needed, is_wanted, erasable, reclaims};
ghost use Rattle.history.specs.Legal.{is_legal};
ghost use Rattle.history_laws.specs.Recount.{holds, uses_of};

/// A committed manifest is live exactly where it is held, and a container of a session that is not unfinished is needed
/// exactly where it has a use.
pub fn numbers_tell()
    ensures live { (past : List Entry) (id : ManifestId) → has (commits_manifest id) past ≡ true
        → is_live id past ≡ nat_lt 0 (holds id past) }
    ensures needed { (past : List Entry) (id : ContainerId) → is_needed id past
        ≡ (is_unfinished id.session past || nat_lt 0 (uses_of id past)) }
{}

/// A champion of a pending choice is live, so that its containers are needed.
pub fn pending_is_live()
    ensures { (rules : Rules) (past : List Entry) (session : ℕ) (id : ManifestId) → is_legal rules past ≡ true
        → has_manifest id (pending_champions session past) ≡ true → is_live id past ≡ true }
{}

/// A manifest of a closed session that is not live never becomes live again.
pub fn never_live_again()
    ensures { (rules : Rules) (newer older : List Entry) (id : ManifestId) → is_legal rules (newer ++ older) ≡ true
        → is_closed id.session older ≡ true → is_live id older ≡ false → is_live id (newer ++ older) ≡ false }
{}

/// A container of a closed session that is not needed never becomes needed again.
pub fn never_needed_again()
    ensures { (rules : Rules) (newer older : List Entry) (id : ContainerId) → is_legal rules (newer ++ older) ≡ true
        → is_closed id.session older ≡ true → is_needed id older ≡ false → is_needed id (newer ++ older) ≡ false }
{}

/// What can be erased at some moment, and what a Reclaim has named, is never wanted again: no such manifest is live and
/// no such container needed, whatever is recorded later.
pub fn never_wanted_again()
    ensures erasable { (rules : Rules) (newer older : List Entry) (object : Object) → is_legal rules (newer ++ older) ≡ true
        → Contains (erasable older) object → is_wanted object (newer ++ older) ≡ false }
    ensures reclaimed { (rules : Rules) (past : List Entry) (object : Object) → is_legal rules past ≡ true
        → has (reclaims object) past ≡ true → is_wanted object past ≡ false }
{}

/// No object can be erased twice over, and none is given over to be removed twice.
pub fn reclaimed_once()
    ensures erasable { (past : List Entry) → IsDistinct same_object (erasable past) }
    ensures reclaimed { (rules : Rules) (entry : Entry) (past : List Entry) (object : Object) → is_legal rules (entry ∷ past) ≡ true
        → reclaims object entry.point ≡ true → has (reclaims object) past ≡ false }
{}
