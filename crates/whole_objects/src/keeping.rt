// Objects that stay whole.
ghost use Rattle.std.specs.Prelude.{◌≡◌, ◌++◌, List, true};
ghost use Rattle.std.specs.FinMap as map;
ghost use Rattle.std.specs.List.{All};
ghost use Rattle.ss_base.specs.declared.object.Object.{Object};
ghost use Rattle.ss_base.specs.declared.profile.Profile.{Profile};
ghost use Rattle.ss_base.specs.ObjectName.{object_text};
ghost use Rattle.ss_base.specs.Profile.{numbers_of};
ghost use Rattle.journal_entry.specs.declared.entry.Entry.{Entry};
ghost use Rattle.journal_entry.specs.Bounds.{IsEntry};
ghost use Rattle.history.specs.declared.rules.Rules.{Rules};
ghost use Rattle.history.specs.Legal.{is_legal};
ghost use Rattle.history.specs.Need.{reclaims};
ghost use Rattle.history.specs.Sessions.{has};
ghost use Rattle.outside.specs.Shelf.{Objects};
ghost use Rattle.stored_streams.specs.Streams.{Streams};
ghost use Rattle.stored_streams.specs.OfStreams.{IsOfStreams};
ghost use Rattle.stored_streams.specs.Whole.{IsWhole};
ghost use Rattle.whole_objects.specs.Keeps.{KeepsWanted, CommitsNothing};

/// Objects that are whole for a history of the streams stay so where all that it wants is kept: needed containers go on
/// from what they were, and live manifests are as they were. It runs nothing.
pub fn stays_whole_where_wanted_is_kept()
    ensures { (profile : Profile) (rules : Rules) (streams : Streams) (past : List Entry) (objects now : Objects)
        → is_legal rules past ≡ true
        → All IsEntry past
        → IsOfStreams (numbers_of profile) streams past
        → IsWhole (numbers_of profile) streams past objects
        → KeepsWanted (numbers_of profile) streams past objects now
        → IsWhole (numbers_of profile) streams past now }
{}

/// They stay so behind entries that commit nothing. It runs nothing.
pub fn stays_whole_behind_entries()
    ensures { (profile : Profile) (rules : Rules) (streams : Streams) (newer older : List Entry) (objects : Objects)
        → is_legal rules (newer ++ older) ≡ true
        → All (λ (entry : Entry). CommitsNothing entry.point) newer
        → IsWhole (numbers_of profile) streams older objects
        → IsWhole (numbers_of profile) streams (newer ++ older) objects }
{}

/// They stay so where an object is erased that a Reclaim has named. It runs nothing.
pub fn stays_whole_without_reclaimed()
    ensures { (profile : Profile) (rules : Rules) (streams : Streams) (past : List Entry) (objects : Objects) (object : Object)
        → is_legal rules past ≡ true
        → All IsEntry past
        → IsOfStreams (numbers_of profile) streams past
        → has (reclaims object) past ≡ true
        → IsWhole (numbers_of profile) streams past objects
        → IsWhole (numbers_of profile) streams past (map.remove objects (object_text object)) }
{}
