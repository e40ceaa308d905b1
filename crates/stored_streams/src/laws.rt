// From what loads gave to what the streams say.
ghost use Rattle.std.specs.Prelude.{ℕ, ◌≡◌, ◌≢◌, ◌<◌, ◌≤◌, ◌^◌, ◌∷◌, ◌++◌, ◌⊎◌, [], List, true, codes, None};
ghost use Rattle.std.specs.FinMap as map;
ghost use Rattle.std.specs.List.{All};
ghost use Rattle.journal_entry.specs.declared.entry.Entry.{Entry};
ghost use Rattle.journal_entry.specs.Bounds.{IsEntry, FitsObject};
ghost use Rattle.ss_base.specs.declared.object.Object.{Object};
ghost use Rattle.ss_base.specs.declared.profile.Numbers.{Numbers};
ghost use Rattle.ss_base.specs.declared.profile.Profile.{Profile};
ghost use Rattle.ss_base.specs.ObjectName.{object_text};
ghost use Rattle.ss_base.specs.Profile.{numbers_of};
ghost use Rattle.history.specs.declared.rules.Rules.{Rules};
ghost use Rattle.history.specs.Sessions.{session_count};
ghost use Rattle.history.specs.Legal.{is_legal};
ghost use Rattle.outside.specs.Shelf.{Objects};
ghost use Rattle.stored_streams.specs.Streams.{Streams};
ghost use Rattle.stored_streams.specs.OfStreams.{StoresNothing, IsOfStreams, HasContents, HasStored};
ghost use Rattle.stored_streams.specs.Loads.{Loads, StoresLoaded};
ghost use Rattle.stored_streams.specs.Collision.{Collide};
ghost use Rattle.stored_streams.specs.Reads.{Reads, IsGiven};
ghost use Rattle.stored_streams.specs.Agree.{AgreeOn};
ghost use Rattle.stored_streams.specs.Whole.{IsWhole};
ghost use Rattle.segment_reader.specs.SegmentsOf.{segments_of};
ghost use Rattle.stored_streams.specs.SecondBackup.{IsOneHook, AsksFor, rules_for, each_time, loads_for, reads_for, second_backup, first_backup};
ghost use Rattle.stored_streams.specs.Known.{session_of, HasOnlyKnown};

/// A backup knows only what its loads gave. Where each newer commit of a legal history stores its segment against
/// manifests that were loaded with the digests that their commits kept, the history stores what its streams say, or two
/// different byte lists among those that were hashed have one SHA-256. It runs nothing.
pub fn stores_what_was_loaded()
    ensures { (profile : Profile) (rules : Rules) (streams : Streams) (loads : Loads) (reads : List Reads) (newer older : List Entry)
        → is_legal rules (newer ++ older) ≡ true
        → All IsEntry (newer ++ older)
        → IsOfStreams (numbers_of profile) streams older
        → HasContents (numbers_of profile) streams (newer ++ older)
        → StoresLoaded (numbers_of profile) streams loads (IsGiven reads (newer ++ older)) newer older
        → HasStored (numbers_of profile) streams (newer ++ older)
        ⊎ Collide (numbers_of profile) streams (newer ++ older) (IsGiven reads (newer ++ older)) }
{}

/// Entries that store nothing leave a history of the streams one: a Begin, Delete, Look, Done, Reclaim or Stat. The past
/// of a history of the streams is one, too. It runs nothing.
pub fn stays_of_streams()
    ensures contents { (n : Numbers) (streams : Streams) (newer older : List Entry)
        → All (λ (entry : Entry). StoresNothing entry.point) newer
        → HasContents n streams older → HasContents n streams (newer ++ older) }
    ensures stored { (n : Numbers) (streams : Streams) (newer older : List Entry)
        → All (λ (entry : Entry). StoresNothing entry.point) newer
        → HasStored n streams older → HasStored n streams (newer ++ older) }
    ensures both { (n : Numbers) (streams : Streams) (newer older : List Entry)
        → All (λ (entry : Entry). StoresNothing entry.point) newer
        → IsOfStreams n streams older → IsOfStreams n streams (newer ++ older) }
    ensures past { (n : Numbers) (streams : Streams) (newer older : List Entry)
        → IsOfStreams n streams (newer ++ older) → IsOfStreams n streams older }
{}

/// A legal history that is of some streams is of those of every other table that agrees on the sessions that began, and
/// objects that are whole for the one table are so for the other. It runs nothing.
pub fn is_of_its_sessions_alone()
    ensures contents { (n : Numbers) (rules : Rules) (one other : Streams) (past : List Entry)
        → is_legal rules past ≡ true → AgreeOn past one other
        → HasContents n one past → HasContents n other past }
    ensures stored { (n : Numbers) (rules : Rules) (one other : Streams) (past : List Entry)
        → is_legal rules past ≡ true → AgreeOn past one other
        → HasStored n one past → HasStored n other past }
    ensures both { (n : Numbers) (rules : Rules) (one other : Streams) (past : List Entry)
        → is_legal rules past ≡ true → AgreeOn past one other
        → IsOfStreams n one past → IsOfStreams n other past }
    ensures whole { (n : Numbers) (rules : Rules) (one other : Streams) (past : List Entry) (objects : Objects)
        → is_legal rules past ≡ true → AgreeOn past one other
        → IsWhole n one past objects → IsWhole n other past objects }
{}

/// Objects are told apart by their names, and from the journal. Where none but the journal and those that a legal
/// history knows of are there, an object of a session that has not begun is not there. It runs nothing.
pub fn new_objects_are_absent()
    ensures names { (one other : Object) → FitsObject one → FitsObject other → object_text one ≡ object_text other → one ≡ other }
    ensures journal { (object : Object) → object_text object ≢ codes "journal" }
    ensures absent { (rules : Rules) (past : List Entry) (objects : Objects) (object : Object)
        → is_legal rules past ≡ true → HasOnlyKnown past objects
        → session_count past ≤ session_of object → session_of object < 2 ^ 32
        → map.get objects (object_text object) ≡ None }
{}

/// What the law of what is stored asks for can be had: the second backup of a stream that is one chunk, where the chunk's
/// name is a hook, so that the first backup's manifest is its champion. A stream of one byte is one chunk. It runs nothing.
pub fn stored_can_be_shown()
    ensures shown { (profile : Profile) (bytes : List ℕ) → IsOneHook (numbers_of profile) bytes
        → AsksFor (numbers_of profile) (rules_for (numbers_of profile)) (each_time bytes) (loads_for bytes) (reads_for bytes) (second_backup bytes) (first_backup bytes) }
    ensures byte { (profile : Profile) (byte : ℕ) → segments_of (numbers_of profile) (byte ∷ []) ≡ ((byte ∷ []) ∷ []) ∷ [] }
{}

/// Objects that are whole for a history of the streams stay so beside an object that was not there. It runs nothing.
pub fn stays_whole_beside_new_objects()
    ensures { (profile : Profile) (rules : Rules) (streams : Streams) (past : List Entry) (objects : Objects) (name bytes : List ℕ)
        → is_legal rules past ≡ true
        → All IsEntry past
        → IsOfStreams (numbers_of profile) streams past
        → IsWhole (numbers_of profile) streams past objects
        → map.get objects name ≡ None
        → IsWhole (numbers_of profile) streams past (map.insert objects name bytes) }
{}
