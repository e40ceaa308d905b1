// From what a backup says of itself to what its history stores.
ghost use Rattle.std.specs.Prelude.{ℕ, ◌≡◌, ◌⊎◌, true, List, [], ◌∷◌, ◌++◌, Some, Result, Err};
ghost use Rattle.std.specs.List.{All};
ghost use Rattle.ss_base.specs.declared.profile.Numbers.{Numbers};
ghost use Rattle.ss_base.specs.Profile.{numbers_of};
ghost use Rattle.journal_entry.specs.declared.entry.Entry.{Entry};
ghost use Rattle.outside.specs.Shelf.{Objects, Given, bytes_of};
ghost use Rattle.outside.specs.Views.{ShelfView};
ghost use Rattle.depot.specs.declared.fault.BackupFault.{BackupFault};
ghost use Rattle.journal_entry.specs.Bounds.{IsEntry};
ghost use Rattle.history.specs.declared.rules.Rules.{Rules};
ghost use Rattle.history.specs.Legal.{is_legal};
ghost use Rattle.store_core.specs.View.{past_of};
ghost use Rattle.history_calls.specs.Tokens.{IdleView};
ghost use Rattle.segment_store.specs.Loads.{Entries};
ghost use Rattle.session.specs.Backup.{BackupAnswer};
ghost use Rattle.stored_streams.specs.Streams.{Streams};
ghost use Rattle.stored_streams.specs.OfStreams.{HasContents, IsOfStreams};
ghost use Rattle.stored_streams.specs.Reads.{Reads, IsGiven};
ghost use Rattle.stored_streams.specs.Reads.Reads.{recorded, held};
ghost use Rattle.stored_streams.specs.Collision.{Collide};
ghost use Rattle.stored_streams.specs.Whole.{IsWhole};
ghost use Rattle.backed_up_streams.specs.OfInput.{IsOfInput};
ghost use Rattle.backed_up_streams.specs.Loaded.{HasLoaded, ReadsMore};
ghost use Rattle.backed_up_streams.specs.WholeThen.{IsWholeThen};
ghost use Rattle.backed_up_streams.specs.NoDamage.{TellsNoDamage};
ghost use Rattle.backed_up_streams.specs.Created.{CreatesKnown};
ghost use Rattle.backed_up_streams.specs.Wrote.{HasWritten};

/// A backup by a caller alone, whatever it answers, where its input's shelf tells its objects and the stream of the
/// session that it began, if any, is the input's bytes: behind a history whose choices and commits are those of its
/// streams its history is one, too. It runs nothing.
pub fn contents_of_a_backup()
    ensures { (streams : Streams) (objects : Objects) (standings champions : ℕ) (files : ShelfView) (input name : List ℕ) (before : IdleView) (depot : ShelfView) (cache : Entries) (after : IdleView) (depot' : ShelfView) (cache' : Entries) (result : Result ℕ BackupFault)
        → BackupAnswer (λ came. came ≡ []) standings champions files input name before depot cache after depot' cache' result
        → files.held ≡ Some objects
        → IsOfInput streams (past_of before.seen) (past_of after.seen) (bytes_of objects input)
        → HasContents (numbers_of before.seen.profile) streams (past_of before.seen)
        → HasContents (numbers_of before.seen.profile) streams (past_of after.seen) }
{}

/// Such a backup stores each segment against the manifests that it loaded for the segment's champions: with the digests
/// that their commits kept, behind what the session has laid out so far, and ends with as many containers as it has come
/// to. Where the depot tells its reads, those made meanwhile gave the manifests; where it tells its objects, what it held at
/// first gave those of other sessions, and those of its own are as they were planned. It runs nothing.
pub fn loads_of_a_backup()
    ensures recorded { (streams : Streams) (objects : Objects) (standings champions : ℕ) (files : ShelfView) (input name : List ℕ) (before : IdleView) (depot : ShelfView) (after : IdleView) (depot' : ShelfView) (cache' : Entries) (result : Result ℕ BackupFault)
        → BackupAnswer (λ came. came ≡ []) standings champions files input name before depot [] after depot' cache' result
        → files.held ≡ Some objects
        → IsOfInput streams (past_of before.seen) (past_of after.seen) (bytes_of objects input)
        → (reads : List Given) × ReadsMore depot depot' reads
        × HasLoaded (numbers_of before.seen.profile) streams (recorded reads ∷ []) (past_of before.seen) (past_of after.seen) }
    ensures held { (streams : Streams) (objects stored : Objects) (standings champions : ℕ) (files : ShelfView) (input name : List ℕ) (before : IdleView) (depot : ShelfView) (after : IdleView) (depot' : ShelfView) (cache' : Entries) (result : Result ℕ BackupFault)
        → BackupAnswer (λ came. came ≡ []) standings champions files input name before depot [] after depot' cache' result
        → files.held ≡ Some objects
        → depot.held ≡ Some stored
        → IsOfInput streams (past_of before.seen) (past_of after.seen) (bytes_of objects input)
        → All IsEntry (past_of after.seen)
        → HasLoaded (numbers_of before.seen.profile) streams (held stored ∷ []) (past_of before.seen) (past_of after.seen) }
{}

/// Behind a history of the streams such a backup leaves one, or two different byte lists among those that were hashed
/// have one SHA-256. It runs nothing.
pub fn streams_of_a_backup()
    ensures recorded { (streams : Streams) (objects : Objects) (rules : Rules) (standings champions : ℕ) (files : ShelfView) (input name : List ℕ) (before : IdleView) (depot : ShelfView) (after : IdleView) (depot' : ShelfView) (cache' : Entries) (result : Result ℕ BackupFault)
        → BackupAnswer (λ came. came ≡ []) standings champions files input name before depot [] after depot' cache' result
        → files.held ≡ Some objects
        → IsOfInput streams (past_of before.seen) (past_of after.seen) (bytes_of objects input)
        → is_legal rules (past_of after.seen) ≡ true
        → All IsEntry (past_of after.seen)
        → IsOfStreams (numbers_of before.seen.profile) streams (past_of before.seen)
        → (reads : List Given) × ReadsMore depot depot' reads
        × (IsOfStreams (numbers_of before.seen.profile) streams (past_of after.seen)
        ⊎ Collide (numbers_of before.seen.profile) streams (past_of after.seen) (IsGiven (recorded reads ∷ []) (past_of after.seen))) }
    ensures held { (streams : Streams) (objects stored : Objects) (rules : Rules) (standings champions : ℕ) (files : ShelfView) (input name : List ℕ) (before : IdleView) (depot : ShelfView) (after : IdleView) (depot' : ShelfView) (cache' : Entries) (result : Result ℕ BackupFault)
        → BackupAnswer (λ came. came ≡ []) standings champions files input name before depot [] after depot' cache' result
        → files.held ≡ Some objects
        → depot.held ≡ Some stored
        → IsOfInput streams (past_of before.seen) (past_of after.seen) (bytes_of objects input)
        → is_legal rules (past_of after.seen) ≡ true
        → All IsEntry (past_of after.seen)
        → IsOfStreams (numbers_of before.seen.profile) streams (past_of before.seen)
        → IsOfStreams (numbers_of before.seen.profile) streams (past_of after.seen)
        ⊎ Collide (numbers_of before.seen.profile) streams (past_of after.seen) (IsGiven (held stored ∷ []) (past_of after.seen)) }
{}

/// Over a depot that is whole for a history of the streams such a backup leaves one that is whole for the longer history,
/// and that one is of the streams without exception. It changes no object but containers and manifests. It runs nothing.
pub fn whole_of_a_backup()
    ensures { (streams : Streams) (objects stored : Objects) (rules : Rules) (standings champions : ℕ) (files : ShelfView) (input name : List ℕ) (before : IdleView) (depot : ShelfView) (after : IdleView) (depot' : ShelfView) (cache' : Entries) (result : Result ℕ BackupFault)
        → BackupAnswer (λ came. came ≡ []) standings champions files input name before depot [] after depot' cache' result
        → files.held ≡ Some objects
        → depot.held ≡ Some stored
        → IsOfInput streams (past_of before.seen) (past_of after.seen) (bytes_of objects input)
        → is_legal rules (past_of after.seen) ≡ true
        → All IsEntry (past_of after.seen)
        → IsOfStreams (numbers_of before.seen.profile) streams (past_of before.seen)
        → IsWhole (numbers_of before.seen.profile) streams (past_of before.seen) stored
        → IsWholeThen (numbers_of before.seen.profile) streams (past_of after.seen) stored depot' }
{}

/// Each object that the depot tells behind such a backup, whatever it answered, was there before, or is one that the
/// history knows of: of a session that was closed, a container or a manifest with a number below those it ended with. It
/// runs nothing.
pub fn objects_of_a_backup()
    ensures { (objects stored : Objects) (rules : Rules) (standings champions : ℕ) (files : ShelfView) (input name : List ℕ) (before : IdleView) (depot : ShelfView) (after : IdleView) (depot' : ShelfView) (cache' : Entries) (result : Result ℕ BackupFault)
        → BackupAnswer (λ came. came ≡ []) standings champions files input name before depot [] after depot' cache' result
        → files.held ≡ Some objects
        → depot.held ≡ Some stored
        → is_legal rules (past_of after.seen) ≡ true
        → CreatesKnown (past_of after.seen) stored depot' }
{}

/// Over a depot that is whole for a history of the streams no such backup fails for damage: no champion's manifest has
/// another digest than was kept, or is unlike what was kept. It runs nothing.
pub fn whole_depots_show_no_damage()
    ensures { (streams : Streams) (objects stored : Objects) (rules : Rules) (standings champions : ℕ) (files : ShelfView) (input name : List ℕ) (before : IdleView) (depot : ShelfView) (after : IdleView) (depot' : ShelfView) (cache' : Entries) (fault : BackupFault)
        → BackupAnswer (λ came. came ≡ []) standings champions files input name before depot [] after depot' cache' (Err fault)
        → files.held ≡ Some objects
        → depot.held ≡ Some stored
        → IsOfInput streams (past_of before.seen) (past_of after.seen) (bytes_of objects input)
        → is_legal rules (past_of after.seen) ≡ true
        → All IsEntry (past_of after.seen)
        → IsOfStreams (numbers_of before.seen.profile) streams (past_of before.seen)
        → IsWhole (numbers_of before.seen.profile) streams (past_of before.seen) stored
        → TellsNoDamage fault }
{}

/// What such a backup wrote to its depot, where the depot tells its writes: for each of the commits that it added, in
/// order, the puts of the fresh chunks and then the manifest, as its history plans them; and, where the session was given
/// up with a choice pending, a front of the same of the segment that was chosen; or two different byte lists among those
/// that were hashed have one SHA-256. It erased nothing. It runs nothing.
pub fn written_by_a_backup()
    ensures recorded { (streams : Streams) (objects : Objects) (rules : Rules) (standings champions : ℕ) (files : ShelfView) (input name : List ℕ) (before : IdleView) (depot : ShelfView) (after : IdleView) (depot' : ShelfView) (cache' : Entries) (result : Result ℕ BackupFault)
        → BackupAnswer (λ came. came ≡ []) standings champions files input name before depot [] after depot' cache' result
        → files.held ≡ Some objects
        → IsOfInput streams (past_of before.seen) (past_of after.seen) (bytes_of objects input)
        → is_legal rules (past_of after.seen) ≡ true
        → All IsEntry (past_of after.seen)
        → IsOfStreams (numbers_of before.seen.profile) streams (past_of before.seen)
        → (reads : List Given) × ReadsMore depot depot' reads
        × HasWritten (numbers_of before.seen.profile) streams (recorded reads ∷ []) (past_of before.seen) (past_of after.seen) depot depot' }
    ensures held { (streams : Streams) (objects stored : Objects) (rules : Rules) (standings champions : ℕ) (files : ShelfView) (input name : List ℕ) (before : IdleView) (depot : ShelfView) (after : IdleView) (depot' : ShelfView) (cache' : Entries) (result : Result ℕ BackupFault)
        → BackupAnswer (λ came. came ≡ []) standings champions files input name before depot [] after depot' cache' result
        → files.held ≡ Some objects
        → depot.held ≡ Some stored
        → IsOfInput streams (past_of before.seen) (past_of after.seen) (bytes_of objects input)
        → is_legal rules (past_of after.seen) ≡ true
        → All IsEntry (past_of after.seen)
        → IsOfStreams (numbers_of before.seen.profile) streams (past_of before.seen)
        → HasWritten (numbers_of before.seen.profile) streams (held stored ∷ []) (past_of before.seen) (past_of after.seen) depot depot' }
{}

/// A collision stays one while a legal history goes on, and beside the reads of more handles. It runs nothing.
pub fn collisions_stay()
    ensures longer { (n : Numbers) (streams : Streams) (rules : Rules) (reads : List Reads) (newer older : List Entry)
        → is_legal rules (newer ++ older) ≡ true
        → Collide n streams older (IsGiven reads older)
        → Collide n streams (newer ++ older) (IsGiven reads (newer ++ older)) }
    ensures among { (n : Numbers) (streams : Streams) (past : List Entry) (before reads behind : List Reads)
        → Collide n streams past (IsGiven reads past)
        → Collide n streams past (IsGiven (before ++ (reads ++ behind)) past) }
{}
