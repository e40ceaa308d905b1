// From what a run of a job did to the streams of its store.
ghost use Rattle.std.specs.FinMap.{contains_key};
ghost use Rattle.std.specs.Prelude.{ℕ, ◌≡◌, ◌⊎◌, false, [], ◌∷◌, List, map, Some, Ok, Err};
ghost use Rattle.std.specs.List.{All};
ghost use Rattle.ss_base.specs.declared.profile.Profile.{Profile};
ghost use Rattle.ss_base.specs.Profile.{numbers_of};
ghost use Rattle.outside.specs.Shelf.{Objects, Given, bytes_of};
ghost use Rattle.outside.specs.Views.{SourceView, SinkView, ShelfView, SourceFailed, SinkFailed, ShelfFailed, Takes};
ghost use Rattle.journal_file.specs.Header.{journal_name};
ghost use Rattle.journal_file.specs.Journal.{journal_text};
ghost use Rattle.journal_file.specs.declared.fault.AppendFault.{AppendFault};
ghost use Rattle.store_core.specs.Replay.{NoneIs, has_session, has_reading};
ghost use Rattle.store_core.specs.View.{StateView, past_of, made};
ghost use Rattle.depot.specs.declared.fault.RestoreFault.{RestoreFault};
ghost use Rattle.history.specs.Sessions.{retained};
ghost use Rattle.restore.specs.Copies.{Shelves};
ghost use Rattle.stored_streams.specs.Streams.{Streams};
ghost use Rattle.stored_streams.specs.OfStreams.{IsOfStreams};
ghost use Rattle.stored_streams.specs.Reads.{IsGiven};
ghost use Rattle.stored_streams.specs.Reads.Reads.{recorded, held};
ghost use Rattle.stored_streams.specs.Collision.{Collide};
ghost use Rattle.restored_streams.specs.Complete.{NoneFailed, IsAnswered};
ghost use Rattle.restored_streams.specs.Restored.{HasRestored, LeavesFront, TellsNoDamage, ChunksCollide};
ghost use Rattle.backed_up_streams.specs.Loaded.{ReadsMore};
ghost use Rattle.job_script.specs.declared.job.JobKind.{JobKind};
ghost use Rattle.job_script.specs.declared.job.JobKind.TheVariants.{Backup, Restore, Delete, Reclaim, Stat};
ghost use Rattle.store_run.specs.EntryLines.{entry_lines};
ghost use Rattle.store_run.specs.Feed.{max_stream, EndsAtLimit};
ghost use Rattle.store_run.specs.JobRun.{HasDoneJob, JobRun};
ghost use Rattle.store_run.specs.Listing.{JournalAnswer};
ghost use Rattle.store_run.specs.Opening.{store_of};
ghost use Rattle.store_run.specs.Run.{StreamAnswer, InitAnswer, HasJournal};
ghost use Rattle.store_run.specs.SoFar.{Stage, so_far};
ghost use Rattle.run_streams.specs.Answered.{IsNoFault, IsDue};
ghost use Rattle.run_streams.specs.Ends.{IsClosedStore, EndsDuly};
ghost use Rattle.run_streams.specs.Erased.{HasErased, OnlyReadsDepot};
ghost use Rattle.run_streams.specs.Made.{MakesKnown};
ghost use Rattle.run_streams.specs.RunStreams.{HasInput, StoresNothing};
ghost use Rattle.run_streams.specs.Unkept.{KeepsLive};
ghost use Rattle.run_streams.specs.Wrote.{with_run, RunWrites};
ghost use Rattle.run_streams.specs.WholeStores.{IsWholeStore, KeepsStore, KeepStore};

use store_run::listed_or_refused;

/// A restore that ends with status 0, in a store whose history is that of some streams, leaves as its output exactly the
/// stream of the session that the name stands for, and no other file changes; or two different byte lists among those that
/// were hashed have one SHA-256. The depot tells its objects or its reads, and these may be anything; where the store is
/// whole, the only exception is that two different chunks have one SHA-256. It runs nothing.
pub fn restored_by_a_run()
    ensures held { (streams : Streams) (objects : Objects) (name output : List ℕ) (before after : Shelves) (sink sink' : SinkView)
        → (done : HasDoneJob (Restore name output) before after sink sink' 0)
        → before.depot.held ≡ Some objects
        → IsOfStreams (numbers_of done.store.profile) streams (past_of done.store)
        → ((count : ℕ) × HasRestored streams (past_of done.store) name output before.files after.files count)
        ⊎ Collide (numbers_of done.store.profile) streams (past_of done.store) (IsGiven (held objects ∷ []) (past_of done.store)) }
    ensures recorded { (streams : Streams) (earlier : List Given) (name output : List ℕ) (before after : Shelves) (sink sink' : SinkView)
        → (done : HasDoneJob (Restore name output) before after sink sink' 0)
        → before.depot.gave ≡ Some earlier
        → IsOfStreams (numbers_of done.store.profile) streams (past_of done.store)
        → (reads : List Given) × ReadsMore done.opened.depot after.depot reads
        × (((count : ℕ) × HasRestored streams (past_of done.store) name output before.files after.files count)
        ⊎ Collide (numbers_of done.store.profile) streams (past_of done.store) (IsGiven (recorded reads ∷ []) (past_of done.store))) }
    ensures whole { (streams : Streams) (store : StateView) (name output : List ℕ) (before after : Shelves) (sink sink' : SinkView)
        → HasDoneJob (Restore name output) before after sink sink' 0
        → IsWholeStore streams before.depot store
        → ((count : ℕ) × HasRestored streams (past_of store) name output before.files after.files count)
        ⊎ ChunksCollide (numbers_of store.profile) streams (past_of store) }
{}

/// A restore that did not answer leaves no output, an output that could not be made, or a front of the stream, and no other
/// file changes; but for the same exceptions. From a whole store it tells of no damage. It runs nothing.
pub fn fronts_by_a_run()
    ensures held { (streams : Streams) (objects : Objects) (name output : List ℕ) (before after : Shelves) (sink sink' : SinkView) (status : ℕ) (fault : RestoreFault)
        → (done : HasDoneJob (Restore name output) before after sink sink' status)
        → done.job.result ≡ Err fault
        → before.depot.held ≡ Some objects
        → IsOfStreams (numbers_of done.store.profile) streams (past_of done.store)
        → LeavesFront streams (past_of done.store) name output before.files after.files
        ⊎ Collide (numbers_of done.store.profile) streams (past_of done.store) (IsGiven (held objects ∷ []) (past_of done.store)) }
    ensures recorded { (streams : Streams) (earlier : List Given) (name output : List ℕ) (before after : Shelves) (sink sink' : SinkView) (status : ℕ) (fault : RestoreFault)
        → (done : HasDoneJob (Restore name output) before after sink sink' status)
        → done.job.result ≡ Err fault
        → before.depot.gave ≡ Some earlier
        → IsOfStreams (numbers_of done.store.profile) streams (past_of done.store)
        → (reads : List Given) × ReadsMore done.opened.depot after.depot reads
        × (LeavesFront streams (past_of done.store) name output before.files after.files
        ⊎ Collide (numbers_of done.store.profile) streams (past_of done.store) (IsGiven (recorded reads ∷ []) (past_of done.store))) }
    ensures whole { (streams : Streams) (store : StateView) (name output : List ℕ) (before after : Shelves) (sink sink' : SinkView) (status : ℕ) (fault : RestoreFault)
        → (done : HasDoneJob (Restore name output) before after sink sink' status)
        → done.job.result ≡ Err fault
        → IsWholeStore streams before.depot store
        → TellsNoDamage fault
        × (LeavesFront streams (past_of store) name output before.files after.files ⊎ ChunksCollide (numbers_of store.profile) streams (past_of store)) }
{}

/// A run of any job leaves the history of its store one of the streams, or two different byte lists among those that were
/// hashed have one SHA-256; a backup's stream is its input's bytes. What the depot tells may be anything: its objects, or
/// the reads that the backup made. A job that is no backup is no exception. It runs nothing.
pub fn streams_of_a_run()
    ensures held { (kind : JobKind) (streams : Streams) (objects : Objects) (before after : Shelves) (sink sink' : SinkView) (status : ℕ)
        → (done : HasDoneJob kind before after sink sink' status)
        → before.depot.held ≡ Some objects
        → HasInput kind streams before.files (past_of done.store) (past_of done.new)
        → IsOfStreams (numbers_of done.store.profile) streams (past_of done.store)
        → IsOfStreams (numbers_of done.store.profile) streams (past_of done.new)
        ⊎ Collide (numbers_of done.store.profile) streams (past_of done.new) (IsGiven (held objects ∷ []) (past_of done.new)) }
    ensures recorded { (input name : List ℕ) (streams : Streams) (before after : Shelves) (sink sink' : SinkView) (status : ℕ)
        → (done : HasDoneJob (Backup input name) before after sink sink' status)
        → HasInput (Backup input name) streams before.files (past_of done.store) (past_of done.new)
        → IsOfStreams (numbers_of done.store.profile) streams (past_of done.store)
        → (reads : List Given) × ReadsMore done.opened.depot after.depot reads
        × (IsOfStreams (numbers_of done.store.profile) streams (past_of done.new)
        ⊎ Collide (numbers_of done.store.profile) streams (past_of done.new) (IsGiven (recorded reads ∷ []) (past_of done.new))) }
    ensures others { (kind : JobKind) (streams : Streams) (before after : Shelves) (sink sink' : SinkView) (status : ℕ)
        → (done : HasDoneJob kind before after sink sink' status)
        → StoresNothing kind
        → IsOfStreams (numbers_of done.store.profile) streams (past_of done.store)
        → IsOfStreams (numbers_of done.store.profile) streams (past_of done.new) }
{}

/// What a run of a backup wrote to its depot, where the depot tells its writes: for each commit that it added, in order,
/// the puts of the fresh chunks and then the manifest, as the history plans them; where the session was given up with a
/// choice pending, a front of the same of the segment that was chosen; and then the entries to the journal, in one piece,
/// where they were kept. Or two different byte lists among those that were hashed have one SHA-256. It erased nothing.
/// Another job writes those entries alone. It runs nothing.
pub fn written_by_a_run()
    ensures held { (input name : List ℕ) (streams : Streams) (objects : Objects) (before after : Shelves) (sink sink' : SinkView) (status : ℕ)
        → (done : HasDoneJob (Backup input name) before after sink sink' status)
        → before.depot.held ≡ Some objects
        → HasInput (Backup input name) streams before.files (past_of done.store) (past_of done.new)
        → IsOfStreams (numbers_of done.store.profile) streams (past_of done.store)
        → RunWrites (numbers_of done.store.profile) streams (held objects ∷ []) (past_of done.store) (past_of done.new) (map (made done.author) done.points) done.ending.kept before.depot after.depot }
    ensures recorded { (input name : List ℕ) (streams : Streams) (before after : Shelves) (sink sink' : SinkView) (status : ℕ)
        → (done : HasDoneJob (Backup input name) before after sink sink' status)
        → HasInput (Backup input name) streams before.files (past_of done.store) (past_of done.new)
        → IsOfStreams (numbers_of done.store.profile) streams (past_of done.store)
        → (reads : List Given) × ReadsMore done.opened.depot after.depot reads
        × RunWrites (numbers_of done.store.profile) streams (recorded reads ∷ []) (past_of done.store) (past_of done.new) (map (made done.author) done.points) done.ending.kept before.depot after.depot }
    ensures others { (kind : JobKind) (before after : Shelves) (sink sink' : SinkView) (status : ℕ)
        → (done : HasDoneJob kind before after sink sink' status)
        → StoresNothing kind
        → after.depot.wrote ≡ with_run before.depot.wrote [] (map (made done.author) done.points) done.ending.kept }
{}

/// What a run of `reclaim` erased of its depot, where the depot tells what was erased: the objects that its Reclaims name,
/// in order, each at most once; unless memory was wanted, no more of them are left than the count of faults rose by. Of a
/// run of `restore`, `delete` and `stat` it tells nothing more, and of a backup `written_by_a_run` says so. It runs
/// nothing.
pub fn erased_by_a_run()
    ensures reclaim { (before after : Shelves) (sink sink' : SinkView) (status : ℕ)
        → (done : HasDoneJob Reclaim before after sink sink' status)
        → HasErased (map (made done.author) done.points) done.answer before.depot after.depot }
    ensures others { (kind : JobKind) (before after : Shelves) (sink sink' : SinkView) (status : ℕ)
        → (done : HasDoneJob kind before after sink sink' status)
        → OnlyReadsDepot kind
        → after.depot.erased ≡ before.depot.erased }
{}

/// Behind a run that did a job no session and no reading is unfinished, whatever its status. It runs nothing.
pub fn closed_by_a_run()
    ensures { (kind : JobKind) (before after : Shelves) (sink sink' : SinkView) (status : ℕ)
        → (done : HasDoneJob kind before after sink sink' status)
        → NoneIs (has_session done.new) × NoneIs (has_reading done.new) }
{}

/// Each object that a run of a job makes in the depot is the journal, or known by the history that it leaves. It runs
/// nothing.
pub fn objects_of_a_run()
    ensures { (kind : JobKind) (objects files : Objects) (before after : Shelves) (sink sink' : SinkView) (status : ℕ)
        → (done : HasDoneJob kind before after sink sink' status)
        → before.depot.held ≡ Some objects
        → before.files.held ≡ Some files
        → MakesKnown (past_of done.new) objects after.depot }
{}

/// A store without entries is whole. Runs whose entries were kept leave a store whole whose depot was whole: its journal is
/// that of a legal history of the streams then, and its objects are whole for it. Each backup's stream is its input's
/// bytes. It runs nothing.
pub fn stores_stay_whole()
    ensures first { (streams : Streams) (depot : ShelfView) (objects : Objects) (profile : Profile)
        → depot.held ≡ Some objects
        → bytes_of objects journal_name ≡ journal_text profile []
        → IsWholeStore streams depot (store_of profile []) }
    ensures one { (streams : Streams) (before after : Shelves) (store : StateView)
        → KeepsStore streams before after
        → IsWholeStore streams before.depot store
        → (new : StateView) × IsWholeStore streams after.depot new }
    ensures many { (streams : Streams) (before after : Shelves) (store : StateView)
        → KeepStore streams before after
        → IsWholeStore streams before.depot store
        → (new : StateView) × IsWholeStore streams after.depot new }
    // No session and no reading is unfinished in them.
    ensures first_closed { (streams : Streams) (depot : ShelfView) (objects : Objects) (profile : Profile)
        → depot.held ≡ Some objects
        → bytes_of objects journal_name ≡ journal_text profile []
        → IsClosedStore streams depot (store_of profile []) }
    ensures closed { (streams : Streams) (before after : Shelves) (store : StateView)
        → KeepStore streams before after
        → IsClosedStore streams before.depot store
        → (new : StateView) × IsClosedStore streams after.depot new }
    // The depot tells which store it is.
    ensures same { (streams : Streams) (depot : ShelfView) (one other : StateView)
        → IsWholeStore streams depot one → IsWholeStore streams depot other → one ≡ other }
{}

/// Where the append of its entries failed, a run from a whole store leaves each manifest still whole that is live in the
/// history that was found and in the one with these entries: its text and its places are as they were. Behind the journal
/// a front of the entries' texts may stand. A backup's stream is its input's bytes. It runs nothing.
pub fn live_stays_whole_unkept()
    ensures { (kind : JobKind) (streams : Streams) (store : StateView) (before after : Shelves) (sink sink' : SinkView) (status : ℕ) (fault : AppendFault)
        → (done : HasDoneJob kind before after sink sink' status)
        → done.ending.kept ≡ Err fault
        → (is : IsWholeStore streams before.depot store)
        → HasInput kind streams before.files (past_of done.store) (past_of done.new)
        → KeepsLive (numbers_of store.profile) streams (past_of store) (past_of done.new) (map (made done.author) done.points) is.objects after.depot }
{}

/// A restore that nothing keeps off is answered: from a whole store, of a name that is retained, to an output that is told
/// to be absent, where no count of faults rose in the job. Else its look had no room in the journal, or memory was wanted.
/// It runs nothing.
pub fn restores_are_answered()
    ensures { (streams : Streams) (store : StateView) (files : Objects) (session : ℕ) (name output : List ℕ) (before after : Shelves) (sink sink' : SinkView) (status : ℕ)
        → (done : HasDoneJob (Restore name output) before after sink sink' status)
        → IsWholeStore streams before.depot store
        → retained name (past_of store) ≡ Some session
        → before.files.held ≡ Some files
        → contains_key files output ≡ false
        → NoneFailed done.opened done.done
        → IsAnswered done.store done.new done.job.result }
{}

/// So is a backup, of a file that is told: from a whole store, where no count of faults rose in the job, it tells of no
/// fault and no damage. It runs nothing.
pub fn backups_are_answered()
    ensures { (streams : Streams) (store : StateView) (input name : List ℕ) (before after : Shelves) (sink sink' : SinkView) (status : ℕ)
        → (done : HasDoneJob (Backup input name) before after sink sink' status)
        → IsWholeStore streams before.depot store
        → HasInput (Backup input name) streams before.files (past_of done.store) (past_of done.new)
        → NoneFailed done.opened done.done
        → IsNoFault done.job.result }
{}

/// A delete, whatever the files hold: it names the stream that is retained, or there is none; else the journal is nearly
/// full, or memory was wanted. It runs nothing.
pub fn deletes_are_answered()
    ensures { (name : List ℕ) (files : Objects) (before after : Shelves) (sink sink' : SinkView) (status : ℕ)
        → (done : HasDoneJob (Delete name) before after sink sink' status)
        → IsDue done.store done.new files done.answer (Delete name) }
{}

/// A reclaim in which the depot's count of faults did not rise: it erased all that it named, or the journal is nearly full,
/// or memory was wanted. It runs nothing.
pub fn reclaims_are_answered()
    ensures { (files : Objects) (before after : Shelves) (sink sink' : SinkView) (status : ℕ)
        → (done : HasDoneJob Reclaim before after sink sink' status)
        → (ShelfFailed done.opened.depot done.done.depot → ⊥)
        → IsDue done.store done.new files done.answer Reclaim }
{}

/// A stat: it tells the totals, or the journal is nearly full, or memory was wanted. It runs nothing.
pub fn stats_are_answered()
    ensures { (files : Objects) (before after : Shelves) (sink sink' : SinkView) (status : ℕ)
        → (done : HasDoneJob Stat before after sink sink' status)
        → IsDue done.store done.new files done.answer Stat }
{}

/// Runs that nothing keeps off: no count of faults rises, the files are told, and the store is whole, with no session and
/// no reading unfinished. A job then has an answer that is due, its entries are kept and its report is printed; or no
/// author's number is left, or memory was wanted. So its status is 0, 2, 7 or 8, and that of `journal` 0 or 8. That of
/// `init` is 0 or 8 over any depot, and 11 where there is a journal; that of `names` and `segments` is 0 or 8, and 7 where
/// the source gave too much. It runs nothing.
pub fn runs_are_answered()
    ensures jobs { (kind : JobKind) (streams : Streams) (store : StateView) (files : Objects) (before after : Shelves) (sink sink' : SinkView) (status : ℕ)
        → JobRun kind before after sink sink' status
        → IsClosedStore streams before.depot store
        → before.files.held ≡ Some files
        → NoneFailed before after
        → (SinkFailed sink sink' → ⊥)
        → EndsDuly kind store files before after sink sink' status }
    ensures statuses { (kind : JobKind) (store : StateView) (files : Objects) (before after : Shelves) (sink sink' : SinkView) (status : ℕ)
        → EndsDuly kind store files before after sink sink' status
        → (status ≡ 0) ⊎ ((status ≡ 2) ⊎ ((status ≡ 7) ⊎ (status ≡ 8))) }
    ensures journal { (streams : Streams) (store : StateView) (depot depot' : ShelfView) (sink sink' : SinkView) (status : ℕ)
        → JournalAnswer depot depot' sink sink' status
        → IsClosedStore streams depot store
        → (ShelfFailed depot depot' → ⊥)
        → (SinkFailed sink sink' → ⊥)
        → ((status ≡ 0) × Takes sink sink' (entry_lines 0 store.entries)) ⊎ (status ≡ 8) }
    ensures init { (profile : Profile) (depot depot' : ShelfView) (sink sink' : SinkView) (status : ℕ)
        → InitAnswer profile depot depot' sink sink' status
        → (ShelfFailed depot depot' → ⊥)
        → (SinkFailed sink sink' → ⊥)
        → (status ≡ 0) ⊎ (((status ≡ 11) × HasJournal depot) ⊎ (status ≡ 8)) }
    ensures streams { (text : Stage → List ℕ → List ℕ) (source source' : SourceView) (sink sink' : SinkView) (status : ℕ)
        → StreamAnswer text source source' sink sink' status
        → (SourceFailed source source' → ⊥)
        → (SinkFailed sink sink' → ⊥)
        → (status ≡ 0) ⊎ (((status ≡ 7) × ((lines : List ℕ) × EndsAtLimit max_stream source source' (text so_far) lines)) ⊎ (status ≡ 8)) }
{
    listed_or_refused();
}
