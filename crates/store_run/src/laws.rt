// Laws of what a run answers.
ghost use Rattle.std.specs.Prelude.{◌≡◌, ◌++◌, ℕ, List, Some};
ghost use Rattle.ss_base.specs.declared.profile.Profile.{Profile};
ghost use Rattle.outside.specs.Shelf.{Objects, bytes_of};
ghost use Rattle.outside.specs.Views.{SourceView, SinkView, ShelfView, SourceFailed, Takes, TakesFront};
ghost use Rattle.journal_file.specs.Header.{journal_name};
ghost use Rattle.store_core.specs.View.{StateView};
ghost use Rattle.store_run.specs.declared.stop.Stop.{Stop as Cause};
ghost use Rattle.store_run.specs.declared.stop.Stop.TheVariants.{AlreadyStore, SourceFault};
ghost use Rattle.store_run.specs.EntryLines.{entry_lines};
ghost use Rattle.store_run.specs.Feed.{EndsAtFault};
ghost use Rattle.store_run.specs.Listing.{JournalAnswer};
ghost use Rattle.store_run.specs.Opening.{IsStore, IsRefused};
ghost use Rattle.store_run.specs.Run.{StreamAnswer, InitAnswer, HasJournal};
ghost use Rattle.store_run.specs.SoFar.{Stage, so_far};
ghost use Rattle.store_run.specs.Stop.{fault_line, status_of};

/// At the statuses above 9 the fault line is whole: at 12 the source failed, and the lines that were whole by then and
/// `source fault` were printed; at 11 there is a store, which was not touched, and `already a store` was printed. It
/// runs nothing.
pub fn whole_fault_lines()
    ensures source_fault { (text : Stage → List ℕ → List ℕ) (source source' : SourceView) (sink sink' : SinkView) →
        StreamAnswer text source source' sink sink' 12 →
        (lines : List ℕ) × EndsAtFault source source' (text so_far) lines
        × Takes sink sink' (lines ++ fault_line SourceFault) × SourceFailed source source' }
    ensures already { (profile : Profile) (depot depot' : ShelfView) (sink sink' : SinkView) →
        InitAnswer profile depot depot' sink sink' 11 →
        HasJournal depot × (depot' ≡ depot) × Takes sink sink' (fault_line AlreadyStore) }
{}

/// What `journal` answers over a depot that tells its objects: at 0 the object `journal` is a store's, and the lines of
/// its entries were printed; at 6 it is none, for the cause whose line was printed, or a front of it where the sink
/// failed. A store's journal has no such cause. It runs nothing.
pub fn listed_or_refused()
    ensures listed { (objects : Objects) (depot depot' : ShelfView) (sink sink' : SinkView) →
        depot.held ≡ Some objects → JournalAnswer depot depot' sink sink' 0 →
        (store : StateView) × IsStore (bytes_of objects journal_name) store × Takes sink sink' (entry_lines 0 store.entries) }
    ensures refused { (objects : Objects) (depot depot' : ShelfView) (sink sink' : SinkView) →
        depot.held ≡ Some objects → JournalAnswer depot depot' sink sink' 6 →
        (why : Cause) × (status_of why ≡ 6) × IsRefused why (bytes_of objects journal_name)
        × TakesFront sink sink' (fault_line why) }
    ensures apart { (bytes : List ℕ) (store : StateView) (why : Cause) →
        status_of why ≡ 6 → IsStore bytes store → IsRefused why bytes → ⊥ }
{}
