// What a history allows of what was stored.
ghost use Rattle.std.specs.Prelude.{◌≡◌, ℕ, List, true};
ghost use Rattle.journal_entry.specs.declared.entry.Entry.{Entry};
ghost use Rattle.manifest_codec.specs.declared.manifest.Manifest.{Manifest};
ghost use Rattle.container_file.specs.declared.container_end.ContainerEnd.{ContainerEnd};
ghost use Rattle.segment_plan.specs.Planned.{located};
ghost use Rattle.history.specs.Sessions.{pending_champions};
ghost use Rattle.history.specs.Legal.{are_uses};
ghost use Rattle.store_core.specs.View.{KeptView, all_kept};
ghost use Rattle.store_core.specs.declared.values.Stored.{Stored};
ghost use Rattle.outside.specs.Views.{ShelfView};
ghost use Rattle.segment_store.specs.Loads.{Holding, AreLoaded};
ghost use Rattle.segment_store.specs.Stored.{CanBeCommitted};

/// A commit of the session may list the uses of a segment that was stored against the manifests of its pending
/// champions. It runs nothing.
pub fn uses_of_a_segment()
    ensures { (past : List Entry) (end : ContainerEnd) (kepts : List KeptView) (holds : Holding) (shelf : ShelfView) (manifests : List Manifest) (stored : Stored)
        → kepts ≡ all_kept (pending_champions end.session past) past
        → AreLoaded holds shelf kepts manifests
        → CanBeCommitted (located manifests) end stored
        → are_uses end.session past stored.uses.items ≡ true }
{}
