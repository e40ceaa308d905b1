// Objects that are whole behind a commit.
ghost use Rattle.std.specs.Prelude.{ℕ, ◌≡◌, ◌<◌, ◌∷◌, List, true};
ghost use Rattle.std.specs.List.{All};
ghost use Rattle.ss_base.specs.declared.ids.ContainerId.{ContainerId};
ghost use Rattle.ss_base.specs.declared.ids.ManifestId.{ManifestId};
ghost use Rattle.ss_base.specs.declared.name.Name.{Name};
ghost use Rattle.ss_base.specs.declared.object.Object.TheVariants.{Manifest};
ghost use Rattle.ss_base.specs.declared.profile.Profile.{Profile};
ghost use Rattle.ss_base.specs.ObjectName.{object_text};
ghost use Rattle.ss_base.specs.Profile.{numbers_of};
ghost use Rattle.journal_entry.specs.declared.entry.Entry.{Entry};
ghost use Rattle.journal_entry.specs.declared.entry.Point.TheVariants.{Commit};
ghost use Rattle.journal_entry.specs.Bounds.{IsEntry};
ghost use Rattle.history.specs.declared.rules.Rules.{Rules};
ghost use Rattle.history.specs.Legal.{is_legal};
ghost use Rattle.outside.specs.Shelf.{Objects, bytes_of};
ghost use Rattle.store_core.specs.View.{made};
ghost use Rattle.stored_streams.specs.Streams.{Streams};
ghost use Rattle.stored_streams.specs.Plans.{text_of, containers_of};
ghost use Rattle.stored_streams.specs.OfStreams.{IsOfStreams};
ghost use Rattle.stored_streams.specs.Whole.{HasRecords, IsWhole};

/// Objects that are whole for a history of the streams are so behind a Commit too, where the manifest's object is its text
/// and each container of its session begins with the records that are laid out in it then. It runs nothing.
pub fn whole_behind_a_commit()
    ensures { (profile : Profile) (rules : Rules) (streams : Streams) (author : ℕ) (id : ManifestId) (content text : Name) (chunks bytes fresh fresh_bytes : ℕ) (uses : List ContainerId) (past : List Entry) (objects : Objects)
        → let entry = made author (Commit id content text chunks bytes fresh fresh_bytes uses) in
        is_legal rules (entry ∷ past) ≡ true
        → All IsEntry (entry ∷ past)
        → IsOfStreams (numbers_of profile) streams (entry ∷ past)
        → IsWhole (numbers_of profile) streams past objects
        → bytes_of objects (object_text (Manifest id)) ≡ text_of (numbers_of profile) streams id (entry ∷ past)
        → ((ordinal : ℕ) → ordinal < containers_of (numbers_of profile) streams id.session (entry ∷ past)
        → HasRecords (numbers_of profile) streams (entry ∷ past) objects (record { session = id.session; ordinal = ordinal }))
        → IsWhole (numbers_of profile) streams (entry ∷ past) objects }
{}
