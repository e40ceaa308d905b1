// What an output holds.
ghost use Rattle.std.specs.Prelude.{◌≡◌, ◌++◌, List, ℕ, map, Some, Err};
ghost use Rattle.chunk_name.specs.Pieces.{name_of_bytes};
ghost use Rattle.outside.specs.Shelf.{Objects, Given};
ghost use Rattle.outside.specs.Views.{ShelfView};
ghost use Rattle.restore.specs.Reads.{Listed, ManifestRead, AreManifestsRead, bytes_of_manifests, listed_by_all, text_of, chunk_at, text_at};
ghost use Rattle.restore.specs.Output.{after_making, after_adding, with_output, HoldsFront};
ghost use Rattle.restore.specs.Copies.{Shelves, StreamCopy};
ghost use Rattle.restore.specs.Damage.{GaveBetween, ShowsDamage, ShowsUnlike};
ghost use Rattle.store_core.specs.View.{KeptView};
ghost use Rattle.ss_base.specs.declared.name.Name.{Name};
ghost use Rattle.depot.specs.declared.fault.RestoreFault.{RestoreFault};
ghost use Rattle.depot.specs.declared.fault.RestoreFault.TheVariants.{Damaged, Unlike};
ghost use Rattle.std.specs.List.{concat};

/// Chunks that are added to an output one behind another are its bytes, joined. Each has the name that the manifests
/// list, and each manifest's text has the digest that was kept; where the objects of the depot are told, these are the
/// bytes at the places, and the manifests' objects. It runs nothing.
pub fn output_of_a_restore()
    ensures joined { (files : ShelfView) (output : List ℕ) (chunks : List (List ℕ))
        → after_adding (after_making files output) output chunks ≡ with_output files output chunks }
    ensures more { (files : ShelfView) (output : List ℕ) (done chunks : List (List ℕ))
        → after_adding (with_output files output done) output chunks ≡ with_output files output (done ++ chunks) }
    ensures names { (depot : ShelfView) (manifests : List ManifestRead) → AreManifestsRead depot manifests
        → map name_of_bytes (bytes_of_manifests manifests) ≡ map (λ (l : Listed). l.0.name) (listed_by_all manifests) }
    ensures digests { (depot : ShelfView) (manifests : List ManifestRead) → AreManifestsRead depot manifests
        → map (λ (m : ManifestRead). name_of_bytes (text_of m)) manifests ≡ map (λ (m : ManifestRead). m.kept.text) manifests }
    ensures chunks { (depot : ShelfView) (objects : Objects) (manifests : List ManifestRead) → AreManifestsRead depot manifests → depot.held ≡ Some objects
        → bytes_of_manifests manifests ≡ map (chunk_at objects) (listed_by_all manifests) }
    ensures texts { (depot : ShelfView) (objects : Objects) (manifests : List ManifestRead) → AreManifestsRead depot manifests → depot.held ≡ Some objects
        → map text_of manifests ≡ map (λ (m : ManifestRead). text_at objects m.kept) manifests }
{}

/// Where copying a stream stopped at damage, a read that it made shows the damage: it asked for a manifest of the stream,
/// or for a chunk at its place. It runs nothing.
pub fn damage_of_a_restore()
    ensures damaged { (output : List ℕ) (before after : Shelves) (kepts : List KeptView) (want got : Name)
        → StreamCopy output before after kepts (Err (Damaged want got))
        → (reads : List Given) × GaveBetween before.depot after.depot reads × ShowsDamage kepts reads want got }
    ensures unlike { (output : List ℕ) (before after : Shelves) (kepts : List KeptView) (text : Name)
        → StreamCopy output before after kepts (Err (Unlike text))
        → (reads : List Given) × GaveBetween before.depot after.depot reads × ShowsUnlike kepts reads text }
{}

/// Where copying a stream stopped, and the objects of the depot are told, the output holds a front of what it would hold
/// had all its manifests been read from these objects. It runs nothing.
pub fn front_of_a_restore()
    ensures { (output : List ℕ) (before after : Shelves) (kepts : List KeptView) (fault : RestoreFault) (objects : Objects) (depot : ShelfView) (manifests : List ManifestRead)
        → StreamCopy output before after kepts (Err fault) → before.depot.held ≡ Some objects
        → depot.held ≡ Some objects → AreManifestsRead depot manifests → map (λ (m : ManifestRead). m.kept) manifests ≡ kepts
        → HoldsFront output before.files after.files (concat (bytes_of_manifests manifests)) }
{}
