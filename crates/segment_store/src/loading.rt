// The manifests of a segment's champions.
ghost use Rattle.std.specs.Prelude.{◌≡◌, ◌<◌, ◌++◌, ◌∷◌, [], vec_len, vec_capacity, IfOk, OnOk, OnErr, MatchResult};
ghost use Rattle.depot.specs.Seen.{shelf_of, seen};
ghost use Rattle.manifest_cache.specs.Cached.{IsOf, listed_by, held};
ghost use Rattle.segment_store.specs.Loads.{LoadsAnswer, missing, reads_after};
ghost use Rattle.segment_store.specs.Copies.{AreCopies, IsSame, HasPut, Comes, NotComes};

use depot::{Depot, LoadFault};
use manifest_cache::ManifestCache;
use manifest_codec::Manifest;
use outside::Shelf;
use ss_base::Memory;
use std::alloc::Global;
use store_core::Kept;

/// The manifests of these champions, in their order. Those that the cache holds are copied, which makes each the most
/// recently used one, before the others are loaded, each by one read of the depot, and put into the cache. The first
/// load that fails is the last one, and its fault is the answer: `Damaged`, `Unlike` and `Shelf` come as `Depot::load`
/// says, `Memory` where a copy, a load or the list wanted memory. Where a put wants memory the cache is left without
/// that manifest.
pub fn load_champions<K: Shelf>(
    alloc: Global,
    depot: &mut Depot<'_, K>,
    champions: &[Kept],
    cache: &mut ManifestCache,
) -> Result<Vec<Manifest>, LoadFault>
    ensures same_reference { (shelf_of depot.new).ghost_name ≡ (shelf_of depot.old).ghost_name }
    ensures answer { LoadsAnswer cache.old.entries cache.new.entries (seen ⟦<K as Shelf>⟧ depot.old) (seen ⟦<K as Shelf>⟧ depot.new) champions.now result }
    ensures reads { OnOk result ((seen ⟦<K as Shelf>⟧ depot.new).reads ≡ reads_after (missing (held cache.old.entries) champions.now) (seen ⟦<K as Shelf>⟧ depot.old).reads) }
{
    let copies = match copies_held(alloc, champions, cache) {
        Ok(copies) => copies,
        Err(_) => return Err(LoadFault::Memory),
    };
    load_others(alloc, depot, champions, copies, cache)
}

// What the cache holds of these: a copy for each that it holds.
fn copies_held(
    alloc: Global,
    champions: &[Kept],
    cache: &mut ManifestCache,
) -> Result<Vec<Option<Manifest>>, Memory>
    ensures copies { IfOk result (λ copies. AreCopies (held cache.old.entries) champions.now copies.items) }
    ensures same { IsSame cache.old.entries cache.new.entries }
    ensures some { OnErr result (champions.now ≡ [] → ⊥) }
{
    let mut copies = Vec::new(alloc);
    for kept in champions {
        let copy = cache.get(alloc, kept)?;
        copies.push(copy)?;
    }
    Ok(copies)
}

// The manifests, where copies of those that the cache holds are there.
fn load_others<K: Shelf>(
    alloc: Global,
    depot: &mut Depot<'_, K>,
    champions: &[Kept],
    copies: Vec<Option<Manifest>>,
    cache: &mut ManifestCache,
) -> Result<Vec<Manifest>, LoadFault>
    requires copies { AreCopies (held cache.old.entries) champions.now copies.items }
    ensures same_reference { (shelf_of depot.new).ghost_name ≡ (shelf_of depot.old).ghost_name }
    ensures answer { LoadsAnswer cache.old.entries cache.new.entries (seen ⟦<K as Shelf>⟧ depot.old) (seen ⟦<K as Shelf>⟧ depot.new) champions.now result }
{
    let mut manifests = Vec::new(alloc);
    for copy in copies {
        let kept = &champions[manifests.len()];
        if manifests.reserve(1).is_err() {
            return Err(LoadFault::Memory);
        }
        match load_missing(alloc, depot, kept, copy, cache) {
            Ok(manifest) => push_reserved(&mut manifests, manifest),
            Err(fault) => return Err(fault),
        }
    }
    Ok(manifests)
}

// The copy of a manifest, or where there is none the manifest, which is loaded and put into the cache.
fn load_missing<K: Shelf>(
    alloc: Global,
    depot: &mut Depot<'_, K>,
    kept: &Kept,
    copy: Option<Manifest>,
    cache: &mut ManifestCache,
) -> Result<Manifest, LoadFault>
    ensures same_reference { (shelf_of depot.new).ghost_name ≡ (shelf_of depot.old).ghost_name }
    ensures answer { MatchResult result
        (λ m. Comes cache.old.entries cache.new.entries (seen ⟦<K as Shelf>⟧ depot.old) (seen ⟦<K as Shelf>⟧ depot.new) kept.now copy m)
        (λ fault. NotComes cache.old.entries cache.new.entries (seen ⟦<K as Shelf>⟧ depot.old) (seen ⟦<K as Shelf>⟧ depot.new) kept.now copy fault) }
{
    match copy {
        Some(manifest) => Ok(manifest),
        None => match depot.load(alloc, kept) {
            Ok(manifest) => {
                put(kept, &manifest, cache);
                Ok(manifest)
            }
            Err(fault) => Err(fault),
        },
    }
}

// Puts a copy into the cache, or leaves the cache without it where that wants memory.
fn put(kept: &Kept, manifest: &Manifest, cache: &mut ManifestCache)
    requires { IsOf kept.now (listed_by manifest.now) }
    ensures { HasPut cache.old.entries cache.new.entries kept.now manifest.now }
{
    let _ = cache.put(kept, manifest);
}

// Adds a manifest for which there is room.
fn push_reserved(manifests: &mut Vec<Manifest>, manifest: Manifest)
    requires { vec_len manifests.old < vec_capacity manifests.old }
    ensures { manifests.new.items ≡ manifests.old.items ++ manifest ∷ [] }
{
    match manifests.push(manifest) {
        Ok(()) => {}
        Err(_) => unreachable!(),
    }
}
