// A cache of loaded manifests.
ghost use Rattle.std.specs.Prelude.{◌≡◌, ◌≤◌, [], if◌then◌else◌, length, is_some, option_map, IfOk, IfSome, OnOk, OnErr};
ghost use Rattle.ss_base.specs.Ids.{same_manifest};
ghost use Rattle.store_core.specs.View.{KeptView};
ghost use Rattle.lru.specs.LruCache.{lru_cache, IsValid, promoted, put_entries};
ghost use Rattle.manifest_cache.specs.Cached.{IsOf, cached, listed_by, held, is_held};

use crate::Cached;
use lru::LruCache;
use manifest_codec::Manifest;
use ss_base::{ManifestId, Memory};
use std::alloc::Global;
use std::marker::Model;
use std::num::NonZeroUsize;
use store_core::Kept;

/// Manifests that were loaded, each under its id and beside the values that were kept of it. Contracts see the entries,
/// the most recently used first, and how many there may be. Where there are more, the least recently used one goes.
#[derive(Drop)]
pub struct ManifestCache {
    alloc: Global,
    entries: LruCache<ManifestId, Cached>,
}

impl Model for ManifestCache {
    ghost use Rattle.lru.specs.LruCache.{LruCache};
    ghost use Rattle.ss_base.specs.declared.ids.ManifestId.{ManifestId};
    ghost use Rattle.manifest_cache.specs.Cached.{CachedView};

    ghost Value = { LruCache ManifestId CachedView };

    ghost view = { λ c. c.entries };
}

impl ManifestCache {
    /// An empty cache of at most `size` manifests, with room for their ids. What it holds will be kept on `alloc`.
    pub fn new(alloc: Global, size: usize) -> Result<ManifestCache, Memory>
        requires { 1 ≤ size }
        ensures { IfOk result (λ cache. cache ≡ lru_cache [] size) }
    {
        let size = NonZeroUsize::new(size).unwrap();
        let entries = LruCache::new(alloc, size)?;
        Ok(ManifestCache { alloc, entries })
    }

    /// How many manifests it has: each id once, and no more than its size.
    pub fn len(&self) -> usize
        ensures len { result ≡ length self.now.entries }
        ensures valid { IsValid same_manifest self.now }
    {
        self.entries.len()
    }

    /// Whether there is an entry under the manifest's id with the five values that were kept. It leaves the order as
    /// it is.
    #[tactic(auto, unfolding(crate::specs::Cached::held))]
    pub fn holds(&self, kept: &Kept) -> bool
        ensures { result ≡ is_held self.now.entries kept.now }
    {
        match self.entries.peek(&kept.id()) {
            Some(entry) => entry.has_values(kept),
            None => false,
        }
    }

    /// A copy of the manifest that is held with these five values, which becomes the most recently used one. `None`:
    /// none is held with them, and the order is as before. What is held stays held. `Memory` leaves the cache as
    /// before.
    pub fn get(&mut self, alloc: Global, kept: &Kept) -> Result<Option<Manifest>, Memory>
        ensures found { IfOk result (λ found. option_map listed_by found ≡ held self.old.entries kept.now) }
        ensures good { IfOk result (λ found. IfSome found (λ m. IsOf kept.now (listed_by m))) }
        ensures order { OnOk result (self.new ≡ lru_cache (if is_held self.old.entries kept.now then promoted (same_manifest kept.now.id) self.old.entries else self.old.entries) self.old.cap) }
        ensures same { OnOk result ((other : KeptView) → held self.new.entries other ≡ held self.old.entries other) }
        ensures err { OnErr result (self.new ≡ self.old) }
    {
        // That no id lies there twice is told by its length.
        let _len = self.len();
        let copy = self.hand_out(alloc, kept)?;
        Ok(copy)
    }

    /// Puts a copy of the manifest that was loaded for `kept` into the cache, as the most recently used one, in the
    /// place of an entry under the same id. `Memory` leaves the cache as before.
    pub fn put(&mut self, kept: &Kept, manifest: &Manifest) -> Result<(), Memory>
        requires { IsOf kept.now (listed_by manifest.now) }
        ensures ok { OnOk result (self.new ≡ lru_cache (put_entries same_manifest self.old kept.now.id (cached kept.now (listed_by manifest.now))) self.old.cap) }
        ensures err { OnErr result (self.new ≡ self.old) }
    {
        let entry = Cached::new(self.alloc, kept, manifest)?;
        self.entries.put(kept.id(), entry)?;
        Ok(())
    }

    // A copy of the manifest that is held with these five values, which then goes first.
    fn hand_out(&mut self, alloc: Global, kept: &Kept) -> Result<Option<Manifest>, Memory>
        ensures found { IfOk result (λ found. option_map listed_by found ≡ held self.old.entries kept.now) }
        ensures good { IfOk result (λ found. IfSome found (λ m. IsOf kept.now (listed_by m))) }
        ensures order { OnOk result (self.new ≡ lru_cache (if is_held self.old.entries kept.now then promoted (same_manifest kept.now.id) self.old.entries else self.old.entries) self.old.cap) }
        ensures err { OnErr result (self.new ≡ self.old) }
    {
        let copy = self.copy_of(alloc, kept)?;
        if copy.is_some() {
            let _ = self.entries.promote(&kept.id());
        }
        Ok(copy)
    }

    // A copy of the manifest that is held with these five values.
    #[tactic(auto, unfolding(crate::specs::Cached::held))]
    fn copy_of(&self, alloc: Global, kept: &Kept) -> Result<Option<Manifest>, Memory>
        ensures found { IfOk result (λ found. option_map listed_by found ≡ held self.now.entries kept.now) }
        ensures good { IfOk result (λ found. IfSome found (λ m. IsOf kept.now (listed_by m))) }
    {
        match self.entries.peek(&kept.id()) {
            Some(entry) => {
                if !entry.has_values(kept) {
                    return Ok(None);
                }
                let copy = entry.copy(alloc)?;
                Ok(Some(copy))
            }
            None => Ok(None),
        }
    }
}
