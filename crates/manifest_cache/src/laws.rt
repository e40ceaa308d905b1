// What it means that a manifest is held, and where the entries come from.
ghost use Rattle.std.specs.Prelude.{◌≡◌, ◌⊎◌, Some, Contains};
ghost use Rattle.lru.specs.LruCache.{LruCache, IsValid, promoted, put_entries};
ghost use Rattle.ss_base.specs.declared.ids.ManifestId.{ManifestId};
ghost use Rattle.ss_base.specs.Ids.{same_manifest};
ghost use Rattle.segment_plan.specs.Plan.{Located};
ghost use Rattle.store_core.specs.View.{KeptView};
ghost use Rattle.manifest_cache.specs.Cached.{CachedView, cached, held};

/// A manifest is held for what was kept exactly where it lies in the cache under the same five values. It runs nothing.
pub fn held_manifests()
    ensures found { (cache : LruCache ManifestId CachedView) (kept : KeptView) (manifest : Located)
        → held cache.entries kept ≡ Some manifest → Contains cache.entries (kept.id, cached kept manifest) }
    ensures lies { (cache : LruCache ManifestId CachedView) (kept : KeptView) (manifest : Located)
        → IsValid same_manifest cache → Contains cache.entries (kept.id, cached kept manifest) → held cache.entries kept ≡ Some manifest }
{}

/// Behind a copy that was handed out each entry is one that was there, and behind a put one that was there or the one
/// that was put. It runs nothing.
pub fn entries_of_a_cache()
    ensures copied { (cache : LruCache ManifestId CachedView) (id : ManifestId) (entry : ManifestId × CachedView)
        → Contains (promoted (same_manifest id) cache.entries) entry → Contains cache.entries entry }
    ensures put { (cache : LruCache ManifestId CachedView) (id : ManifestId) (with : CachedView) (entry : ManifestId × CachedView)
        → Contains (put_entries same_manifest cache id with) entry → Contains cache.entries entry ⊎ (entry ≡ (id, with)) }
{}
