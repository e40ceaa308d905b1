// A loaded manifest beside what was kept of it.
ghost use Rattle.std.specs.Prelude.{◌≡◌, IfOk};
ghost use Rattle.ss_base.specs.declared.ids.ManifestId.{ManifestId};
ghost use Rattle.manifest_cache.specs.Cached.{IsOf, kept_of, cached, listed_by, same_values};

use manifest_codec::Manifest;
use ss_base::{ContainerId, Memory, Name};
use std::alloc::Global;
use std::marker::Model;
use store_core::Kept;

/// What lies in the cache under a manifest's id: the other values that were kept of it, and the manifest. The manifest
/// is as good as a load's: its text has the kept digest, and it is like what was kept.
#[derive(Drop)]
pub struct Cached {
    text: Name,
    content: Name,
    chunks: u32,
    uses: Vec<ContainerId>,
    manifest: Manifest,
}

impl Model for Cached {
    ghost use Rattle.ss_base.specs.declared.ids.ManifestId.{ManifestId};
    ghost use Rattle.manifest_cache.specs.Cached.{CachedView, IsOf, listed_by};

    ghost Value = { CachedView };

    ghost view = { λ c. record { text = c.text; content = c.content; chunks = c.chunks; uses = c.uses.items; manifest = listed_by c.manifest } };

    ghost invariant = { λ c. (id : ManifestId) → IsOf (record { id = id; text = c.text; content = c.content; chunks = c.chunks; uses = c.uses.items }) (listed_by c.manifest) };
}

// A copy of a manifest.
fn copy_of(alloc: Global, manifest: &Manifest) -> Result<Manifest, Memory>
    ensures { IfOk result (λ copy. listed_by copy ≡ listed_by manifest.now) }
{
    let pieces = Vec::from_slice(alloc, &manifest.pieces)?;
    let places = Vec::from_slice(alloc, &manifest.places)?;
    Ok(Manifest { pieces, places })
}

impl Cached {
    // A copy of a manifest beside what was kept of it.
    pub(crate) fn new(alloc: Global, kept: &Kept, manifest: &Manifest) -> Result<Cached, Memory>
        requires { IsOf kept.now (listed_by manifest.now) }
        ensures { IfOk result (λ entry. entry ≡ cached kept.now (listed_by manifest.now)) }
    {
        let uses = Vec::from_slice(alloc, kept.uses())?;
        let manifest = copy_of(alloc, manifest)?;
        Ok(Cached {
            text: kept.text(),
            content: kept.content(),
            chunks: kept.chunks(),
            uses,
            manifest,
        })
    }

    // Whether it has the values that were kept.
    pub(crate) fn has_values(&self, kept: &Kept) -> bool
        ensures { result ≡ same_values self.now kept.now }
    {
        self.text == kept.text()
            && self.content == kept.content()
            && self.chunks == kept.chunks()
            && self.uses.as_slice() == kept.uses()
    }

    // A copy of its manifest.
    pub(crate) fn copy(&self, alloc: Global) -> Result<Manifest, Memory>
        ensures copy { IfOk result (λ copy. listed_by copy ≡ self.now.manifest) }
        ensures good { IfOk result (λ copy. (id : ManifestId) → IsOf (kept_of id self.now) self.now.manifest) }
    {
        let copy = copy_of(alloc, &self.manifest)?;
        Ok(copy)
    }
}
