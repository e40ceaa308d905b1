// Manifests that are checked against what was kept of them.
ghost use Rattle.std.specs.Prelude.{◌≡◌, true, false, IfOk, IfSome, IfNone};
ghost use Rattle.manifest_codec.specs.Containers.{AreContainers};
ghost use Rattle.manifest_codec.specs.Text.{manifest_text, AreManifest};
ghost use Rattle.depot.specs.Loading.{IsLike, HasNoneLike, LoadAnswer};

use crate::shelf_calls::read_object;
use crate::{Depot, LoadFault};
use chunk_name::name_of;
use manifest_codec::{DecodeFault, Manifest, containers, content, decode};
use outside::Shelf;
use ss_base::{ContainerId, Memory, Object};
use std::alloc::Global;
use store_core::Kept;

impl<S: Shelf> Depot<'_, S> {
    ghost use Rattle.depot.specs.Seen.{shelf_of, seen};

    /// The manifest of which this was kept, by one read of its object: from the start, 48 bytes for each chunk. It has
    /// the digests, the number of chunks and the containers that were kept. `Damaged`: what was read has another
    /// SHA-256 than was kept. `Unlike`: it has the kept one, and no manifest like what was kept has that text. `Shelf`:
    /// the read failed.
    pub fn load(&mut self, alloc: Global, kept: &Kept) -> Result<Manifest, LoadFault>
        ensures same_reference { (shelf_of self.new).ghost_name ≡ (shelf_of self.old).ghost_name }
        ensures answer { LoadAnswer (seen ⟦<S as Shelf>⟧ self.old) (seen ⟦<S as Shelf>⟧ self.new) kept.now result }
    {
        let object = Object::Manifest(kept.id());
        let len = kept.chunks() as usize * 48;
        let text = read_object(alloc, self.shelf, object, 0, len)?;
        let got = name_of(&text);
        let want = kept.text();
        if got != want {
            return Err(LoadFault::Damaged { want, got });
        }
        match manifest_of(alloc, kept, &text)? {
            Some(manifest) => Ok(manifest),
            None => Err(LoadFault::Unlike { text: want }),
        }
    }
}

// The manifest like what was kept that has this text.
fn manifest_of(alloc: Global, kept: &Kept, text: &[u8]) -> Result<Option<Manifest>, Memory>
    ensures text { IfOk result (λ found. IfSome found (λ m. manifest_text m.pieces.items m.places.items ≡ text.now)) }
    ensures like { IfOk result (λ found. IfSome found (λ m. IsLike kept.now m.pieces.items m.places.items)) }
    ensures none { IfOk result (λ found. IfNone found (HasNoneLike kept.now text.now)) }
{
    match decode(alloc, text) {
        Ok(manifest) => {
            if !is_like(alloc, kept, &manifest)? {
                return Ok(None);
            }
            Ok(Some(manifest))
        }
        Err(DecodeFault::NotManifest) => Ok(None),
        Err(DecodeFault::Memory) => Err(Memory),
    }
}

// Whether the manifest has the content, the number of chunks and the containers that were kept.
fn is_like(alloc: Global, kept: &Kept, manifest: &Manifest) -> Result<bool, Memory>
    requires { AreManifest manifest.now.pieces.items manifest.now.places.items }
    ensures yes { IfOk result (λ like. like ≡ true → IsLike kept.now manifest.now.pieces.items manifest.now.places.items) }
    ensures no { IfOk result (λ like. like ≡ false → IsLike kept.now manifest.now.pieces.items manifest.now.places.items → ⊥) }
{
    if content(&manifest.pieces) != kept.content() {
        return Ok(false);
    }
    if manifest.pieces.len() != kept.chunks() as usize {
        return Ok(false);
    }
    has_uses(alloc, manifest, kept.uses())
}

// Whether the manifest's containers are these.
fn has_uses(alloc: Global, manifest: &Manifest, uses: &[ContainerId]) -> Result<bool, Memory>
    ensures yes { IfOk result (λ has. has ≡ true → AreContainers manifest.now.places.items uses.now) }
    ensures no { IfOk result (λ has. has ≡ false → AreContainers manifest.now.places.items uses.now → ⊥) }
{
    let found = containers(alloc, manifest)?;
    Ok(found.as_slice() == uses)
}
