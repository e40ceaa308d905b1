// The containers in which a manifest's chunks lie.
ghost use Rattle.std.specs.Prelude.{◌≡◌, map, IfOk};
ghost use Rattle.manifest_codec.specs.Containers.{AreContainers};

use crate::Manifest;
use ss_base::{ContainerId, Memory, Place};
use std::alloc::Global;

/// The distinct containers of the manifest's places, ascending.
pub fn containers(alloc: Global, manifest: &Manifest) -> Result<Vec<ContainerId>, Memory>
    ensures { IfOk result (λ ids. AreContainers manifest.now.places.items ids.items) }
{
    let mut ids = each_container(alloc, &manifest.places)?;
    ids.sort_unstable();
    ids.dedup();
    Ok(ids)
}

fn each_container(alloc: Global, places: &[Place]) -> Result<Vec<ContainerId>, Memory>
    ensures { IfOk result (λ ids. ids.items ≡ map (λ p. p.container) places.now) }
{
    let ids = places.iter().map(|place| place.container).collect(alloc)?;
    Ok(ids)
}
