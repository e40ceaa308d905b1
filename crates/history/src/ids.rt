// When names, ids and objects are the same, and when one is among others.
ghost use Rattle.std.specs.Prelude.{◌≡◌};
ghost use Rattle.ss_base.specs.Ids.{same_name, same_manifest, same_container, same_object, has_name, has_manifest, has_container, has_object};

use ss_base::{ContainerId, ManifestId, Name, Object};

pub(crate) fn same_name(a: &Name, b: &Name) -> bool
    ensures { result ≡ same_name a.now b.now }
{
    a.0 == b.0
}

#[tactic(auto, unfolding(ss_base::specs::Ids::has_name))]
pub(crate) fn has_name(name: &Name, names: &[Name]) -> bool
    ensures { result ≡ has_name name.now names.now }
{
    names.iter().any(|other| same_name(name, other))
}

pub(crate) fn same_manifest(a: ManifestId, b: ManifestId) -> bool
    ensures { result ≡ same_manifest a b }
{
    a == b
}

pub(crate) fn same_container(a: ContainerId, b: ContainerId) -> bool
    ensures { result ≡ same_container a b }
{
    a == b
}

pub(crate) fn same_object(a: &Object, b: &Object) -> bool
    ensures { result ≡ same_object a.now b.now }
{
    match (a, b) {
        (Object::Container(a), Object::Container(b)) => same_container(*a, *b),
        (Object::Manifest(a), Object::Manifest(b)) => same_manifest(*a, *b),
        _ => false,
    }
}

#[tactic(auto, unfolding(ss_base::specs::Ids::has_manifest))]
pub(crate) fn has_manifest(id: ManifestId, ids: &[ManifestId]) -> bool
    ensures { result ≡ has_manifest id ids.now }
{
    ids.iter().any(|other| same_manifest(id, *other))
}

#[tactic(auto, unfolding(ss_base::specs::Ids::has_container))]
pub(crate) fn has_container(id: ContainerId, ids: &[ContainerId]) -> bool
    ensures { result ≡ has_container id ids.now }
{
    ids.iter().any(|other| same_container(id, *other))
}

#[tactic(auto, unfolding(ss_base::specs::Ids::has_object))]
pub(crate) fn has_object(object: &Object, objects: &[Object]) -> bool
    ensures { result ≡ has_object object.now objects.now }
{
    objects.iter().any(|other| same_object(object, other))
}
