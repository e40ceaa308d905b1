// What becomes of the list of one hook.
ghost use Rattle.std.specs.Prelude.{◌≡◌, ◌∷◌, ◌++◌, take, drop, None, if◌then◌else◌};
ghost use Rattle.std.specs.List.{IsDistinct, list_any};
ghost use Rattle.std.specs.Option.{option_to_list};
ghost use Rattle.ss_base.specs.Ids.{same_manifest, has_manifest};
ghost use Rattle.ss_base.specs.Champions.{stands_in};
ghost use Rattle.ss_base.specs.Standings.{in_front, standing_of, promoted, without_manifest};

use arrayvec::ArrayVec;
use ss_base::{ManifestId, Standing};

pub(crate) fn same_manifest(a: ManifestId, b: ManifestId) -> bool
    ensures { result ≡ same_manifest a b }
{
    a.session == b.session && a.seq == b.seq
}

#[tactic(auto, unfolding(ss_base::specs::Ids::has_manifest))]
pub(crate) fn has_manifest(id: ManifestId, ids: &[ManifestId]) -> bool
    ensures { result ≡ has_manifest id ids.now }
{
    ids.iter().any(|other| same_manifest(id, *other))
}

#[tactic(auto, unfolding(ss_base::specs::Champions::stands_in))]
pub(crate) fn stands_in(id: ManifestId, stood: &[Standing]) -> bool
    ensures { result ≡ stands_in id stood.now }
{
    stood.iter().any(|standing| same_manifest(id, standing.id))
}

// Whether one of the manifests stands behind the first place.
fn one_stands_behind(ids: &[ManifestId], stood: &[Standing]) -> bool
    ensures { result ≡ list_any (λ standing. has_manifest standing.id ids.now) (drop 1 stood.now) }
{
    stood
        .iter()
        .skip(1)
        .any(|standing| has_manifest(standing.id, ids))
}

#[tactic(auto, unfolding(ss_base::specs::Standings::standing_of))]
fn standing_of(id: ManifestId, stood: &[Standing]) -> Option<Standing>
    ensures { result ≡ standing_of id stood.now }
{
    stood
        .iter()
        .copied()
        .find(|standing| same_manifest(id, standing.id))
}

// The standing, but for one that goes.
fn unless(goes: bool, standing: Standing) -> Option<Standing>
    ensures { result ≡ (if goes then None else Some standing) }
{
    if goes { None } else { Some(standing) }
}

// Adds what there is, where there is room.
fn add<const L: usize>(list: &mut ArrayVec<Standing, L>, found: Option<Standing>)
    ensures { list.new.items ≡ take L (list.old.items ++ option_to_list found) }
{
    if list.is_full() {
        return;
    }
    if let Some(standing) = found {
        list.push(standing);
    }
}

// The manifest in front of what stood, of which the last past the bound is dropped.
pub(crate) fn in_front<const L: usize>(
    standing: Standing,
    stood: &ArrayVec<Standing, L>,
) -> ArrayVec<Standing, L>
    ensures { result.items ≡ in_front L standing stood.now.items }
{
    let mut list = ArrayVec::new();
    add(&mut list, Some(standing));
    for other in stood.as_slice() {
        add(&mut list, Some(*other));
    }
    list
}

// Moves the champions that stand in the list to its front. Mostly none stands behind its
// first place, and it stays as it is.
pub(crate) fn promote<const L: usize>(champions: &[ManifestId], list: &mut ArrayVec<Standing, L>)
    requires { IsDistinct same_manifest champions.now }
    ensures { list.new.items ≡ promoted champions.now list.old.items }
{
    if one_stands_behind(champions, list.as_slice()) {
        let changed = promoted(champions, list);
        *list = changed;
    }
}

// The champions that stood, in their order, then the others as they stood.
fn promoted<const L: usize>(
    champions: &[ManifestId],
    stood: &ArrayVec<Standing, L>,
) -> ArrayVec<Standing, L>
    requires { IsDistinct same_manifest champions.now }
    ensures { result.items ≡ promoted champions.now stood.now.items }
{
    let mut list = ArrayVec::new();
    for id in champions {
        add(&mut list, standing_of(*id, stood.as_slice()));
    }
    for standing in stood.as_slice() {
        add(
            &mut list,
            unless(has_manifest(standing.id, champions), *standing),
        );
    }
    list
}

// Takes the manifest out of the list, if it stands there.
pub(crate) fn retire<const L: usize>(id: ManifestId, list: &mut ArrayVec<Standing, L>)
    ensures { list.new.items ≡ without_manifest id list.old.items }
{
    if stands_in(id, list.as_slice()) {
        let changed = without_manifest(id, list);
        *list = changed;
    }
}

// What stood, without the manifest.
fn without_manifest<const L: usize>(
    id: ManifestId,
    stood: &ArrayVec<Standing, L>,
) -> ArrayVec<Standing, L>
    ensures { result.items ≡ without_manifest id stood.now.items }
{
    let mut list = ArrayVec::new();
    for standing in stood.as_slice() {
        add(&mut list, unless(same_manifest(standing.id, id), *standing));
    }
    list
}
