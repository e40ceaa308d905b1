ghost use Rattle.std.specs.Prelude.{◌≡◌, false, All};
ghost use Rattle.std.specs.Bool.{OnTrue};
ghost use Rattle.std.specs.List.{IsDistinct};
ghost use Rattle.ss_base.specs.Ids.{same_name, same_manifest, has_name, has_manifest};
ghost use Rattle.ss_base.specs.Champions.{stands_in};
ghost use Rattle.sparse_index.specs.Lists.{list_at};

use crate::Index;
use crate::list::{has_manifest, stands_in};
use ss_base::{ManifestId, Name, Standing};
use std::process::Abort;
use std::test::Fail;

const H: Name = Name([1; 32]);

const G: Name = Name([2; 32]);

const M0: ManifestId = ManifestId { session: 0, seq: 0 };

const M1: ManifestId = ManifestId { session: 1, seq: 0 };

const M2: ManifestId = ManifestId { session: 2, seq: 0 };

fn same_name(a: &Name, b: &Name) -> bool
    ensures { result ≡ same_name a.now b.now }
{
    a.0 == b.0
}

#[tactic(auto, unfolding(ss_base::specs::Ids::has_name))]
fn has_name(name: &Name, names: &[Name]) -> bool
    ensures { result ≡ has_name name.now names.now }
{
    names.iter().any(|other| same_name(name, other))
}

fn are_distinct(names: &[Name]) -> bool
    ensures { OnTrue result (IsDistinct same_name names.now) }
{
    for (i, name) in names.iter().enumerate() {
        if has_name(name, &names[..i]) {
            return false;
        }
    }
    true
}

fn are_distinct_ids(ids: &[ManifestId]) -> bool
    ensures { OnTrue result (IsDistinct same_manifest ids.now) }
{
    for (i, id) in ids.iter().enumerate() {
        if has_manifest(*id, &ids[..i]) {
            return false;
        }
    }
    true
}

fn stand_nowhere<const L: usize>(index: &Index<L>, hooks: &[Name], id: ManifestId) -> bool
    ensures { OnTrue result (All (λ hook. stands_in id (list_at index.now hook) ≡ false) hooks.now) }
{
    for hook in hooks {
        if stands_in(id, index.of(hook)) {
            return false;
        }
    }
    true
}

// The manifest is committed with these hooks. Its stamp is its session's number.
fn put<const L: usize>(
    rt: &impl Abort,
    index: &mut Index<L>,
    hooks: &[Name],
    id: ManifestId,
) -> Result<(), Fail> {
    index.make_room(hooks)?;
    assert!(rt; are_distinct(hooks));
    assert!(rt; stand_nowhere(index, hooks, id));
    index.put(
        hooks,
        Standing {
            id,
            stamp: id.session,
        },
    );
    Ok(())
}

fn promote<const L: usize>(
    rt: &impl Abort,
    index: &mut Index<L>,
    hooks: &[Name],
    champions: &[ManifestId],
) {
    assert!(rt; are_distinct(hooks));
    assert!(rt; are_distinct_ids(champions));
    index.promote(hooks, champions);
}

// Whether these stand at the hook.
fn stand<const L: usize>(index: &Index<L>, hook: &Name, ids: &[ManifestId]) -> bool {
    let stood = index.of(hook);
    if stood.len() != ids.len() {
        return false;
    }
    for (standing, id) in stood.iter().zip(ids.iter()) {
        if standing.id != *id || standing.stamp != id.session {
            return false;
        }
    }
    true
}

#[test]
fn a_list_at_its_bound_loses_its_last(rt: HostRuntime) -> Result<(), Fail> {
    let mut index = Index::<2>::new(rt.alloc());
    put(&rt, &mut index, &[H], M0)?;
    assert!(rt; stand(&index, &H, &[M0]));
    put(&rt, &mut index, &[H], M1)?;
    assert!(rt; stand(&index, &H, &[M1, M0]));
    put(&rt, &mut index, &[H], M2)?;
    assert!(rt; stand(&index, &H, &[M2, M1]));
    assert!(rt; stand(&index, &G, &[]));
    Ok(())
}

#[test]
fn promotion_in_a_standing_list(rt: HostRuntime) -> Result<(), Fail> {
    let mut index = Index::<2>::new(rt.alloc());
    put(&rt, &mut index, &[H, G], M0)?;
    put(&rt, &mut index, &[H], M1)?;
    promote(&rt, &mut index, &[H, G], &[M0]);
    assert!(rt; stand(&index, &H, &[M0, M1]));
    put(&rt, &mut index, &[H, G], M2)?;
    assert!(rt; stand(&index, &H, &[M2, M0]));
    assert!(rt; stand(&index, &G, &[M2, M0]));
    Ok(())
}

// Three streams have the hook H, the first also G. Each is committed with the one before as its champion.
#[test]
fn champions_on_a_tie(rt: HostRuntime) -> Result<(), Fail> {
    let mut index = Index::<8>::new(rt.alloc());
    put(&rt, &mut index, &[H, G], M0)?;
    promote(&rt, &mut index, &[H], &[M0]);
    put(&rt, &mut index, &[H], M1)?;
    assert!(rt; stand(&index, &H, &[M1, M0]));
    assert!(rt; stand(&index, &G, &[M0]));
    promote(&rt, &mut index, &[H], &[M1]);
    put(&rt, &mut index, &[H], M2)?;
    assert!(rt; stand(&index, &H, &[M2, M1, M0]));
    promote(&rt, &mut index, &[H], &[M0, M2]);
    assert!(rt; stand(&index, &H, &[M0, M2, M1]));
    Ok(())
}

#[test]
fn retired_manifests(rt: HostRuntime) -> Result<(), Fail> {
    let mut index = Index::<2>::new(rt.alloc());
    put(&rt, &mut index, &[H, G], M0)?;
    put(&rt, &mut index, &[H], M1)?;
    index.retire(&[H, G], M2);
    assert!(rt; stand(&index, &H, &[M1, M0]));
    assert!(rt; stand(&index, &G, &[M0]));
    index.retire(&[G, G], M0);
    assert!(rt; stand(&index, &H, &[M1, M0]));
    assert!(rt; stand(&index, &G, &[]));
    index.retire(&[H, G], M0);
    assert!(rt; stand(&index, &H, &[M1]));
    Ok(())
}

#[test]
fn ready_hooks(rt: HostRuntime) -> Result<(), Fail> {
    let mut index = Index::<1>::new(rt.alloc());
    assert!(rt; index.has_room(&[]));
    assert!(rt; !index.has_room(&[H]));
    index.make_room(&[H, H])?;
    assert!(rt; index.has_room(&[H]));
    assert!(rt; !index.has_room(&[H, G]));
    assert!(rt; stand(&index, &H, &[]));
    index.make_room(&[G])?;
    assert!(rt; index.has_room(&[G, H]));
    Ok(())
}
