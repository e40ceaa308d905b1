// Manifests that are loaded once and asked for again.
ghost use Rattle.outside.specs.Views.{shelf_view};
ghost use Rattle.depot.specs.Loading.{LoadAnswer};

use crate::test_state::{Store, store_of};
use crate::{ManifestCache, entries_of_a_cache, held_manifests};
use depot::{Depot, LoadFault};
use manifest_codec::Manifest;
use outside::Shelf;
use std::alloc::Global;
use std::process::Abort;
use std::test::Fail;
use store_core::Kept;

fn load<S: Shelf>(alloc: Global, shelf: &mut S, kept: &Kept) -> Result<Manifest, LoadFault>
    ensures { LoadAnswer (shelf_view ⟦<S as Shelf>⟧ shelf.old) (shelf_view ⟦<S as Shelf>⟧ shelf.new) kept.now result }
{
    Depot::over(shelf).load(alloc, kept)
}

// Loads the manifest and puts it into the cache.
fn fetch<S: Shelf>(
    alloc: Global,
    shelf: &mut S,
    cache: &mut ManifestCache,
    kept: &Kept,
) -> Result<Manifest, Fail> {
    match load(alloc, shelf, kept) {
        Ok(manifest) => {
            cache.put(kept, &manifest)?;
            Ok(manifest)
        }
        Err(_) => Err("not loaded")?,
    }
}

fn is_same(one: &Manifest, other: &Manifest) -> bool {
    one.pieces.as_slice() == other.pieces.as_slice()
        && one.places.as_slice() == other.places.as_slice()
}

// Asks for the store's manifest with this number, and answers whether the cache had it.
fn ask(
    alloc: Global,
    store: &mut Store,
    cache: &mut ManifestCache,
    number: usize,
) -> Result<bool, Fail> {
    let kept = store.kept.get(number).ok_or("kept")?;
    let held = cache.holds(kept);
    let copy = cache.get(alloc, kept)?;
    if copy.is_some() != held {
        Err("not as it is held")?;
    }
    if copy.is_none() {
        fetch(alloc, &mut store.shelf, cache, kept)?;
    }
    Ok(held)
}

fn holds(store: &Store, cache: &ManifestCache, number: usize) -> bool {
    match store.kept.get(number) {
        Some(kept) => cache.holds(kept),
        None => false,
    }
}

fn abc(alloc: Global, fails: u32) -> Result<Store, Fail> {
    store_of(alloc, b"a", b"b", b"c", fails)
}

// The shelf's second call fails, and only the test makes it.
#[test]
fn a_manifest_is_read_once(rt: HostRuntime) -> Result<(), Fail> {
    held_manifests();
    entries_of_a_cache();
    let alloc = rt.alloc();
    let mut store = abc(alloc, 2)?;
    let mut cache = ManifestCache::new(alloc, 64)?;
    assert!(rt; cache.len() == 0);
    let kept = store.kept.get(0).ok_or("kept")?;
    assert!(rt; cache.get(alloc, kept)?.is_none());
    let loaded = fetch(alloc, &mut store.shelf, &mut cache, kept)?;
    let copy = cache.get(alloc, kept)?.ok_or("a copy")?;
    assert!(rt; is_same(&loaded, &copy));
    let again = cache.get(alloc, kept)?.ok_or("a copy")?;
    assert!(rt; is_same(&loaded, &again));
    assert!(rt; cache.len() == 1);
    assert!(rt; store.shelf.has("m-0-0").is_err());
    Ok(())
}

#[test]
fn a_cache_of_one_manifest(rt: HostRuntime) -> Result<(), Fail> {
    let alloc = rt.alloc();
    let mut store = abc(alloc, 0)?;
    let mut cache = ManifestCache::new(alloc, 1)?;
    assert!(rt; !ask(alloc, &mut store, &mut cache, 0)?);
    assert!(rt; !ask(alloc, &mut store, &mut cache, 1)?);
    assert!(rt; !ask(alloc, &mut store, &mut cache, 0)?);
    assert!(rt; ask(alloc, &mut store, &mut cache, 0)?);
    assert!(rt; cache.len() == 1);
    Ok(())
}

// Two stores keep other values under one id.
#[test]
fn other_values_are_not_held(rt: HostRuntime) -> Result<(), Fail> {
    let alloc = rt.alloc();
    let mut one = abc(alloc, 0)?;
    let mut other = store_of(alloc, b"b", b"a", b"c", 0)?;
    let mut cache = ManifestCache::new(alloc, 64)?;
    assert!(rt; !ask(alloc, &mut one, &mut cache, 0)?);
    assert!(rt; !holds(&other, &cache, 0));
    assert!(rt; holds(&one, &cache, 0));
    assert!(rt; !ask(alloc, &mut other, &mut cache, 0)?);
    assert!(rt; holds(&other, &cache, 0));
    assert!(rt; !holds(&one, &cache, 0));
    assert!(rt; cache.len() == 1);
    Ok(())
}

#[test]
fn the_least_recently_used_goes(rt: HostRuntime) -> Result<(), Fail> {
    let alloc = rt.alloc();
    let mut store = abc(alloc, 0)?;
    let mut cache = ManifestCache::new(alloc, 2)?;
    assert!(rt; !ask(alloc, &mut store, &mut cache, 0)?);
    assert!(rt; !ask(alloc, &mut store, &mut cache, 1)?);
    assert!(rt; ask(alloc, &mut store, &mut cache, 0)?);
    assert!(rt; !ask(alloc, &mut store, &mut cache, 2)?);
    assert!(rt; !holds(&store, &cache, 1));
    assert!(rt; holds(&store, &cache, 0));
    assert!(rt; holds(&store, &cache, 2));
    // That they were found left the order as it was.
    assert!(rt; !ask(alloc, &mut store, &mut cache, 1)?);
    assert!(rt; !holds(&store, &cache, 0));
    Ok(())
}
