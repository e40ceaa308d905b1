// The place of each manifest's score.
ghost use Rattle.std.specs.Prelude.{◌≡◌, ℕ, [], Some, OnOk, IfOk, IfNone, IfSome};
ghost use Rattle.ss_base.specs.Ids.{same_manifest};
ghost use Rattle.champion_choice.specs.Scores.{id_at, ArePlaces, HasPlace, HasNoPlace};

use crate::score::Score;
use fx_hash::FxMap;
use ss_base::{ManifestId, Memory, Standing};
use std::alloc::Global;
use std::collections::HashMap;
use std::hash::BuildHasherDefault;

// A map costs more than to search so many.
const FEW: usize = 64;

// The places by a map, or none where the scores are few and are searched.
pub(crate) type Places = Option<FxMap<ManifestId, usize>>;

// The places of no scores, where at most so many will come.
pub(crate) fn no_places(alloc: Global, most: usize) -> Result<Places, Memory>
    ensures { IfOk result (λ places. ArePlaces places []) }
{
    if most <= FEW {
        return Ok(None);
    }
    let map = HashMap::with_capacity_and_hasher(alloc, most, BuildHasherDefault::new())?;
    Ok(Some(map))
}

fn same_manifest(a: ManifestId, b: ManifestId) -> bool
    ensures { result ≡ same_manifest a b }
{
    a.session == b.session && a.seq == b.seq
}

// The place of the manifest's score, by a look at each of them.
fn search(scores: &[Score], id: ManifestId) -> Option<usize>
    ensures some { IfSome result (λ place. id_at scores.now place ≡ Some id) }
    ensures none { IfNone result (HasNoPlace scores.now id) }
{
    for (place, score) in scores.iter().enumerate() {
        if same_manifest(id, score.id) {
            return Some(place);
        }
    }
    None
}

// The place of the manifest's score.
fn find(places: &Places, scores: &[Score], id: ManifestId) -> Option<usize>
    requires { ArePlaces places.now scores.now }
    ensures some { IfSome result (λ place. id_at scores.now place ≡ Some id) }
    ensures none { IfNone result (HasNoPlace scores.now id) }
{
    match places {
        Some(map) => map.get(&id).copied(),
        None => search(scores, id),
    }
}

// The place of the manifest's score, which is made where it has none.
pub(crate) fn place_of(
    places: &mut Places,
    scores: &mut Vec<Score>,
    standing: Standing,
) -> Result<usize, Memory>
    requires { ArePlaces places.old scores.old.items }
    ensures places { OnOk result (ArePlaces places.new scores.new.items) }
    ensures place { IfOk result (λ place. HasPlace scores.old.items scores.new.items standing place) }
{
    if let Some(place) = find(places, scores.as_slice(), standing.id) {
        return Ok(place);
    }
    let place = scores.len();
    scores.push(Score {
        id: standing.id,
        stamp: standing.stamp,
        hooks: 0,
    })?;
    if let Some(map) = places {
        map.insert(standing.id, place)?;
    }
    Ok(place)
}
