// At how many uncovered hooks each manifest stands.
ghost use Rattle.std.specs.Prelude.{◌≡◌, ℕ, ◌-◌, ◌^◌, ◌<◌, slice_get, Some, OnOk, IfOk};
ghost use Rattle.champion_choice.specs.Scores.{hooks_at, id_at, AreApart, AreCells, ArePlaces, HasAdded, HasLowered, StandsOnce, is_ahead, IsBestOf};

use crate::places::{Places, place_of};
use ss_base::{ManifestId, Memory, Standing};

// A manifest, its stamp, and at how many hooks it stands.
#[derive(Clone, Copy)]
pub(crate) struct Score {
    pub(crate) id: ManifestId,
    pub(crate) stamp: u32,
    pub(crate) hooks: usize,
}

// No score, behind which no other is.
const NOBODY: Score = Score {
    id: ManifestId { session: 0, seq: 0 },
    stamp: 0,
    hooks: 0,
};

// Counts one hook more for what stands there, and tells the place of its score.
pub(crate) fn add_one(
    places: &mut Places,
    scores: &mut Vec<Score>,
    standing: Standing,
) -> Result<usize, Memory>
    requires places { ArePlaces places.old scores.old.items }
    requires room { hooks_at scores.old.items standing.id < 2 ^ 64 - 1 }
    ensures places { OnOk result (ArePlaces places.new scores.new.items) }
    ensures added { IfOk result (λ place. HasAdded scores.old.items scores.new.items standing place) }
{
    let place = place_of(places, scores, standing)?;
    scores[place].hooks += 1;
    Ok(place)
}

// Takes one hook away from each manifest that stands in the list, whose scores stand at these places.
pub(crate) fn lower(scores: &mut [Score], stood: &[Standing], cells: &[usize])
    requires apart { AreApart (id_at scores.old) }
    requires cells { AreCells (id_at scores.old) cells.now stood.now }
    requires once { StandsOnce stood.now }
    ensures { HasLowered scores.old scores.new stood.now }
{
    for i in 0..stood.len() {
        let score = &mut scores[cells[i]];
        score.hooks = score.hooks.saturating_sub(1);
    }
}

// Whether the first stands at more hooks than the second, or at as many and was not committed earlier.
fn is_ahead(a: Score, b: Score) -> bool
    ensures { result ≡ is_ahead a b }
{
    b.hooks < a.hooks || (a.hooks == b.hooks && b.stamp <= a.stamp)
}

// The best score and its place, if one stands at an uncovered hook.
pub(crate) fn best(scores: &[Score]) -> Option<(usize, Score)>
    ensures { IsBestOf scores.now result }
{
    let mut best = NOBODY;
    let mut at = 0;
    for (place, score) in scores.iter().enumerate() {
        if is_ahead(*score, best) {
            best = *score;
            at = place;
        }
    }
    if best.hooks == 0 {
        return None;
    }
    Some((at, best))
}
