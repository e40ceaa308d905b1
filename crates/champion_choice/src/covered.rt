// Which hooks are covered.
ghost use Rattle.std.specs.Prelude.{◌≡◌, ℕ, ◌-◌, ◌^◌, ◌<◌, ◌||◌, ◌==◌, All, length, Some, OnOk, IfOk};
ghost use Rattle.std.specs.List.{list_any};
ghost use Rattle.ss_base.specs.declared.ids.ManifestId.{ManifestId as Id};
ghost use Rattle.ss_base.specs.Champions.{stands_in, hooks_covered};
ghost use Rattle.champion_choice.specs.Scores.{hooks_at, stamp_at, id_at, AreApart, AreCells, ArePlaces, StandsOnce};
ghost use Rattle.champion_choice.specs.Lists.{shown, left, remaining, marked, covered_by, HasAddedList, HasCells, IsScored, ArePlaced};

use crate::places::{Places, no_places};
use crate::score::{Score, add_one, lower};
use ss_base::{Memory, Standing};
use std::alloc::Global;

// Whether the place is among the cells.
fn has_cell(cells: &[usize], place: usize) -> bool
    ensures { result ≡ list_any (λ cell. cell == place) cells.now }
{
    cells.iter().any(|cell| *cell == place)
}

// Counts one hook more for each manifest in the list, and adds the places of their scores.
fn add_list(
    places: &mut Places,
    scores: &mut Vec<Score>,
    cells: &mut Vec<usize>,
    stood: &[Standing],
) -> Result<(), Memory>
    requires places { ArePlaces places.old scores.old.items }
    requires once { StandsOnce stood.now }
    requires room { (q : Id) → hooks_at scores.old.items q < 2 ^ 64 - 1 }
    ensures places { OnOk result (ArePlaces places.new scores.new.items) }
    ensures added { OnOk result (HasAddedList scores.old.items scores.new.items stood.now) }
    ensures cells { OnOk result (HasCells scores.old.items cells.old.items scores.new.items cells.new.items stood.now) }
{
    for standing in stood {
        let place = add_one(places, scores, *standing)?;
        cells.push(place)?;
    }
    Ok(())
}

// So many stand in the lists.
fn count_of(lists: &[&[Standing]]) -> usize {
    let mut count = 0usize;
    for stood in lists {
        count = count.saturating_add(stood.len());
    }
    count
}

// The scores by all of the lists, and the place of the score of each that stands in them, list by list.
pub(crate) fn scores_of(
    alloc: Global,
    lists: &[&[Standing]],
) -> Result<(Vec<Score>, Vec<usize>), Memory>
    requires { All StandsOnce (shown lists.now) }
    ensures scored { IfOk result (λ made. IsScored made.0.items (shown lists.now)) }
    ensures placed { IfOk result (λ made. ArePlaced made.0.items made.1.items (shown lists.now)) }
{
    let count = count_of(lists);
    let mut places = no_places(alloc, count)?;
    let mut scores = Vec::with_capacity(alloc, count)?;
    let mut cells = Vec::with_capacity(alloc, count)?;
    for stood in lists {
        add_list(&mut places, &mut scores, &mut cells, stood)?;
    }
    Ok((scores, cells))
}

// Whether the hook is covered, or the champion stands there; then it lowers the scores of what stands there, where it
// was uncovered. The champion comes with the place of its score.
fn cover_hook(
    scores: &mut [Score],
    stood: &[Standing],
    cells: &[usize],
    covered: bool,
    champion: (usize, Score),
) -> bool
    requires apart { AreApart (id_at scores.old) }
    requires champion { id_at scores.old champion.0 ≡ Some champion.1.id }
    requires cells { AreCells (id_at scores.old) cells.now stood.now }
    requires once { StandsOnce stood.now }
    ensures covered { result ≡ (covered || stands_in champion.1.id stood.now) }
    ensures ids { (p : ℕ) → id_at scores.new p ≡ id_at scores.old p }
    ensures hooks { (q : Id) → hooks_at scores.new q ≡ hooks_at scores.old q - hooks_covered (covered_by champion.1.id (left covered stood.now)) q }
    ensures stamps { (q : Id) → stamp_at scores.new q ≡ stamp_at scores.old q }
{
    if covered {
        return true;
    }
    if !has_cell(cells, champion.0) {
        return false;
    }
    lower(scores, stood, cells);
    true
}

// Covers the hooks at which the champion stands, and lowers the scores of what stands at those that were uncovered.
pub(crate) fn cover(
    scores: &mut [Score],
    cells: &[usize],
    lists: &[&[Standing]],
    covered: &mut [bool],
    champion: (usize, Score),
)
    requires once { All StandsOnce (shown lists.now) }
    requires fits { length covered.old ≡ length lists.now }
    requires champion { id_at scores.old champion.0 ≡ Some champion.1.id }
    requires placed { ArePlaced scores.old cells.now (shown lists.now) }
    ensures covered { covered.new ≡ marked champion.1.id (shown lists.now) covered.old }
    ensures ids { (p : ℕ) → id_at scores.new p ≡ id_at scores.old p }
    ensures hooks { (q : Id) → hooks_at scores.new q ≡ hooks_at scores.old q - hooks_covered (covered_by champion.1.id (remaining covered.old (shown lists.now))) q }
    ensures stamps { (q : Id) → stamp_at scores.new q ≡ stamp_at scores.old q }
{
    let mut rest = cells;
    for (i, stood) in lists.iter().enumerate() {
        let (own, behind) = rest.split_at(stood.len());
        rest = behind;
        let now = cover_hook(scores, stood, own, covered[i], champion);
        covered[i] = now;
    }
}
