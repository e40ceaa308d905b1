// The rounds of the choice.
ghost use Rattle.std.specs.Prelude.{◌≡◌, ◌≤◌, All, IfOk};
ghost use Rattle.ss_base.specs.Champions.{champions};
ghost use Rattle.champion_choice.specs.Scores.{StandsOnce};
ghost use Rattle.champion_choice.specs.Lists.{shown, standings, StampsTell};

use crate::covered::{cover, scores_of};
use crate::score::best;
use arrayvec::ArrayVec;
use ss_base::{ManifestId, Memory, Standing};
use std::alloc::Global;

/// The champions of a segment, by one list of what stands for each of its hooks: at most `M` rounds, each of which
/// takes the manifest that stands at the most hooks not yet covered, of several such the one with the greatest stamp
/// (FAST 2009; the rule on ties is this project's own). The choice ends early where nothing stands at such a hook. A
/// manifest stands at most once in a list, and two ids are equal exactly where their stamps are.
pub fn choose_among<const M: usize>(
    alloc: Global,
    lists: &[&[Standing]],
) -> Result<ArrayVec<ManifestId, M>, Memory>
    requires rounds { (1 ≤ M) × (M ≤ 255) }
    requires once { All StandsOnce (shown lists.now) }
    requires stamps { StampsTell (shown lists.now) }
    ensures { IfOk result (λ chosen. chosen.items ≡ champions M (shown lists.now)) }
{
    let (mut scores, cells) = scores_of(alloc, lists)?;
    let mut covered = vec![in alloc; false; lists.len()]?;
    let mut chosen = ArrayVec::new();
    for _round in 0..M {
        let Some(champion) = best(scores.as_slice()) else {
            return Ok(chosen);
        };
        chosen.push(champion.1.id);
        cover(
            scores.as_mut_slice(),
            cells.as_slice(),
            lists,
            covered.as_mut_slice(),
            champion,
        );
    }
    Ok(chosen)
}

/// The same of lists in vectors.
pub fn choose<const M: usize>(
    alloc: Global,
    lists: &[Vec<Standing>],
) -> Result<ArrayVec<ManifestId, M>, Memory>
    requires rounds { (1 ≤ M) × (M ≤ 255) }
    requires once { All StandsOnce (standings lists.now) }
    requires stamps { StampsTell (standings lists.now) }
    ensures { IfOk result (λ chosen. chosen.items ≡ champions M (standings lists.now)) }
{
    let slices = slices_of(alloc, lists)?;
    choose_among(alloc, slices.as_slice())
}

// The lists that the vectors hold.
fn slices_of(alloc: Global, lists: &[Vec<Standing>]) -> Result<Vec<&[Standing]>, Memory>
    ensures { IfOk result (λ slices. shown slices.items ≡ standings lists.now) }
{
    let mut slices = Vec::with_capacity(alloc, lists.len())?;
    for list in lists {
        slices.push(list.as_slice())?;
    }
    Ok(slices)
}
