// The champions of a segment.
ghost use Rattle.std.specs.Prelude.{◌≡◌, ◌≤◌, map, IfOk, All};
ghost use Rattle.ss_base.specs.Champions.{champions};
ghost use Rattle.champion_choice.specs.Lists.{shown, StampsTell};
ghost use Rattle.champion_choice.specs.Scores.{StandsOnce};
ghost use Rattle.sparse_index.specs.Lists.{list_at};
ghost use Rattle.history.specs.StandingList.{champions_for};
ghost use Rattle.store_core.specs.View.{past_of, rules_of};

use crate::State;
use champion_choice::choose_among;
use sparse_index::Index;
use ss_base::{ManifestId, Memory, Name, Standing};
use std::alloc::Global;

// What stands at each of the hooks.
fn lists_at<'a, const L: usize>(
    alloc: Global,
    index: &'a Index<L>,
    hooks: &[Name],
) -> Result<Vec<&'a [Standing]>, Memory>
    ensures { IfOk result (λ lists. shown lists.items ≡ map (list_at index.now) hooks.now) }
{
    let mut lists = Vec::with_capacity(alloc, hooks.len())?;
    for hook in hooks {
        lists.push(index.of(hook))?;
    }
    Ok(lists)
}

// The greedy choice over these lists.
fn greedy<const M: usize>(alloc: Global, lists: &[&[Standing]]) -> Result<Vec<ManifestId>, Memory>
    requires rounds { (1 ≤ M) × (M ≤ 255) }
    requires once { All StandsOnce (shown lists.now) }
    requires stamps { StampsTell (shown lists.now) }
    ensures { IfOk result (λ chosen. chosen.items ≡ champions M (shown lists.now)) }
{
    let chosen = choose_among::<M>(alloc, lists)?;
    Ok(Vec::from_slice(alloc, chosen.as_slice())?)
}

impl<const L: usize, const M: usize> State<L, M> {
    // The greedy choice for a segment with these hooks.
    pub(crate) fn champions(&self, alloc: Global, hooks: &[Name]) -> Result<Vec<ManifestId>, Memory>
        ensures { IfOk result (λ chosen. chosen.items ≡ champions_for (rules_of L M self.now) hooks.now (past_of self.now)) }
    {
        let journal = self.journal();
        let lists = lists_at(alloc, journal.index(), hooks)?;
        let chosen = greedy::<M>(alloc, lists.as_slice())?;
        Ok(chosen)
    }
}
