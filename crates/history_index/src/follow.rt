// One entry more, and the room for it.
ghost use Rattle.std.specs.Prelude.{◌≡◌, ℕ, ◌<◌, ◌≤◌, ◌^◌, true, List, [], ◌∷◌, length, reverse, IsTrue, OnOk, All};
ghost use Rattle.sparse_index.specs.Lists.{list_at, is_ready};
ghost use Rattle.ss_base.specs.declared.name.Name.{Name as Hook};
ghost use Rattle.journal_entry.specs.declared.entry.Entry.{Entry as Recorded};
ghost use Rattle.history.specs.Sessions.{hooks_chosen};
ghost use Rattle.history.specs.StandingList.{standing_after};
ghost use Rattle.history.specs.Legal.{is_legal};
ghost use Rattle.history_index.specs.Choices.{choices_for};
ghost use Rattle.history_index.specs.IndexOf.{IsIndexOf};
ghost use Rattle.history_index.specs.MayChange.{MayChange};

use crate::choices::{hooks_chosen, last_hooks};
use crate::retire::retire_session;
use history::Rules;
use journal_entry::{Entry, Point};
use sparse_index::Index;
use ss_base::{Memory, Standing};
use std::alloc::Global;

/// The index of no entries, with its lists on `alloc`. `L`, which is from 1 to 255, bounds each list.
pub fn empty_index<const L: usize>(alloc: Global) -> Index<L>
    requires { (1 ≤ L) × (L ≤ 255) }
    ensures { IsIndexOf L result [] }
{
    Index::new(alloc)
}

/// Makes room for what the entry needs of the index: the hooks of a Choose are ready then, and other entries need
/// none. What stands anywhere is as before, also after want of memory.
pub fn make_room<const L: usize>(index: &mut Index<L>, entry: &Entry) -> Result<(), Memory>
    ensures ok { OnOk result (All (λ hook. IsTrue (is_ready index.new hook)) (hooks_chosen entry.now.point)) }
    ensures kept { (hook : Hook) → IsTrue (is_ready index.old hook) → IsTrue (is_ready index.new hook) }
    ensures lists { (hook : Hook) → list_at index.new hook ≡ list_at index.old hook }
    ensures agrees { (bound : ℕ) (past : List Recorded) → IsIndexOf bound index.old past → IsIndexOf bound index.new past }
{
    index.make_room(hooks_chosen(&entry.point))
}

/// Takes one entry more into the index. `before` are the entries before it, the oldest first, and `choices` the numbers
/// of the Chooses of the session that the entry commits, aborts or deletes. The hooks of a Choose are ready.
pub fn add_entry<const L: usize>(
    index: &mut Index<L>,
    rules: &Rules,
    before: &[Entry],
    entry: &Entry,
    choices: &[u32],
)
    requires legal { is_legal rules.now (entry.now ∷ reverse before.now) ≡ true }
    requires agrees { IsIndexOf L index.old (reverse before.now) }
    requires room { All (λ hook. IsTrue (is_ready index.old hook)) (hooks_chosen entry.now.point) }
    requires choices { choices.now ≡ choices_for entry.now.point (reverse before.now) }
    ensures { IsIndexOf L index.new (entry.now ∷ reverse before.now) }
{
    let number = next_number(before, rules.limits.entries);
    change(index, before, &entry.point, choices, number);
}

// The number of the next entry, where there are fewer than `most`.
fn next_number(before: &[Entry], most: u32) -> u32
    requires { length before.now < most }
    ensures number { result ≡ length before.now }
    ensures fits { length before.now < 2 ^ 32 }
{
    before.len() as u32
}

// Changes the lists as the point of the entry with this number says.
#[tactic(auto, unfolding(history::specs::StandingList::standing_after))]
fn change<const L: usize>(
    index: &mut Index<L>,
    before: &[Entry],
    point: &Point,
    choices: &[u32],
    number: u32,
)
    requires next { number ≡ length before.now }
    requires may { MayChange index.old point.now before.now choices.now }
    ensures lists { (hook : Hook) → list_at index.new hook ≡ standing_after L hook point.now (reverse before.now) (list_at index.old hook) }
    ensures ready { (hook : Hook) → is_ready index.new hook ≡ is_ready index.old hook }
{
    match point {
        Point::Choose {
            hooks,
            champions,
            ..
        } => index.promote(hooks.as_slice(), champions.as_slice()),
        Point::Commit { manifest, .. } => {
            let standing = Standing {
                id: *manifest,
                stamp: number,
            };
            index.put(last_hooks(before, choices), standing);
        }
        Point::Abort { session, .. } => retire_session(index, before, choices, *session),
        Point::Delete {
            session: Some(session),
            ..
        } => retire_session(index, before, choices, *session),
        _ => {}
    }
}
