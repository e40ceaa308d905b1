// The hooks of choices, by the numbers of their entries.
ghost use Rattle.std.specs.Prelude.{◌≡◌, ◌-◌, length};
ghost use Rattle.history.specs.Sessions.{hooks_chosen};
ghost use Rattle.history_index.specs.Choices.{hooks_at, hooks_of};

use journal_entry::{Entry, Point};
use ss_base::Name;

// The hooks of a choice; none of another entry.
#[tactic(auto, unfolding(history::specs::Sessions::hooks_chosen))]
pub(crate) fn hooks_chosen(point: &Point) -> &[Name]
    ensures { result.now ≡ hooks_chosen point.now }
{
    match point {
        Point::Choose { hooks, .. } => hooks.as_slice(),
        _ => &[],
    }
}

// The hooks that the entry with this number chose with.
#[tactic(auto, unfolding(crate::specs::Choices::hooks_at))]
pub(crate) fn hooks_at(entries: &[Entry], number: u32) -> &[Name]
    ensures { result.now ≡ hooks_at entries.now number }
{
    match entries.get(number as usize) {
        Some(entry) => hooks_chosen(&entry.point),
        None => &[],
    }
}

// The hooks of the last of the choices with these numbers.
#[tactic(auto, unfolding(crate::specs::Choices::hooks_of))]
pub(crate) fn last_hooks<'a>(entries: &'a [Entry], choices: &[u32]) -> &'a [Name]
    ensures { result.now ≡ hooks_of entries.now choices.now (length choices.now - 1) }
{
    match choices.last() {
        Some(number) => hooks_at(entries, *number),
        None => &[],
    }
}
