// In which containers the chunks of a segment may lie.
ghost use Rattle.std.specs.Prelude.{◌≡◌, ◌==◌, ◌&&◌, ◌||◌, true, reverse};
ghost use Rattle.std.specs.List.{list_all, list_any};
ghost use Rattle.ss_base.specs.Ids.{has_container, same_container};
ghost use Rattle.ss_base.specs.Order.{is_container_before, is_before_first, are_ascending};
ghost use Rattle.history.specs.Sessions.{is_pending};
ghost use Rattle.history.specs.Legal.{are_uses};
ghost use Rattle.history_laws.specs.EntryNumbers.{uses_listed};
ghost use Rattle.legal_history.specs.Recorded.{past_of};
ghost use Rattle.store_core.specs.Uses.{uses_at, may_lie_in, are_listed};

use history::{Entry, Point};
use legal_history::LegalHistory;
use ss_base::ContainerId;

fn is_container_before(a: ContainerId, b: ContainerId) -> bool
    ensures { result ≡ is_container_before a b }
{
    a.session < b.session || (a.session == b.session && a.ordinal < b.ordinal)
}

#[tactic(auto, unfolding(ss_base::specs::Order::is_before_first))]
fn is_before_first(id: ContainerId, ids: &[ContainerId]) -> bool
    ensures { result ≡ is_before_first id ids.now }
{
    match ids {
        [] => true,
        [other, ..] => is_container_before(id, *other),
    }
}

#[tactic(auto, unfolding(ss_base::specs::Order::are_ascending))]
fn are_ascending(ids: &[ContainerId]) -> bool
    ensures { result ≡ are_ascending ids.now }
{
    match ids {
        [] => true,
        [id, rest @ ..] => is_before_first(*id, rest) && are_ascending(rest),
    }
}

fn same_container(a: ContainerId, b: ContainerId) -> bool
    ensures { result ≡ same_container a b }
{
    a == b
}

#[tactic(auto, unfolding(ss_base::specs::Ids::has_container))]
fn has_container(id: ContainerId, ids: &[ContainerId]) -> bool
    ensures { result ≡ has_container id ids.now }
{
    ids.iter().any(|other| same_container(id, *other))
}

#[tactic(auto, unfolding(history_laws::specs::EntryNumbers::uses_listed))]
fn uses_listed(point: &Point) -> &[ContainerId]
    ensures { result.now ≡ uses_listed point.now }
{
    match point {
        Point::Commit { uses, .. } => uses.as_slice(),
        Point::Begin { .. } => &[],
        Point::Choose { .. } => &[],
        Point::Finish { .. } => &[],
        Point::Abort { .. } => &[],
        Point::Delete { .. } => &[],
        Point::Look { .. } => &[],
        Point::Done { .. } => &[],
        Point::Reclaim { .. } => &[],
        Point::Stat { .. } => &[],
    }
}

// The containers that the entry with a number lists.
fn uses_at(entries: &[Entry], number: u32) -> &[ContainerId]
    ensures { result.now ≡ uses_at (reverse entries.now) number }
{
    match entries.get(number as usize) {
        Some(entry) => uses_listed(&entry.point),
        None => &[],
    }
}

// Whether one of the entries with these numbers lists the container.
fn is_listed(entries: &[Entry], numbers: &[u32], id: ContainerId) -> bool
    ensures { result ≡ list_any (λ n. has_container id (uses_at (reverse entries.now) n)) numbers.now }
{
    numbers
        .iter()
        .any(|n| has_container(id, uses_at(entries, *n)))
}

// Whether chunks of the session may lie in the container, where its champions are those of these commits.
#[tactic(auto, unfolding(crate::specs::Uses::may_lie_in))]
fn may_lie_in(entries: &[Entry], session: u32, champions: &[u32], id: ContainerId) -> bool
    ensures { result ≡ may_lie_in session champions.now (reverse entries.now) id }
{
    (id.session == session && id.ordinal < 4_294_967_295) || is_listed(entries, champions, id)
}

fn all_may_lie_in(entries: &[Entry], session: u32, champions: &[u32], ids: &[ContainerId]) -> bool
    ensures { result ≡ list_all (may_lie_in session champions.now (reverse entries.now)) ids.now }
{
    ids.iter()
        .all(|id| may_lie_in(entries, session, champions, *id))
}

// Whether the containers are ascending, at most 4,096, and chunks of the session may lie in each.
fn are_listed(entries: &[Entry], session: u32, champions: &[u32], uses: &[ContainerId]) -> bool
    ensures { result ≡ are_listed session champions.now (reverse entries.now) uses.now }
{
    are_ascending(uses) && uses.len() <= 4096 && all_may_lie_in(entries, session, champions, uses)
}

// Whether a session whose choice is pending may use the containers.
pub(crate) fn are_uses(history: &LegalHistory, session: u32, uses: &[ContainerId]) -> bool
    requires { is_pending session (past_of history.now) ≡ true }
    ensures { result ≡ are_uses session (past_of history.now) uses.now }
{
    let entries = history.entries();
    are_listed(entries, session, history.champion_numbers(session), uses)
}
