// What stands at a hook, by scanning the entries.
ghost use Rattle.std.specs.Prelude.{◌≡◌, ◌<◌, ◌≤◌, ◌^◌, length, reverse, IfOk};
ghost use Rattle.ss_base.specs.Standings.{promoted, standing_of, chosen_standings, others_standing, without_session, in_front};
ghost use Rattle.history.specs.StandingList.{standing_after, standing};

use crate::choice_scan::last_hooks;
use crate::ids::{has_manifest, has_name, same_manifest};
use crate::{Entry, Point};
use ss_base::{ManifestId, Memory, Name, Standing};
use std::alloc::Global;

// Those of the champions that stood, in their order.
#[tactic(auto, unfolding(ss_base::specs::Standings::chosen_standings))]
fn chosen_standings(
    alloc: Global,
    chosen: &[ManifestId],
    stood: &[Standing],
) -> Result<Vec<Standing>, Memory>
    ensures { IfOk result (λ v. v.items ≡ chosen_standings chosen.now stood.now) }
{
    let kept = chosen
        .iter()
        .filter_map(|id| standing_of(*id, stood))
        .collect(alloc)?;
    Ok(kept)
}

#[tactic(auto, unfolding(ss_base::specs::Standings::standing_of))]
fn standing_of(id: ManifestId, stood: &[Standing]) -> Option<Standing>
    ensures { result ≡ standing_of id stood.now }
{
    stood
        .iter()
        .copied()
        .find(|standing| same_manifest(id, standing.id))
}

// The others, as they stood.
#[tactic(auto, unfolding(ss_base::specs::Standings::others_standing))]
fn others_standing(
    alloc: Global,
    chosen: &[ManifestId],
    stood: &[Standing],
) -> Result<Vec<Standing>, Memory>
    ensures { IfOk result (λ v. v.items ≡ others_standing chosen.now stood.now) }
{
    let others = stood
        .iter()
        .copied()
        .filter(|standing| !has_manifest(standing.id, chosen))
        .collect(alloc)?;
    Ok(others)
}

#[tactic(auto, unfolding(ss_base::specs::Standings::promoted))]
fn promoted(
    alloc: Global,
    chosen: &[ManifestId],
    stood: &[Standing],
) -> Result<Vec<Standing>, Memory>
    ensures { IfOk result (λ v. v.items ≡ promoted chosen.now stood.now) }
{
    let mut standings = chosen_standings(alloc, chosen, stood)?;
    let others = others_standing(alloc, chosen, stood)?;
    standings.extend_from_slice(others.as_slice())?;
    Ok(standings)
}

#[tactic(auto, unfolding(ss_base::specs::Standings::without_session))]
fn without_session(alloc: Global, session: u32, stood: &[Standing]) -> Result<Vec<Standing>, Memory>
    ensures { IfOk result (λ v. v.items ≡ without_session session stood.now) }
{
    let others = stood
        .iter()
        .copied()
        .filter(|standing| standing.id.session != session)
        .collect(alloc)?;
    Ok(others)
}

#[tactic(auto, unfolding(ss_base::specs::Standings::in_front))]
fn in_front(
    alloc: Global,
    bound: usize,
    standing: Standing,
    stood: &[Standing],
) -> Result<Vec<Standing>, Memory>
    ensures { IfOk result (λ v. v.items ≡ in_front bound standing stood.now) }
{
    let mut standings = Vec::new(alloc);
    standings.push(standing)?;
    standings.extend_from_slice(stood)?;
    standings.truncate(bound);
    Ok(standings)
}

// What stands at the hook after the entry, by what stood and by the entries before.
#[tactic(auto, unfolding(crate::specs::StandingList::standing_after))]
fn standing_after(
    alloc: Global,
    bound: usize,
    hook: &Name,
    point: &Point,
    before: &[Entry],
    stood: Vec<Standing>,
) -> Result<Vec<Standing>, Memory>
    requires { length before.now < 2 ^ 32 }
    ensures { IfOk result (λ v. v.items ≡ standing_after bound hook.now point.now (reverse before.now) stood.items) }
{
    match point {
        Point::Commit { manifest, .. } => {
            if has_name(hook, last_hooks(manifest.session, before)) {
                let stamp = before.len() as u32;
                let standing = Standing {
                    id: *manifest,
                    stamp,
                };
                in_front(alloc, bound, standing, stood.as_slice())
            } else {
                Ok(stood)
            }
        }
        Point::Choose {
            hooks,
            champions,
            ..
        } => {
            if has_name(hook, hooks.as_slice()) {
                promoted(alloc, champions.as_slice(), stood.as_slice())
            } else {
                Ok(stood)
            }
        }
        Point::Abort { session, .. } => without_session(alloc, *session, stood.as_slice()),
        Point::Delete {
            session: Some(session),
            ..
        } => without_session(alloc, *session, stood.as_slice()),
        _ => Ok(stood),
    }
}

/// The manifests that stand at the hook after these entries, the most recently used first; a Commit leaves the first
/// `bound` of them. The entries are at most 2^32.
pub fn standing(
    alloc: Global,
    entries: &[Entry],
    hook: &Name,
    bound: usize,
) -> Result<Vec<Standing>, Memory>
    requires { length entries.now ≤ 2 ^ 32 }
    ensures { IfOk result (λ stood. stood.items ≡ standing bound hook.now (reverse entries.now)) }
{
    let mut stood = Vec::new(alloc);
    for (i, entry) in entries.iter().enumerate() {
        stood = standing_after(alloc, bound, hook, &entry.point, &entries[..i], stood)?;
    }
    Ok(stood)
}
