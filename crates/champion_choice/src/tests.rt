ghost use Rattle.std.specs.Prelude.{◌≡◌, ◌==◌, ◌&&◌, All};
ghost use Rattle.std.specs.Bool.{OnTrue};
ghost use Rattle.std.specs.List.{list_all};
ghost use Rattle.ss_base.specs.declared.ids.Standing.{Standing as Stands};
ghost use Rattle.ss_base.specs.Ids.{same_manifest};
ghost use Rattle.ss_base.specs.Champions.{stands_in};
ghost use Rattle.champion_choice.specs.Scores.{StandsOnce};
ghost use Rattle.champion_choice.specs.Lists.{standings, StampsTell};

use crate::choose;
use ss_base::{ManifestId, Standing};
use std::alloc::{AllocError, Global};
use std::test::Fail;

const fn id(session: u32) -> ManifestId {
    ManifestId { session, seq: 0 }
}

// The lists of the hooks, by the session of each manifest, whose stamp has the same number.
fn lists_of(alloc: Global, hooks: &[&[u32]]) -> Result<Vec<Vec<Standing>>, AllocError> {
    let mut lists = Vec::new(alloc);
    for sessions in hooks {
        let mut stood = Vec::new(alloc);
        for session in *sessions {
            stood.push(Standing {
                id: id(*session),
                stamp: *session,
            })?;
        }
        lists.push(stood)?;
    }
    Ok(lists)
}

fn has_own_stamp(standing: &Standing) -> bool
    ensures { result ≡ ((standing.now.id.session == standing.now.stamp) && (standing.now.id.seq == 0)) }
{
    standing.id.session == standing.stamp && standing.id.seq == 0
}

fn have_own_stamps(stood: &[Standing]) -> bool
    ensures { result ≡ list_all (λ (s : Stands). (s.id.session == s.stamp) && (s.id.seq == 0)) stood.now }
{
    stood.iter().all(has_own_stamp)
}

fn same_manifest(a: ManifestId, b: ManifestId) -> bool
    ensures { result ≡ same_manifest a b }
{
    a.session == b.session && a.seq == b.seq
}

#[tactic(auto, unfolding(ss_base::specs::Champions::stands_in))]
fn stands_in(id: ManifestId, stood: &[Standing]) -> bool
    ensures { result ≡ stands_in id stood.now }
{
    stood.iter().any(|standing| same_manifest(id, standing.id))
}

fn stands_once(stood: &[Standing]) -> bool
    ensures { OnTrue result (StandsOnce stood.now) }
{
    for (i, standing) in stood.iter().enumerate() {
        if stands_in(standing.id, &stood[..i]) {
            return false;
        }
    }
    true
}

fn is_choosable(lists: &[Vec<Standing>]) -> bool
    ensures once { OnTrue result (All StandsOnce (standings lists.now)) }
    ensures stamps { OnTrue result (StampsTell (standings lists.now)) }
{
    for stood in lists {
        if !stands_once(stood.as_slice()) {
            return false;
        }
        if !have_own_stamps(stood.as_slice()) {
            return false;
        }
    }
    true
}

#[derive(Drop)]
struct Row {
    hooks: &'static [&'static [u32]],
    chosen: &'static [u32],
}

// At most three champions.
fn rows() -> [Row; 7] {
    [
        // Nothing stands anywhere.
        Row {
            hooks: &[&[], &[]],
            chosen: &[],
        },
        Row {
            hooks: &[&[0], &[]],
            chosen: &[0],
        },
        // On a tie the one committed last.
        Row {
            hooks: &[&[1, 0]],
            chosen: &[1],
        },
        Row {
            hooks: &[&[0, 1], &[0, 1]],
            chosen: &[1],
        },
        // What is covered counts no more: 1 stands at three hooks, but 0 covers two of them.
        Row {
            hooks: &[&[0, 1], &[1, 0], &[0], &[0], &[1], &[2], &[2]],
            chosen: &[0, 2, 1],
        },
        // A fourth would cover the last hook.
        Row {
            hooks: &[&[0], &[1], &[2], &[3]],
            chosen: &[3, 2, 1],
        },
        // It ends early.
        Row {
            hooks: &[&[2, 1, 0], &[0], &[], &[2, 1]],
            chosen: &[2, 0],
        },
    ]
}

#[test]
fn champions_of_hooks(rt: HostRuntime) -> Result<(), Fail> {
    let alloc = rt.alloc();
    for row in rows() {
        let lists = lists_of(alloc, row.hooks)?;
        assert!(rt; is_choosable(lists.as_slice()));
        let chosen = choose::<3>(alloc, lists.as_slice())?;
        assert_eq!(rt; chosen.len(), row.chosen.len());
        for (champion, session) in chosen.iter().zip(row.chosen.iter()) {
            assert_eq!(rt; *champion, id(*session));
        }
    }
    Ok(())
}

// Three manifests stand at one hook each, and two are chosen.
#[test]
fn two_champions_of_three_hooks(rt: HostRuntime) -> Result<(), Fail> {
    let alloc = rt.alloc();
    let lists = lists_of(alloc, &[&[0], &[1], &[2]])?;
    assert!(rt; is_choosable(lists.as_slice()));
    let chosen = choose::<2>(alloc, lists.as_slice())?;
    assert_eq!(rt; chosen.as_slice(), [id(2), id(1)].as_slice());
    Ok(())
}
