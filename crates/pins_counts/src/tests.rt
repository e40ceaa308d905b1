ghost use Rattle.std.specs.Prelude.{◌≡◌, ◌+◌, ◌++◌, ◌∷◌, [], OnOk, slice_get, length};

use super::*;
use ss_base::{ContainerId, ManifestId, Memory, Object};
use std::process::Abort;
use std::test::Fail;

fn container(session: u32, ordinal: u32) -> Object {
    Object::Container(ContainerId { session, ordinal })
}

fn manifest(session: u32, seq: u32) -> Object {
    Object::Manifest(ManifestId { session, seq })
}

fn open(counts: &mut Counts) -> Result<(), Memory>
    ensures { OnOk result (counts.new.sessions ≡ counts.old.sessions ++ None ∷ []) }
{
    counts.room_session()?;
    counts.add_session();
    Ok(())
}

// A commit that uses one container: its use, and the hold for its session.
fn commit(
    rt: &impl Abort,
    counts: &mut Counts,
    id: ManifestId,
    used: ContainerId,
) -> Result<(), Memory>
    ensures { counts.new.sessions ≡ counts.old.sessions }
{
    add_use(rt, counts, used)?;
    hold(rt, counts, id)
}

fn add_use(rt: &impl Abort, counts: &mut Counts, id: ContainerId) -> Result<(), Memory>
    ensures { counts.new.sessions ≡ counts.old.sessions }
{
    counts.make_room(&[id], ManifestId { session: 0, seq: 0 })?;
    assert!(rt; counts.number_of(Object::Container(id)) < 9);
    counts.add_uses(&[id]);
    Ok(())
}

fn drop_use(rt: &impl Abort, counts: &mut Counts, id: ContainerId) -> Result<(), Memory>
    ensures { counts.new.sessions ≡ counts.old.sessions }
{
    counts.make_room(&[id], ManifestId { session: 0, seq: 0 })?;
    assert!(rt; counts.number_of(Object::Container(id)) > 0);
    counts.drop_uses(&[id]);
    Ok(())
}

fn hold(rt: &impl Abort, counts: &mut Counts, id: ManifestId) -> Result<(), Memory>
    ensures { counts.new.sessions ≡ counts.old.sessions }
{
    counts.make_room(&[], id)?;
    assert!(rt; counts.holds(id) < 9);
    counts.pin(id);
    Ok(())
}

fn let_go(rt: &impl Abort, counts: &mut Counts, id: ManifestId) -> Result<(), Memory>
    ensures { counts.new.sessions ≡ counts.old.sessions }
{
    counts.make_room(&[], id)?;
    assert!(rt; counts.holds(id) > 0);
    counts.unpin(id);
    Ok(())
}

const M00: ManifestId = ManifestId { session: 0, seq: 0 };

const M10: ManifestId = ManifestId { session: 1, seq: 0 };

const C00: ContainerId = ContainerId {
    session: 0,
    ordinal: 0,
};

const C10: ContainerId = ContainerId {
    session: 1,
    ordinal: 0,
};

// Stream x is stored and chosen for y; x is deleted before y commits what it uses.
#[test]
fn a_pinned_champion_is_not_reclaimed(rt: HostRuntime) -> Result<(), Fail> {
    let alloc = rt.alloc();
    let rows: [(ContainerId, &[Object]); 2] = [
        (C00, &[Object::Manifest(M00)]),
        (C10, &[Object::Container(C00), Object::Manifest(M00)]),
    ];
    for (used, dead) in rows {
        let mut counts = Counts::new(alloc);
        open(&mut counts)?;
        commit(&rt, &mut counts, M00, C00)?;
        counts.close(0, 1, 1);
        open(&mut counts)?;
        hold(&rt, &mut counts, M00)?;
        let_go(&rt, &mut counts, M00)?;
        assert_eq!(rt; counts.holds(M00), 1);
        assert!(rt; counts.dead(alloc, 16)?.is_empty());
        commit(&rt, &mut counts, M10, used)?;
        let_go(&rt, &mut counts, M00)?;
        drop_use(&rt, &mut counts, C00)?;
        assert_eq!(rt; counts.dead(alloc, 16)?.as_slice(), dead);
        counts.mark_gone(dead)?;
        assert!(rt; counts.dead(alloc, 16)?.is_empty());
    }
    Ok(())
}

#[test]
fn champion_of_an_aborted_session(rt: HostRuntime) -> Result<(), Fail> {
    let alloc = rt.alloc();
    let mut counts = Counts::new(alloc);
    open(&mut counts)?;
    open(&mut counts)?;
    commit(&rt, &mut counts, M00, C00)?;
    hold(&rt, &mut counts, M00)?;
    counts.close(0, 1, 1);
    let_go(&rt, &mut counts, M00)?;
    commit(&rt, &mut counts, M10, C00)?;
    let_go(&rt, &mut counts, M00)?;
    drop_use(&rt, &mut counts, C00)?;
    counts.close(1, 0, 1);
    assert_eq!(rt;
        counts.dead(alloc, 16)?.as_slice(),
        [Object::Manifest(M00)].as_slice()
    );
    Ok(())
}

// Session s has s % 5 containers and s % 3 texts, and every fourth is open. Of some the first object of a kind is
// needed, and of some the second is gone.
fn one_of_many(rt: &impl Abort, counts: &mut Counts, s: u32) -> Result<(), Memory>
    requires { length counts.old.sessions ≡ s }
    ensures { OnOk result (length counts.new.sessions ≡ s + 1) }
{
    open(counts)?;
    if s % 4 != 3 {
        counts.close(s, s % 5, s % 3);
    }
    if s % 3 == 0 {
        add_use(
            rt,
            counts,
            ContainerId {
                session: s,
                ordinal: 0,
            },
        )?;
    }
    if s % 2 == 0 {
        hold(rt, counts, ManifestId { session: s, seq: 0 })?;
    }
    if s % 2 == 0 && s % 5 >= 2 {
        counts.mark_gone(&[manifest(s, 1), container(s, 1)])?;
    }
    Ok(())
}

#[test]
fn dead_objects_of_many_sessions(rt: HostRuntime) -> Result<(), Fail> {
    let alloc = rt.alloc();
    let mut counts = Counts::new(alloc);
    for s in 0..12 {
        one_of_many(&rt, &mut counts, s)?;
    }
    let plain = [
        container(1, 0),
        container(2, 0),
        container(4, 0),
        container(4, 2),
        container(4, 3),
        container(8, 0),
        container(8, 2),
        container(9, 1),
        container(9, 2),
        container(9, 3),
        manifest(1, 0),
        manifest(5, 0),
        manifest(5, 1),
    ];
    for limit in [0, 1, 9, 12, 13, 14, 99] {
        let first = if limit < plain.len() {
            limit
        } else {
            plain.len()
        };
        assert_eq!(rt; counts.dead(alloc, limit)?.as_slice(), &plain[..first]);
    }
    Ok(())
}

// What has room is marked without memory.
#[test]
fn marked_where_there_is_room(rt: HostRuntime) -> Result<(), Fail> {
    let alloc = rt.alloc();
    let mut counts = Counts::new(alloc);
    open(&mut counts)?;
    counts.close(0, 1, 1);
    let object = manifest(0, 0);
    counts.make_ready(object)?;
    counts.mark_all(&[object]);
    assert_eq!(rt;
        counts.dead(alloc, 16)?.as_slice(),
        [container(0, 0)].as_slice()
    );
    Ok(())
}

// Three closed sessions, of which the first needs its container and manifest, and the second its container.
fn three_sessions(rt: &impl Abort, counts: &mut Counts) -> Result<(), Memory>
    requires { counts.old.sessions ≡ [] }
{
    open(counts)?;
    commit(rt, counts, M00, C00)?;
    counts.close(0, 1, 1);
    open(counts)?;
    add_use(rt, counts, C10)?;
    counts.close(1, 1, 1);
    open(counts)?;
    counts.close(2, 1, 1);
    Ok(())
}

// What was needed while other objects were reclaimed is found again once nothing needs it, in the order of all.
#[test]
fn dead_after_others_were_reclaimed(rt: HostRuntime) -> Result<(), Fail> {
    let alloc = rt.alloc();
    let mut counts = Counts::new(alloc);
    three_sessions(&rt, &mut counts)?;
    let others = [container(2, 0), manifest(1, 0), manifest(2, 0)];
    assert_eq!(rt; counts.dead(alloc, 16)?.as_slice(), others.as_slice());
    counts.mark_gone(&others)?;
    assert!(rt; counts.dead(alloc, 16)?.is_empty());
    drop_use(&rt, &mut counts, C10)?;
    drop_use(&rt, &mut counts, C00)?;
    let_go(&rt, &mut counts, M00)?;
    let all = [container(0, 0), container(1, 0), manifest(0, 0)];
    assert_eq!(rt; counts.dead(alloc, 16)?.as_slice(), all.as_slice());
    Ok(())
}
