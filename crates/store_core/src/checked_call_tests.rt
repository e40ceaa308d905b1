// Calls that record an entry. Each is made where its conditions hold, its answer is compared with the entry, and it is
// told whether the entry was added: it is not where the limits would be broken.
ghost use Rattle.std.specs.Prelude.{◌≡◌, ◌≤◌, ◌<◌, ◌^◌, length, true, false};
ghost use Rattle.history.specs.OwnEnd.{own_end};
ghost use Rattle.history.specs.Sessions.{is_looked_by, is_pending, is_reading};
ghost use Rattle.history.specs.Legal.{are_texts, are_uses, is_open_to};
ghost use Rattle.store_core.specs.View.{past_of};

use crate::hooks::are_hooks;
use crate::{BeginFault, Kept, NameFault, PointFault, State, Stored, removal_object};
use history::{Entry, Point, Seen, Totals, are_counts};
use ss_base::{ContainerId, ManifestId, Name, Object, StreamName};
use std::alloc::Global;
use std::process;
use std::test::Fail;

// Whether the session is unfinished and was begun by the author.
#[tactic(auto, unfolding(history::specs::Legal::is_open_to))]
fn is_open<const L: usize, const M: usize>(state: &State<L, M>, author: u32, session: u32) -> bool
    ensures { result ≡ is_open_to author session (past_of state.now) }
{
    let history = state.journal().history();
    history.is_unfinished(session) && history.is_begun_by(author, session)
}

fn is_pending<const L: usize, const M: usize>(state: &State<L, M>, session: u32) -> bool
    ensures { result ≡ is_pending session (past_of state.now) }
{
    state.journal().history().is_pending(session)
}

fn own_end<const L: usize, const M: usize>(state: &State<L, M>, session: u32) -> u32
    ensures { result ≡ own_end session (past_of state.now) }
{
    state.journal().history().own_end(session)
}

fn are_uses<const L: usize, const M: usize>(
    state: &State<L, M>,
    session: u32,
    uses: &[ContainerId],
) -> bool
    requires { is_pending session (past_of state.now) ≡ true }
    ensures { result ≡ are_uses session (past_of state.now) uses.now }
{
    crate::uses::are_uses(state.journal().history(), session, uses)
}

#[tactic(auto, unfolding(history::specs::Legal::are_texts))]
fn are_texts<const L: usize, const M: usize>(state: &State<L, M>, session: u32, texts: u32) -> bool
    ensures { result ≡ are_texts session texts (past_of state.now) }
{
    let commits = state.journal().next_manifest(session).seq;
    texts == commits || (is_pending(state, session) && u64::from(texts) == u64::from(commits) + 1)
}

fn is_reading<const L: usize, const M: usize>(state: &State<L, M>, reader: u32) -> bool
    ensures { result ≡ is_reading reader (past_of state.now) }
{
    state.journal().history().is_reading(reader)
}

fn is_looked_by<const L: usize, const M: usize>(
    state: &State<L, M>,
    author: u32,
    reader: u32,
) -> bool
    ensures { result ≡ is_looked_by author reader (past_of state.now) }
{
    state.journal().history().is_looked_by(author, reader)
}

// Whether the entry commits the manifest that is kept, with what is kept.
fn commits_kept(entry: &Entry, kept: &Kept) -> bool {
    match &entry.point {
        Point::Commit {
            manifest,
            content,
            text,
            chunks,
            uses,
            ..
        } => {
            *manifest == kept.id()
                && *content == kept.content()
                && *text == kept.text()
                && *chunks == kept.chunks()
                && uses.as_slice() == kept.uses()
        }
        _ => false,
    }
}

// The manifests of what is kept, each of which an entry commits so.
fn ids_kept(
    rt: &impl process::Abort,
    alloc: Global,
    entries: &[Entry],
    kept: &[Kept],
) -> Result<Vec<ManifestId>, Fail> {
    let mut ids = Vec::new(alloc);
    for one in kept {
        assert!(rt; entries.iter().any(|entry| commits_kept(entry, one)));
        ids.push(one.id())?;
    }
    Ok(ids)
}

fn commits_in(entry: &Entry, session: u32) -> bool {
    match &entry.point {
        Point::Commit { manifest, .. } => manifest.session == session,
        _ => false,
    }
}

// The manifests that the session committed, in order.
fn committed(alloc: Global, entries: &[Entry], session: u32) -> Result<Vec<ManifestId>, Fail> {
    let mut ids = Vec::new(alloc);
    let mut seq = 0u32;
    for entry in entries {
        if commits_in(entry, session) {
            ids.push(ManifestId { session, seq })?;
            seq = seq.saturating_add(1);
        }
    }
    Ok(ids)
}

fn begin<const L: usize, const M: usize>(
    rt: &impl process::Abort,
    state: &mut State<L, M>,
    author: u32,
    name: StreamName,
    reply: Option<u32>,
) -> Result<bool, Fail> {
    match state.begin(author, name) {
        Ok(session) => assert_eq!(rt; reply, Some(session)),
        Err(BeginFault::Taken) => assert_eq!(rt; reply, None),
        Err(BeginFault::Full) => return Ok(false),
        Err(BeginFault::Memory) => return Err("memory")?,
    }
    Ok(true)
}

fn choose<const L: usize, const M: usize>(
    rt: &impl process::Abort,
    alloc: Global,
    state: &mut State<L, M>,
    author: u32,
    session: u32,
    hooks: &[Name],
    champions: &[ManifestId],
) -> Result<bool, Fail> {
    let bits = state.bits();
    if bits > 32 || !are_hooks(alloc, bits, hooks)? {
        return Err("no hooks of a choice")?;
    }
    if !is_open(state, author, session) || is_pending(state, session) {
        return Err("no choice is awaited")?;
    }
    let seq = committed(alloc, state.entries(), session)?.len();
    match state.choose(alloc, author, session, Vec::from_slice(alloc, hooks)?) {
        Ok(choice) => {
            assert_eq!(rt; choice.manifest.session, session);
            assert_eq!(rt; choice.manifest.seq as usize, seq);
            let kept = choice.champions.as_slice();
            let ids = ids_kept(rt, alloc, state.entries(), kept)?;
            assert_eq!(rt; ids.as_slice(), champions);
        }
        Err(PointFault::Full) => return Ok(false),
        Err(PointFault::Memory) => return Err("memory")?,
    }
    Ok(true)
}

fn commit<const L: usize, const M: usize>(
    rt: &impl process::Abort,
    state: &mut State<L, M>,
    author: u32,
    manifest: ManifestId,
    stored: Stored,
) -> Result<bool, Fail> {
    let session = manifest.session;
    if !are_counts(
        stored.chunks,
        stored.bytes,
        stored.fresh,
        stored.fresh_bytes,
    ) {
        return Err("no counts of a commit")?;
    }
    if !is_open(state, author, session) || !is_pending(state, session) {
        return Err("no commit is awaited")?;
    }
    if !are_uses(state, session, stored.uses.as_slice()) {
        return Err("no uses of a commit")?;
    }
    match state.commit(author, session, stored) {
        Ok(id) => assert_eq!(rt; id, manifest),
        Err(PointFault::Full) => return Ok(false),
        Err(PointFault::Memory) => return Err("memory")?,
    }
    Ok(true)
}

fn finish<const L: usize, const M: usize>(
    state: &mut State<L, M>,
    author: u32,
    session: u32,
    containers: u32,
) -> Result<bool, Fail> {
    if !is_open(state, author, session) || is_pending(state, session) {
        return Err("no end is awaited")?;
    }
    if containers < own_end(state, session) {
        return Err("too few containers")?;
    }
    state.finish(author, session, containers);
    Ok(true)
}

fn abort<const L: usize, const M: usize>(
    state: &mut State<L, M>,
    author: u32,
    session: u32,
    containers: u32,
    texts: u32,
) -> Result<bool, Fail> {
    if !is_open(state, author, session) || !are_texts(state, session, texts) {
        return Err("no abort with so many texts")?;
    }
    if containers < own_end(state, session) {
        return Err("too few containers")?;
    }
    state.abort(author, session, containers, texts);
    Ok(true)
}

fn delete<const L: usize, const M: usize>(
    rt: &impl process::Abort,
    state: &mut State<L, M>,
    author: u32,
    name: StreamName,
    reply: Option<u32>,
) -> Result<bool, Fail> {
    match state.delete(author, name) {
        Ok(session) => assert_eq!(rt; reply, Some(session)),
        Err(NameFault::NoStream) => assert_eq!(rt; reply, None),
        Err(NameFault::Full) => return Ok(false),
        Err(NameFault::Memory) => return Err("memory")?,
    }
    Ok(true)
}

fn look<const L: usize, const M: usize>(
    rt: &impl process::Abort,
    alloc: Global,
    state: &mut State<L, M>,
    author: u32,
    name: StreamName,
    reply: Option<Seen>,
) -> Result<bool, Fail> {
    match state.look(alloc, author, name) {
        Ok(looked) => {
            let seen = Seen {
                reader: looked.reader,
                session: looked.session,
            };
            assert_eq!(rt; reply, Some(seen));
            let kept = looked.manifests.as_slice();
            let ids = ids_kept(rt, alloc, state.entries(), kept)?;
            let wanted = committed(alloc, state.entries(), looked.session)?;
            assert_eq!(rt; ids.as_slice(), wanted.as_slice());
        }
        Err(NameFault::NoStream) => assert_eq!(rt; reply, None),
        Err(NameFault::Full) => return Ok(false),
        Err(NameFault::Memory) => return Err("memory")?,
    }
    Ok(true)
}

fn done<const L: usize, const M: usize>(
    state: &mut State<L, M>,
    author: u32,
    reader: u32,
) -> Result<bool, Fail> {
    if !is_reading(state, reader) || !is_looked_by(state, author, reader) {
        return Err("no reading of the author")?;
    }
    state.done(author, reader);
    Ok(true)
}

fn reclaim<const L: usize, const M: usize>(
    rt: &impl process::Abort,
    alloc: Global,
    state: &mut State<L, M>,
    author: u32,
    objects: &[Object],
) -> Result<bool, Fail> {
    match state.reclaim(alloc, author) {
        Ok(removals) => {
            let mut named = Vec::new(alloc);
            for removal in removals.as_slice() {
                named.push(removal_object(removal))?;
            }
            assert_eq!(rt; named.as_slice(), objects);
        }
        Err(PointFault::Full) => return Ok(false),
        Err(PointFault::Memory) => return Err("memory")?,
    }
    Ok(true)
}

fn stat<const L: usize, const M: usize>(
    rt: &impl process::Abort,
    state: &mut State<L, M>,
    author: u32,
    wanted: Totals,
) -> Result<bool, Fail> {
    match state.stat(author) {
        Ok(totals) => assert_eq!(rt; totals, wanted),
        Err(PointFault::Full) => return Ok(false),
        Err(PointFault::Memory) => return Err("memory")?,
    }
    Ok(true)
}

// What the commit of an entry says of its segment, and the manifest.
fn stored_in(alloc: Global, point: &Point) -> Result<(ManifestId, Stored), Fail> {
    let Point::Commit {
        manifest,
        content,
        text,
        chunks,
        bytes,
        fresh,
        fresh_bytes,
        uses,
    } = point
    else {
        return Err("a commit")?;
    };
    let stored = Stored {
        content: *content,
        text: *text,
        chunks: *chunks,
        bytes: *bytes,
        fresh: *fresh,
        fresh_bytes: *fresh_bytes,
        uses: Vec::from_slice(alloc, uses.as_slice())?,
    };
    Ok((*manifest, stored))
}

// Makes the call that records the entry, and tells whether it added the entry.
pub(crate) fn call<const L: usize, const M: usize>(
    rt: &impl process::Abort,
    alloc: Global,
    state: &mut State<L, M>,
    entry: &Entry,
) -> Result<bool, Fail> {
    let author = entry.author;
    match &entry.point {
        Point::Begin { name, session } => begin(rt, state, author, *name, *session),
        Point::Choose {
            session,
            hooks,
            champions,
        } => {
            let champions = champions.as_slice();
            choose(
                rt,
                alloc,
                state,
                author,
                *session,
                hooks.as_slice(),
                champions,
            )
        }
        Point::Commit { .. } => {
            let (manifest, stored) = stored_in(alloc, &entry.point)?;
            commit(rt, state, author, manifest, stored)
        }
        Point::Finish {
            session,
            containers,
        } => finish(state, author, *session, *containers),
        Point::Abort {
            session,
            containers,
            texts,
        } => abort(state, author, *session, *containers, *texts),
        Point::Delete { name, session } => delete(rt, state, author, *name, *session),
        Point::Look { name, seen } => look(rt, alloc, state, author, *name, *seen),
        Point::Done { reader } => done(state, author, *reader),
        Point::Reclaim { objects } => reclaim(rt, alloc, state, author, objects.as_slice()),
        Point::Stat { totals } => stat(rt, state, author, *totals),
    }
}
