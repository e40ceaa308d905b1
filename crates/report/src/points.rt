// What is printed of a point, by a function for each kind.
ghost use Rattle.std.specs.Prelude.{◌≡◌, ◌++◌, OnOk, string_bytes};
ghost use Rattle.journal_entry.specs.declared.entry.Point.TheVariants.{Begin, Choose, Finish, Abort, Delete, Look, Done, Reclaim, Stat};
ghost use Rattle.report.specs.EntryLine.{fresh_words, commit_words, point_words};

use crate::names::name_text;
use crate::words::{push_count, push_list, push_manifest};
use journal_entry::{Items, Point, Seen, Totals};
use ss_base::{ContainerId, ManifestId, Name, Object, StreamName};
use std::alloc::AllocError;

#[tactic(auto, unfolding(crate::specs::EntryLine::point_words))]
pub(crate) fn push_point(line: &mut String, point: &Point) -> Result<(), AllocError>
    ensures { OnOk result (string_bytes line.new ≡ string_bytes line.old ++ point_words point.now) }
{
    match point {
        Point::Begin { name, session } => push_begin(line, name, session),
        Point::Choose {
            session,
            hooks,
            champions,
        } => push_choose(line, session, hooks, champions),
        Point::Commit {
            manifest,
            chunks,
            bytes,
            fresh,
            fresh_bytes,
            uses,
            ..
        } => push_commit(line, manifest, chunks, bytes, fresh, fresh_bytes, uses),
        Point::Finish {
            session,
            containers,
        } => push_finish(line, session, containers),
        Point::Abort {
            session,
            containers,
            texts,
        } => push_abort(line, session, containers, texts),
        Point::Delete { name, session } => push_delete(line, name, session),
        Point::Look { name, seen } => push_look(line, name, seen),
        Point::Done { reader } => push_done(line, reader),
        Point::Reclaim { objects } => push_reclaim(line, objects),
        Point::Stat { totals } => push_stat(line, totals),
    }
}

#[tactic(auto, unfolding(crate::specs::EntryLine::point_words))]
fn push_begin(line: &mut String, name: &StreamName, session: &Option<u32>) -> Result<(), AllocError>
    ensures { OnOk result (string_bytes line.new ≡ string_bytes line.old ++ point_words (Begin name.now session.now)) }
{
    let name = name_text(name);
    match session {
        Some(session) => write!(line, "begin {name} s{session}"),
        None => write!(line, "begin {name} taken"),
    }
}

#[tactic(auto, unfolding(crate::specs::EntryLine::point_words))]
fn push_choose(
    line: &mut String,
    session: &u32,
    hooks: &Items<Name>,
    champions: &Items<ManifestId>,
) -> Result<(), AllocError>
    ensures { OnOk result (string_bytes line.new ≡ string_bytes line.old ++ point_words (Choose session.now hooks.now champions.now)) }
{
    write!(line, "choose s{session}")?;
    push_count(line, "hooks", hooks.as_slice().len() as u64)?;
    line.push_str(" champions ")?;
    push_list(line, champions.as_slice())
}

#[tactic(auto, unfolding(crate::specs::EntryLine::commit_words))]
fn push_commit(
    line: &mut String,
    manifest: &ManifestId,
    chunks: &u32,
    bytes: &u32,
    fresh: &u32,
    fresh_bytes: &u32,
    uses: &Items<ContainerId>,
) -> Result<(), AllocError>
    ensures { OnOk result (string_bytes line.new ≡ string_bytes line.old ++ commit_words manifest.now chunks.now bytes.now fresh.now fresh_bytes.now uses.now) }
{
    line.push_str("commit ")?;
    push_manifest(line, manifest)?;
    push_count(line, "chunks", u64::from(*chunks))?;
    push_count(line, "bytes", u64::from(*bytes))?;
    push_fresh(line, *fresh, *fresh_bytes)?;
    line.push_str(" uses ")?;
    push_list(line, uses.as_slice())
}

#[tactic(auto, unfolding(crate::specs::EntryLine::fresh_words))]
fn push_fresh(line: &mut String, chunks: u32, bytes: u32) -> Result<(), AllocError>
    ensures { OnOk result (string_bytes line.new ≡ string_bytes line.old ++ fresh_words chunks bytes) }
{
    write!(line, " fresh {chunks} {bytes}")
}

#[tactic(auto, unfolding(crate::specs::EntryLine::point_words))]
fn push_finish(line: &mut String, session: &u32, containers: &u32) -> Result<(), AllocError>
    ensures { OnOk result (string_bytes line.new ≡ string_bytes line.old ++ point_words (Finish session.now containers.now)) }
{
    write!(line, "finish s{session}")?;
    push_count(line, "containers", u64::from(*containers))
}

#[tactic(auto, unfolding(crate::specs::EntryLine::point_words))]
fn push_abort(
    line: &mut String,
    session: &u32,
    containers: &u32,
    texts: &u32,
) -> Result<(), AllocError>
    ensures { OnOk result (string_bytes line.new ≡ string_bytes line.old ++ point_words (Abort session.now containers.now texts.now)) }
{
    write!(line, "abort s{session}")?;
    push_count(line, "containers", u64::from(*containers))?;
    push_count(line, "texts", u64::from(*texts))
}

#[tactic(auto, unfolding(crate::specs::EntryLine::point_words))]
fn push_delete(
    line: &mut String,
    name: &StreamName,
    session: &Option<u32>,
) -> Result<(), AllocError>
    ensures { OnOk result (string_bytes line.new ≡ string_bytes line.old ++ point_words (Delete name.now session.now)) }
{
    let name = name_text(name);
    match session {
        Some(session) => write!(line, "delete {name} s{session}"),
        None => write!(line, "delete {name} none"),
    }
}

#[tactic(auto, unfolding(crate::specs::EntryLine::point_words))]
fn push_look(line: &mut String, name: &StreamName, seen: &Option<Seen>) -> Result<(), AllocError>
    ensures { OnOk result (string_bytes line.new ≡ string_bytes line.old ++ point_words (Look name.now seen.now)) }
{
    let name = name_text(name);
    match seen {
        Some(seen) => write!(line, "look {name} r{} s{}", seen.reader, seen.session),
        None => write!(line, "look {name} none"),
    }
}

#[tactic(auto, unfolding(crate::specs::EntryLine::point_words))]
fn push_done(line: &mut String, reader: &u32) -> Result<(), AllocError>
    ensures { OnOk result (string_bytes line.new ≡ string_bytes line.old ++ point_words (Done reader.now)) }
{
    write!(line, "done r{reader}")
}

#[tactic(auto, unfolding(crate::specs::EntryLine::point_words))]
fn push_reclaim(line: &mut String, objects: &Items<Object>) -> Result<(), AllocError>
    ensures { OnOk result (string_bytes line.new ≡ string_bytes line.old ++ point_words (Reclaim objects.now)) }
{
    line.push_str("reclaim ")?;
    push_list(line, objects.as_slice())
}

#[tactic(auto, unfolding(crate::specs::EntryLine::point_words))]
fn push_stat(line: &mut String, totals: &Totals) -> Result<(), AllocError>
    ensures { OnOk result (string_bytes line.new ≡ string_bytes line.old ++ point_words (Stat totals.now)) }
{
    line.push_str("stat")?;
    push_count(line, "streams", totals.streams)?;
    push_count(line, "bytes", totals.bytes)?;
    push_count(line, "fresh", totals.fresh)?;
    push_count(line, "containers", totals.containers)?;
    push_count(line, "reclaimed", totals.reclaimed)?;
    push_count(line, "entries", totals.entries)
}
