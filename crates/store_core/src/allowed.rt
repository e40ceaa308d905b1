// Which entry is allowed next.
ghost use Rattle.std.specs.Prelude.{◌≡◌, ◌≤◌, ◌==◌, ◌&&◌, not, nat_le, true, take, IfOk};
ghost use Rattle.std.specs.Cmp.Lexicographic.{pointwise};
ghost use Rattle.std.specs.Option.{option_eq};
ghost use Rattle.journal_entry.specs.declared.entry.Point.TheVariants.{Choose as ChoosePoint};
ghost use Rattle.ss_base.specs.Ids.{same_manifest, same_object};
ghost use Rattle.history.specs.Need.{erasable};
ghost use Rattle.history.specs.OwnEnd.{own_end};
ghost use Rattle.history.specs.Sessions.{commits_of, hooks_chosen, is_pending};
ghost use Rattle.history.specs.StandingList.{champions_for};
ghost use Rattle.history.specs.TotalsOf.{totals};
ghost use Rattle.history.specs.Legal.{same_seen, same_totals, is_open_to, are_texts, is_allowed};
ghost use Rattle.legal_history.specs.Recorded.{past_of};

use crate::hooks::are_hooks;
use crate::journal::Journal;
use crate::uses::are_uses;
use history::{Items, Point, Seen, Totals, are_counts};
use legal_history::LegalHistory;
use ss_base::{ManifestId, Memory, Name, Object};
use std::alloc::Global;

fn same_manifests(a: &[ManifestId], b: &[ManifestId]) -> bool
    ensures { result ≡ pointwise same_manifest a.now b.now }
{
    a == b
}

fn same_object(a: &Object, b: &Object) -> bool
    ensures { result ≡ same_object a.now b.now }
{
    match (a, b) {
        (Object::Container(a), Object::Container(b)) => a == b,
        (Object::Manifest(a), Object::Manifest(b)) => a == b,
        _ => false,
    }
}

fn same_objects(a: &[Object], b: &[Object]) -> bool
    ensures { result ≡ pointwise same_object a.now b.now }
{
    match (a, b) {
        ([], []) => true,
        ([x, xs @ ..], [y, ys @ ..]) => same_object(x, y) && same_objects(xs, ys),
        _ => false,
    }
}

fn same_replies(a: Option<u32>, b: Option<u32>) -> bool
    ensures { result ≡ option_eq (λ x y. x == y) a b }
{
    a == b
}

fn same_sights(a: Option<Seen>, b: Option<Seen>) -> bool
    ensures { result ≡ option_eq same_seen a b }
{
    a == b
}

fn same_totals(a: &Totals, b: &Totals) -> bool
    ensures { result ≡ same_totals a.now b.now }
{
    a.streams == b.streams
        && a.bytes == b.bytes
        && a.fresh == b.fresh
        && a.containers == b.containers
        && a.reclaimed == b.reclaimed
        && a.entries == b.entries
}

// Whether the session is unfinished and was begun by the author.
#[tactic(auto, unfolding(history::specs::Legal::is_open_to))]
fn is_open_to(history: &LegalHistory, author: u32, session: u32) -> bool
    ensures { result ≡ is_open_to author session (past_of history.now) }
{
    history.is_unfinished(session) && history.is_begun_by(author, session)
}

// Whether the author may choose these champions, where those that were found are the history's.
#[tactic(auto, unfolding(history::specs::Legal::is_allowed))]
fn is_choice_allowed<const L: usize>(
    journal: &Journal<L>,
    alloc: Global,
    author: u32,
    session: u32,
    hooks: &Items<Name>,
    champions: &Items<ManifestId>,
    found: &[ManifestId],
) -> Result<bool, Memory>
    requires bits { journal.now.rules.bits ≤ 32 }
    requires found { found.now ≡ champions_for journal.now.rules hooks.now (past_of journal.now) }
    ensures { IfOk result (λ allowed. allowed ≡ is_allowed journal.now.rules (past_of journal.now) author (ChoosePoint session hooks.now champions.now)) }
{
    let history = journal.history();
    let fine = are_hooks(alloc, history.rules().bits, hooks.as_slice())?;
    Ok(
        is_open_to(history, author, session)
            && !history.is_pending(session)
            && fine
            && same_manifests(champions.as_slice(), found),
    )
}

// Whether the manifest is that of the segment which its session chose for last.
fn is_next<const L: usize>(journal: &Journal<L>, author: u32, manifest: ManifestId) -> bool
    ensures { let past = past_of journal.now in
        result ≡ (is_open_to author manifest.session past && (is_pending manifest.session past && (manifest.seq == commits_of manifest.session past))) }
{
    is_open_to(journal.history(), author, manifest.session)
        && journal.history().is_pending(manifest.session)
        && manifest.seq == journal.next_manifest(manifest.session).seq
}

fn is_finish_allowed(history: &LegalHistory, author: u32, session: u32, containers: u32) -> bool
    ensures { let past = past_of history.now in
        result ≡ (is_open_to author session past && (not (is_pending session past) && nat_le (own_end session past) containers)) }
{
    is_open_to(history, author, session)
        && !history.is_pending(session)
        && history.own_end(session) <= containers
}

// The session's commits, or, where a choice is pending, that number or one more.
#[tactic(auto, unfolding(history::specs::Legal::are_texts))]
fn are_texts<const L: usize>(journal: &Journal<L>, session: u32, texts: u32) -> bool
    ensures { result ≡ are_texts session texts (past_of journal.now) }
{
    let commits = journal.next_manifest(session).seq;
    texts == commits
        || (journal.history().is_pending(session) && u64::from(texts) == u64::from(commits) + 1)
}

fn is_abort_allowed<const L: usize>(
    journal: &Journal<L>,
    author: u32,
    session: u32,
    containers: u32,
    texts: u32,
) -> bool
    ensures { let past = past_of journal.now in
        result ≡ (is_open_to author session past && (nat_le (own_end session past) containers && are_texts session texts past)) }
{
    is_open_to(journal.history(), author, session)
        && journal.history().own_end(session) <= containers
        && are_texts(journal, session, texts)
}

fn is_reclaim_allowed<const L: usize>(
    journal: &Journal<L>,
    alloc: Global,
    objects: &[Object],
) -> Result<bool, Memory>
    ensures { IfOk result (λ allowed. allowed ≡ pointwise same_object objects.now (take 16 (erasable (past_of journal.now)))) }
{
    let found = journal.erasable(alloc)?;
    Ok(same_objects(objects, found.as_slice()))
}

// Whether an author may record the point next. `found` are the champions for its hooks.
#[tactic(auto, unfolding(history::specs::Legal::is_allowed, history::specs::Sessions::hooks_chosen))]
pub(crate) fn is_allowed<const L: usize>(
    journal: &Journal<L>,
    alloc: Global,
    author: u32,
    point: &Point,
    found: &[ManifestId],
) -> Result<bool, Memory>
    requires bits { journal.now.rules.bits ≤ 32 }
    requires found { found.now ≡ champions_for journal.now.rules (hooks_chosen point.now) (past_of journal.now) }
    ensures { IfOk result (λ allowed. allowed ≡ is_allowed journal.now.rules (past_of journal.now) author point.now) }
{
    let history = journal.history();
    match point {
        Point::Begin { name, session } => {
            Ok(same_replies(*session, journal.reply_to_begin(name)))
        }
        Point::Choose {
            session,
            hooks,
            champions,
        } => is_choice_allowed(journal, alloc, author, *session, hooks, champions, found),
        Point::Commit {
            manifest,
            chunks,
            bytes,
            fresh,
            fresh_bytes,
            uses,
            ..
        } => Ok(
            is_next(journal, author, *manifest)
                && are_counts(*chunks, *bytes, *fresh, *fresh_bytes)
                && are_uses(history, manifest.session, uses.as_slice()),
        ),
        Point::Finish {
            session,
            containers,
        } => Ok(is_finish_allowed(history, author, *session, *containers)),
        Point::Abort {
            session,
            containers,
            texts,
        } => Ok(is_abort_allowed(journal, author, *session, *containers, *texts)),
        Point::Delete { name, session } => Ok(same_replies(*session, history.retained(name))),
        Point::Look { name, seen } => Ok(same_sights(*seen, journal.reply_to_look(name))),
        Point::Done { reader } => {
            Ok(history.is_reading(*reader) && history.is_looked_by(author, *reader))
        }
        Point::Reclaim { objects } => is_reclaim_allowed(journal, alloc, objects.as_slice()),
        Point::Stat { totals } => Ok(same_totals(totals, &journal.totals())),
    }
}
