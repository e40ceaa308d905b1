// What is kept beside a history follows its newest entry.
ghost use Rattle.std.specs.Prelude.{◌≡◌, ℕ, List, [], ◌∷◌, ◌++◌, reverse, true, All, IsTrue, OnOk, IsOk};
ghost use Rattle.sparse_index.specs.Lists.{is_ready};
ghost use Rattle.journal_entry.specs.declared.entry.Entry.{Entry as Recorded};
ghost use Rattle.history.specs.Sessions.{hooks_chosen};
ghost use Rattle.history.specs.Legal.{is_legal};
ghost use Rattle.history_laws.specs.EntryNumbers.{CommitThese};
ghost use Rattle.legal_history.specs.Recorded.{past_of, is_end};
ghost use Rattle.history_index.specs.IndexOf.{IsIndexOf};
ghost use Rattle.history_index.specs.Choices.{choices_for};
ghost use Rattle.history_counts.specs.CountsOf.{AreCountsOf, HasRoomFor};
ghost use Rattle.history_counts.specs.Streams.{pins_of, stream_of, commits_in};
ghost use Rattle.history_totals.specs.TallyOf.{commits_settled};
ghost use Rattle.store_core.specs.Journal.{AreInStep, ends_choice};

use history::{Entry, Point, Rules};
use history_totals::Tally;
use legal_history::LegalHistory;
use pins_counts::Counts;
use sparse_index::Index;
use ss_base::Memory;

// Whether the point ends a choice that is pending.
pub(crate) fn ends_choice(history: &LegalHistory, point: &Point) -> bool
    ensures { result ≡ ends_choice point.now (past_of history.now) }
{
    match point {
        Point::Commit { manifest, .. } => history.is_pending(manifest.session),
        Point::Abort { session, .. } => history.is_pending(*session),
        _ => false,
    }
}

// Makes room in the index and the counts for what the entry adds to them. Nothing that they hold changes, also after
// want of memory. An entry that ends a session or a reading adds nothing that needs room.
#[tactic(auto, unfolding(history::specs::Sessions::hooks_chosen))]
pub(crate) fn make_room<const L: usize>(
    index: &mut Index<L>,
    counts: &mut Counts,
    entry: &Entry,
) -> Result<(), Memory>
    ensures hooks { OnOk result (All (λ hook. IsTrue (is_ready index.new hook)) (hooks_chosen entry.now.point)) }
    ensures objects { OnOk result (HasRoomFor entry.now.point counts.new) }
    ensures index { (bound : ℕ) (past : List Recorded) → IsIndexOf bound index.old past → IsIndexOf bound index.new past }
    ensures counts { (past : List Recorded) → AreCountsOf counts.old past → AreCountsOf counts.new past }
    ensures ends { is_end entry.now.point ≡ true → IsOk result }
{
    match &entry.point {
        Point::Choose { .. } => history_index::make_room(index, entry),
        Point::Begin { .. } => history_counts::make_room(counts, entry),
        Point::Commit { .. } => history_counts::make_room(counts, entry),
        Point::Reclaim { .. } => history_counts::make_room(counts, entry),
        Point::Finish { .. } => Ok(()),
        Point::Abort { .. } => Ok(()),
        Point::Delete { .. } => Ok(()),
        Point::Look { .. } => Ok(()),
        Point::Done { .. } => Ok(()),
        Point::Stat { .. } => Ok(()),
    }
}

// The numbers of the choices of the session whose manifests the point puts into lists or takes out of them.
#[tactic(auto, unfolding(history_index::specs::Choices::choices_for))]
fn choices_of<'a>(history: &'a LegalHistory, point: &'a Point) -> &'a [u32]
    ensures { result.now ≡ choices_for point.now (past_of history.now) }
{
    match point {
        Point::Commit { manifest, .. } => history.choices(manifest.session),
        Point::Abort { session, .. } => history.choices(*session),
        Point::Delete {
            session: Some(session),
            ..
        } => history.choices(*session),
        _ => &[],
    }
}

// The numbers of the commits of the session whose manifests the point holds or gives up.
#[tactic(auto, unfolding(history_counts::specs::Streams::commits_in, history_counts::specs::Streams::stream_of))]
fn stream_numbers<'a>(history: &'a LegalHistory, point: &'a Point) -> &'a [u32]
    ensures { result.now ≡ commits_in (stream_of point.now (past_of history.now)) (past_of history.now) }
{
    let session = match point {
        Point::Finish { session, .. } => Some(*session),
        Point::Abort { session, .. } => Some(*session),
        Point::Delete { session, .. } => *session,
        Point::Look { seen, .. } => seen.map(|seen| seen.session),
        Point::Done { reader } => history.reading(*reader).map(|seen| seen.session),
        _ => None,
    };
    match session {
        Some(session) => history.commits(session),
        None => &[],
    }
}

// The numbers of the commits of the session whose stream the point gives or takes.
#[tactic(auto, unfolding(history_totals::specs::TallyOf::commits_settled, history_totals::specs::TallyOf::stream_settled))]
fn settled_of<'a>(history: &'a LegalHistory, point: &'a Point) -> &'a [u32]
    ensures { result.now ≡ commits_settled point.now (past_of history.now) }
{
    match point {
        Point::Finish { session, .. } => history.commits(*session),
        Point::Delete {
            session: Some(session),
            ..
        } => history.commits(*session),
        _ => &[],
    }
}

// The numbers of the commits of the manifests that the newest entry pins, or unpins.
#[tactic(auto, unfolding(history_counts::specs::Streams::pins_of, history_laws::specs::EntryNumbers::CommitThese))]
fn pinned_of<'a>(
    history: &'a LegalHistory,
    before: &'a [Entry],
    entry: &'a Entry,
    was_pending: bool,
) -> &'a [u32]
    requires split { history.now.entries ≡ before.now ++ entry.now ∷ [] }
    requires ends { was_pending ≡ ends_choice entry.now.point (reverse before.now) }
    requires legal { is_legal history.now.rules (entry.now ∷ reverse before.now) ≡ true }
    ensures { CommitThese result.now (pins_of entry.now.point (reverse before.now)) (reverse before.now) }
{
    match &entry.point {
        Point::Choose { session, .. } => history.champion_numbers(*session),
        Point::Commit { manifest, .. } => history.champion_numbers(manifest.session),
        Point::Abort { session, .. } => {
            if was_pending {
                history.champion_numbers(*session)
            } else {
                &[]
            }
        }
        Point::Begin { .. } => &[],
        Point::Finish { .. } => &[],
        Point::Delete { .. } => &[],
        Point::Look { .. } => &[],
        Point::Done { .. } => &[],
        Point::Reclaim { .. } => &[],
        Point::Stat { .. } => &[],
    }
}

// The index, the counts and the totals take the newest entry in.
pub(crate) fn follow<const L: usize>(
    history: &LegalHistory,
    before: &[Entry],
    entry: &Entry,
    was_pending: bool,
    index: &mut Index<L>,
    counts: &mut Counts,
    tally: &mut Tally,
)
    requires split { history.now.entries ≡ before.now ++ entry.now ∷ [] }
    requires ends { was_pending ≡ ends_choice entry.now.point (reverse before.now) }
    requires agrees { AreInStep L (reverse before.now) index.old counts.old tally.old }
    requires hooks { All (λ hook. IsTrue (is_ready index.old hook)) (hooks_chosen entry.now.point) }
    requires objects { HasRoomFor entry.now.point counts.old }
    ensures { AreInStep L (entry.now ∷ reverse before.now) index.new counts.new tally.new }
{
    let rules = legal_rules(history, before, entry);
    history_index::add_entry(
        index,
        &rules,
        before,
        entry,
        choices_of(history, &entry.point),
    );
    let pinned = pinned_of(history, before, entry, was_pending);
    history_counts::add_entry(
        counts,
        &rules,
        before,
        entry,
        pinned,
        stream_numbers(history, &entry.point),
    );
    tally.add_entry(&rules, before, entry, settled_of(history, &entry.point));
}

// The rules, by which the history with its newest entry is legal.
fn legal_rules(history: &LegalHistory, before: &[Entry], entry: &Entry) -> Rules
    requires { history.now.entries ≡ before.now ++ entry.now ∷ [] }
    ensures rules { result ≡ history.now.rules }
    ensures legal { is_legal result (entry.now ∷ reverse before.now) ≡ true }
{
    let _entries = history.entries();
    history.rules()
}
