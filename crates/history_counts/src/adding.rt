// One entry more.
ghost use Rattle.std.specs.Prelude.{◌≡◌, ◌∷◌, ◌<◌, ◌^◌, length, reverse, true};
ghost use Rattle.history.specs.Legal.{is_legal};
ghost use Rattle.history_laws.specs.EntryNumbers.{CommitThese};
ghost use Rattle.history_counts.specs.CountsOf.{AreCountsOf, HasRoomFor};
ghost use Rattle.history_counts.specs.Streams.{pins_of, stream_of, commits_in};

use crate::holds::{pin_all, release_all};
use history::{Entry, Point, Rules};
use pins_counts::Counts;
use ss_base::{ContainerId, ManifestId};

/// Takes one entry more into the counts of the entries before it. It takes no memory. `champions` are the numbers of
/// the Commits of the champions that the entry pins or unpins; `stream` are the numbers of the Commits of the session
/// that it ends, deletes, begins to read or has read. Each of the two is empty where the entry does none of these.
pub fn add_entry(
    counts: &mut Counts,
    rules: &Rules,
    before: &[Entry],
    entry: &Entry,
    champions: &[u32],
    stream: &[u32],
)
    requires legal { is_legal rules.now (entry.now ∷ reverse before.now) ≡ true }
    requires agrees { AreCountsOf counts.old (reverse before.now) }
    requires room { HasRoomFor entry.now.point counts.old }
    requires champions { CommitThese champions.now (pins_of entry.now.point (reverse before.now)) (reverse before.now) }
    requires stream { stream.now ≡ commits_in (stream_of entry.now.point (reverse before.now)) (reverse before.now) }
    ensures { AreCountsOf counts.new (entry.now ∷ reverse before.now) }
{
    let _limit = rules.limits.entries;
    match &entry.point {
        Point::Begin { session, .. } => {
            if session.is_some() {
                counts.add_session();
            }
        }
        Point::Choose { .. } => pin_all(counts, before, champions),
        Point::Commit { manifest, uses, .. } => {
            release_all(counts, before, champions);
            counts.pin(*manifest);
            counts.add_uses(uses.as_slice());
        }
        Point::Finish {
            session,
            containers,
        } => counts.close(*session, *containers, stream.len() as u32),
        Point::Abort {
            session,
            containers,
            texts,
        } => {
            counts.close(*session, *containers, *texts);
            release_all(counts, before, champions);
            release_all(counts, before, stream);
        }
        Point::Delete { .. } => release_all(counts, before, stream),
        Point::Look { .. } => pin_all(counts, before, stream),
        Point::Done { .. } => release_all(counts, before, stream),
        Point::Reclaim { objects } => counts.mark_all(objects.as_slice()),
        Point::Stat { .. } => {}
    }
}
