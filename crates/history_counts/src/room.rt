// Room for what an entry adds.
ghost use Rattle.std.specs.Prelude.{◌≡◌, List, OnOk, true};
ghost use Rattle.journal_entry.specs.declared.entry.Entry.{Entry as Recorded};
ghost use Rattle.ss_base.specs.declared.object.Object.{Object as Stored};
ghost use Rattle.ss_base.specs.Ids.{has_object};
ghost use Rattle.pins_counts.specs.Counts.{is_ready};
ghost use Rattle.history_counts.specs.CountsOf.{AreCountsOf, HasRoomFor};

use history::{Entry, Point};
use pins_counts::Counts;
use ss_base::{Memory, Object};

/// Makes room for what the entry adds to the counts: a session of a Begin, the manifest and the containers of a
/// Commit, the objects of a Reclaim. No number changes, also after want of memory.
pub fn make_room(counts: &mut Counts, entry: &Entry) -> Result<(), Memory>
    ensures room { OnOk result (HasRoomFor entry.now.point counts.new) }
    ensures kept { (past : List Recorded) → AreCountsOf counts.old past → AreCountsOf counts.new past }
{
    match &entry.point {
        Point::Begin {
            session: Some(_),
            ..
        } => counts.room_session(),
        Point::Commit { manifest, uses, .. } => counts.make_room(uses.as_slice(), *manifest),
        Point::Reclaim { objects } => make_objects_ready(counts, objects.as_slice()),
        _ => Ok(()),
    }
}

// Makes room for the number of each object.
fn make_objects_ready(counts: &mut Counts, objects: &[Object]) -> Result<(), Memory>
    ensures room { OnOk result ((q : Stored) → has_object q objects.now ≡ true → is_ready counts.new q ≡ true) }
    ensures kept { (past : List Recorded) → AreCountsOf counts.old past → AreCountsOf counts.new past }
{
    for object in objects {
        counts.make_ready(*object)?;
    }
    Ok(())
}
