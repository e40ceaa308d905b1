// What is stored of a segment.
ghost use Rattle.std.specs.Prelude.{◌≡◌, ◌+◌, ◌-◌, ◌<◌, ◌≤◌, ◌^◌, length, vec_len, IfOk};
ghost use Rattle.segment_plan.specs.Planned.{segment_chunks, located, puts_len};
ghost use Rattle.depot.specs.Seen.{shelf_of, seen};
ghost use Rattle.segment_store.specs.Stored.{GoesOn, CanBeCommitted, stored_by};
ghost use Rattle.segment_store.specs.Storing.{PlanAnswer, SegmentAnswer};

use chunk_name::name_of;
use container_file::ContainerEnd;
use depot::{Depot, Written};
use manifest_codec::Manifest;
use outside::{Shelf, Trouble};
use segment_plan::{SegmentPlan, plan_segment};
use segmenter::Segment;
use ss_base::{MAX_CHAMPIONS, ManifestId};
use std::alloc::Global;
use store_core::Stored;

/// Stores what a segment has that its champions and itself lack, behind `end`, and then writes its manifest with this
/// id. Answers what a commit says of it, and what shows that it is written. `room` is that of the store's profile.
/// `end` is the plan's before the first call on the depot, and `texts` is one more before the manifest is written, also
/// where that fails. `Fault`: a put or the write failed, which ends it. `Memory` may come before the first call too,
/// and then all is as before.
pub fn store_segment<K: Shelf>(
    alloc: Global,
    depot: &mut Depot<'_, K>,
    segment: &Segment,
    champions: &[Manifest],
    id: ManifestId,
    room: u32,
    end: &mut ContainerEnd,
    texts: &mut u32,
) -> Result<(Stored, Written), Trouble>
    requires champions { length champions.now ≤ MAX_CHAMPIONS }
    requires containers { end.old.containers + vec_len segment.now.pieces < 2 ^ 32 }
    requires texts { texts.old < 2 ^ 32 - 1 }
    ensures same_reference { (shelf_of depot.new).ghost_name ≡ (shelf_of depot.old).ghost_name }
    ensures answer { SegmentAnswer id (segment_chunks segment.now) (located champions.now) room
        (record { shelf = seen ⟦<K as Shelf>⟧ depot.old; end = end.old; texts = texts.old })
        (record { shelf = seen ⟦<K as Shelf>⟧ depot.new; end = end.new; texts = texts.new }) result }
    ensures goes_on { GoesOn end.old end.new (vec_len segment.now.pieces) }
    ensures committed { IfOk result (λ both. CanBeCommitted (located champions.now) end.new both.0) }
{
    let plan = plan_segment(alloc, segment, champions, *end, room)?;
    *end = plan.end;
    let written = store_plan(alloc, depot, &plan, id, texts)?;
    Ok((stored_of(plan), written))
}

// Stores the fresh chunks of a plan, and then writes its manifest.
fn store_plan<K: Shelf>(
    alloc: Global,
    depot: &mut Depot<'_, K>,
    plan: &SegmentPlan,
    id: ManifestId,
    texts: &mut u32,
) -> Result<Written, Trouble>
    requires puts { puts_len plan.now.puts.items < 2 ^ 64 }
    requires texts { texts.old < 2 ^ 32 - 1 }
    ensures same_reference { (shelf_of depot.new).ghost_name ≡ (shelf_of depot.old).ghost_name }
    ensures answer { PlanAnswer id plan.now (seen ⟦<K as Shelf>⟧ depot.old) (seen ⟦<K as Shelf>⟧ depot.new) texts.old texts.new result }
{
    let placed = depot.store_fresh(alloc, id, &plan.puts)?;
    *texts += 1;
    depot.write_manifest(alloc, placed, &plan.text)
}

// What a commit says of what is stored by a plan.
fn stored_of(plan: SegmentPlan) -> Stored
    ensures { result ≡ stored_by plan }
{
    Stored {
        content: plan.content,
        text: name_of(&plan.text),
        chunks: plan.chunks,
        bytes: plan.bytes,
        fresh: plan.fresh,
        fresh_bytes: plan.fresh_bytes,
        uses: plan.uses,
    }
}
