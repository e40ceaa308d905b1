// A segment is stored for its choice.
ghost use Rattle.std.specs.Prelude.{◌≡◌, ◌+◌, ◌-◌, ◌<◌, ◌≤◌, ◌^◌, ◌⊎◌, true, ℕ, List, vec_len, MatchResult, IfOk};
ghost use Rattle.ss_base.specs.declared.limits.TheConstants.{MAX_CHAMPIONS};
ghost use Rattle.segmenter.specs.Segment.{HasChunks};
ghost use Rattle.depot.specs.Seen.{shelf_of, seen};
ghost use Rattle.segment_store.specs.Stored.{GoesOn};
ghost use Rattle.session.specs.Causes.{DepotCount};
ghost use Rattle.session.specs.Ready.{no_extent, progress_of, CanCommitFor};
ghost use Rattle.session.specs.Stores.{IsStoredFor};
ghost use Rattle.session.specs.Stops.{NotStoredFor};

use crate::causes::{of_depot, of_load};
use container_file::ContainerEnd;
use depot::{BackupFault, Depot, Written};
use manifest_cache::ManifestCache;
use outside::Shelf;
use segment_store::{load_champions, store_segment};
use segmenter::Segment;
use ss_base::MAX_CHAMPIONS;
use std::alloc::Global;
use store_core::{Choice, Stored};

/// How far a session has stored: how far its containers go, and how many of its manifests were written or tried.
#[derive(Clone, Copy, Debug)]
pub(crate) struct Extent {
    pub end: ContainerEnd,
    pub texts: u32,
}

impl Extent {
    // That of a session with nothing stored.
    pub(crate) fn new(session: u32) -> Extent
        ensures { result ≡ no_extent session }
    {
        Extent {
            end: ContainerEnd {
                session,
                containers: 0,
                used: 0,
            },
            texts: 0,
        }
    }

    // Whether the numbers of a session have room for a segment with so many pieces and champions.
    fn has_room(self, pieces: usize, champions: usize) -> bool
        ensures containers { result ≡ true → self.end.containers + pieces < 2 ^ 32 }
        ensures champions { result ≡ true → champions ≤ MAX_CHAMPIONS }
        ensures texts { result ≡ true → self.texts < 2 ^ 32 - 1 }
    {
        (u32::MAX - self.end.containers) as usize >= pieces
            && champions <= MAX_CHAMPIONS
            && self.texts < u32::MAX
    }
}

// Loads the champions of a choice and stores the segment against them, with the manifest of the choice.
pub(crate) fn store_for<K: Shelf>(
    alloc: Global,
    depot: &mut Depot<'_, K>,
    segment: &Segment,
    choice: &Choice,
    room: u32,
    extent: &mut Extent,
    cache: &mut ManifestCache,
) -> Result<(Stored, Written), BackupFault>
    ensures same_reference { (shelf_of depot.new).ghost_name ≡ (shelf_of depot.old).ghost_name }
    ensures answer { (chunks : List (List ℕ)) → HasChunks segment.now chunks → MatchResult result
        (λ both. IsStoredFor chunks choice.now room
        (progress_of (seen ⟦<K as Shelf>⟧ depot.old) extent.old cache.old.entries) (progress_of (seen ⟦<K as Shelf>⟧ depot.new) extent.new cache.new.entries) both.0 both.1)
        (λ fault. NotStoredFor chunks choice.now room
        (progress_of (seen ⟦<K as Shelf>⟧ depot.old) extent.old cache.old.entries) (progress_of (seen ⟦<K as Shelf>⟧ depot.new) extent.new cache.new.entries) fault) }
    ensures goes_on { GoesOn extent.old.end extent.new.end (vec_len segment.now.pieces) }
    ensures committed { IfOk result (λ both. CanCommitFor choice.now (seen ⟦<K as Shelf>⟧ depot.old) extent.new.end both.0 both.1) }
    ensures texts { MatchResult result (λ _. extent.new.texts ≡ extent.old.texts + 1)
        (λ _. (extent.new.texts ≡ extent.old.texts) ⊎ (extent.new.texts ≡ extent.old.texts + 1)) }
    ensures count { MatchResult result (λ _. K.faults (shelf_of depot.new).now ≡ K.faults (shelf_of depot.old).now)
        (λ fault. DepotCount fault (K.faults (shelf_of depot.old).now) (K.faults (shelf_of depot.new).now)) }
{
    if !extent.has_room(segment.pieces.len(), choice.champions.len()) {
        return Err(BackupFault::Memory);
    }
    let manifests = match load_champions(alloc, depot, &choice.champions, cache) {
        Ok(manifests) => manifests,
        Err(fault) => return Err(of_load(fault)),
    };
    match store_segment(
        alloc,
        depot,
        segment,
        &manifests,
        choice.manifest,
        room,
        &mut extent.end,
        &mut extent.texts,
    ) {
        Ok(both) => Ok(both),
        Err(trouble) => Err(of_depot(trouble)),
    }
}
