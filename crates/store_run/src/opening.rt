// A store is opened: its journal is read, and replayed.
ghost use Rattle.std.specs.Prelude.{◌≡◌};
ghost use Rattle.outside.specs.Views.{shelf_view};
ghost use Rattle.store_run.specs.Opening.{stop_of, stop_of_replay, Opens};

use crate::stop::Stop;
use history::Limits;
use journal_file::{JournalFault, MAX_ENTRIES, MAX_WEIGHT, read};
use outside::Shelf;
use std::alloc::Global;
use store_core::{OpenFault, State};

/// The state of the store in a depot, from its journal. Nothing but reads is done. `NotStore`, `BadEntry`,
/// `IllegalEntry`, `UnfinishedSession` and `UnfinishedReading` come exactly where the journal is such, at the first
/// place or of the least number; `DepotFault` only where the depot's count rose.
pub fn open<K: Shelf>(alloc: Global, depot: &mut K) -> Result<State<8, 8>, Stop>
    ensures { Opens (shelf_view ⟦<K as Shelf>⟧ depot.old) (shelf_view ⟦<K as Shelf>⟧ depot.new) result }
{
    let (profile, entries) = read(alloc, depot)?;
    let limits = Limits {
        entries: MAX_ENTRIES as u32,
        weight: MAX_WEIGHT,
    };
    let state = State::replay(alloc, profile, limits, entries)?;
    Ok(state)
}

impl From<JournalFault> for Stop {
    ghost from_gives = { λ fault stop. stop ≡ stop_of fault };

    fn from(fault: JournalFault) -> Self {
        match fault {
            JournalFault::Shelf => Stop::DepotFault,
            JournalFault::NotStore => Stop::NotStore,
            JournalFault::BadEntry(place) => Stop::BadEntry(place),
            JournalFault::Memory => Stop::Memory,
        }
    }
}

impl From<OpenFault> for Stop {
    ghost from_gives = { λ fault stop. stop ≡ stop_of_replay fault };

    fn from(fault: OpenFault) -> Self {
        match fault {
            OpenFault::Illegal(number) => Stop::IllegalEntry(number),
            OpenFault::UnfinishedSession(session) => Stop::UnfinishedSession(session),
            OpenFault::UnfinishedReading(reader) => Stop::UnfinishedReading(reader),
            OpenFault::Memory => Stop::Memory,
        }
    }
}
