// What a job answers.
use depot::{BackupFault, RestoreFault};
use store_core::{NameFault, PointFault};

/// What a job answers: that it was done, or why it was not.
#[derive(Clone, Copy, Debug, PartialEq, Eq)]
pub enum JobAnswer {
    /// The job was done.
    Ok,
    /// Why no stream was backed up.
    Backup(BackupFault),
    /// Why no stream was restored.
    Restore(RestoreFault),
    /// Why no stream was deleted.
    Delete(NameFault),
    /// Why not all was erased that nothing needs.
    Reclaim(ReclaimFault),
    /// Why no totals were told.
    Stat(PointFault),
}

/// Why not all was erased that nothing needs.
#[derive(Clone, Copy, Debug, PartialEq, Eq)]
pub enum ReclaimFault {
    /// The shelf of the depot failed.
    DepotFault,
    /// The entry has no room in the journal.
    Full,
    /// Memory was wanted.
    Memory,
}
