// What a run is asked to do.
use crate::PathText;
use ss_base::StreamName;

/// One job of a script, and the lane on which it runs, counted from 1.
#[derive(Clone, Copy, Debug, PartialEq, Eq)]
pub struct Job {
    pub lane: u32,
    pub kind: JobKind,
}

/// What a job does.
#[derive(Clone, Copy, Debug, PartialEq, Eq)]
pub enum JobKind {
    /// Keeps the bytes of a file as a stream.
    Backup { input: PathText, name: StreamName },
    /// Writes a stream into a file.
    Restore { name: StreamName, output: PathText },
    /// Deletes a stream.
    Delete { name: StreamName },
    /// Erases what nothing needs.
    Reclaim,
    /// Tells the totals.
    Stat,
}
