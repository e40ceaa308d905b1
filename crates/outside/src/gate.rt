// What lanes pass on their way.

/// What a lane is about to do under the lock, by the kind of the point that it will add to the journal.
#[derive(Clone, Copy, Debug, PartialEq, Eq)]
pub enum PointKind {
    Begin,
    Choose,
    Commit,
    Finish,
    Abort,
    Delete,
    Look,
    Done,
    Reclaim,
    Stat,
}

/// What the lanes of a run call on their way, so that a test can hold one up. It may let time pass; no contract
/// rests on it.
pub trait Gate {
    /// This lane is about to take the lock for a point of this kind.
    fn pass(&self, lane: u32, kind: PointKind);

    /// This lane has done a job.
    fn answered(&self, lane: u32);
}

/// A gate that does nothing.
#[derive(Drop)]
pub struct OpenGate;

impl Gate for OpenGate {
    fn pass(&self, _lane: u32, _kind: PointKind) {}

    fn answered(&self, _lane: u32) {}
}
