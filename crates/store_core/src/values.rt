// What calls on a state take and give.
use crate::Kept;
use ss_base::{ContainerId, ManifestId, Name};

/// A choice: the id that the segment's commit will have, and the champions, the best first.
#[derive(Debug, Drop)]
pub struct Choice {
    pub manifest: ManifestId,
    pub champions: Vec<Kept>,
}

/// What a commit says of a stored segment.
#[derive(Debug, Drop)]
pub struct Stored {
    /// The SHA-256 of the segment's pieces.
    pub content: Name,
    /// The SHA-256 of the manifest's text.
    pub text: Name,
    /// The segment's chunks, 1 to 4,096, and its length in bytes.
    pub chunks: u32,
    pub bytes: u32,
    /// How many of the chunks were stored anew, and their bytes.
    pub fresh: u32,
    pub fresh_bytes: u32,
    /// The containers in which the chunks lie, ascending.
    pub uses: Vec<ContainerId>,
}

/// A stream that is being read: the reading's number, the stream's session, and its manifests in order.
#[derive(Debug, Drop)]
pub struct Looked {
    pub reader: u32,
    pub session: u32,
    pub manifests: Vec<Kept>,
}
