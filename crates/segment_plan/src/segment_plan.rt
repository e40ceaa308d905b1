// What is stored of a segment.

use container_file::{ContainerEnd, Put};
use ss_base::{ContainerId, Name};

/// What is stored of a segment: the puts of its fresh chunks, the manifest's text, and the numbers that a commit
/// records.
#[derive(Debug, Drop)]
pub struct SegmentPlan {
    /// What is put to which container, in order.
    pub puts: Vec<Put>,
    /// How far the session's containers go then.
    pub end: ContainerEnd,
    /// The manifest's text.
    pub text: Vec<u8>,
    /// The SHA-256 of the segment's pieces.
    pub content: Name,
    /// The segment's chunks, and its length in bytes.
    pub chunks: u32,
    pub bytes: u32,
    /// How many of the chunks are fresh, and their bytes.
    pub fresh: u32,
    pub fresh_bytes: u32,
    /// The containers in which the chunks lie, ascending.
    pub uses: Vec<ContainerId>,
}
