// What is put where.

use crate::ContainerEnd;
use ss_base::{ContainerId, Place};

/// Bytes that go to one container, in one piece.
#[derive(Debug, Drop)]
pub struct Put {
    pub container: ContainerId,
    /// Whether the container is a new one; then the bytes begin with its header.
    pub starts: bool,
    pub bytes: Vec<u8>,
}

/// Where fresh chunks go: what is put to which container, the place of each, and how far the containers go then.
#[derive(Debug, Drop)]
pub struct Plan {
    pub puts: Vec<Put>,
    pub places: Vec<Place>,
    pub end: ContainerEnd,
}
