// Ids of stored objects. Orders are by the fields from left to right.

/// A container: number `ordinal`, from 0, of those that a session started.
#[derive(Clone, Copy, Debug, PartialEq, Eq, PartialOrd, Ord, Hash)]
pub struct ContainerId {
    pub session: u32,
    pub ordinal: u32,
}

/// A manifest: number `seq`, from 0, of those that a session committed.
#[derive(Clone, Copy, Debug, Default, PartialEq, Eq, PartialOrd, Ord, Hash)]
pub struct ManifestId {
    pub session: u32,
    pub seq: u32,
}

/// Where a chunk lies: the offset of its first byte in the container's file, in bytes.
#[derive(Clone, Copy, Debug, PartialEq, Eq, PartialOrd, Ord, Hash)]
pub struct Place {
    pub container: ContainerId,
    pub offset: u32,
}

/// A manifest that stands in the list of a hook. `stamp` is the number of its Commit entry.
#[derive(Clone, Copy, Debug, Default, PartialEq, Eq, PartialOrd, Ord, Hash)]
pub struct Standing {
    pub id: ManifestId,
    pub stamp: u32,
}
