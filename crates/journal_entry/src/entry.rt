// The entries of the journal as values.
use crate::Items;
use ss_base::{ContainerId, ManifestId, Name, Object, StreamName};

/// An entry of the journal: a point in the history of the store, and the number of the job that wrote it.
#[derive(Debug, PartialEq, Drop)]
pub struct Entry {
    pub author: u32,
    pub point: Point,
}

/// What an entry records. Sessions and readers have numbers from 0, each in its own order.
#[derive(Debug, PartialEq, Drop)]
pub enum Point {
    /// A backup asked for a name. `None`: the name was taken; else the session that began under it.
    Begin {
        name: StreamName,
        session: Option<u32>,
    },
    /// A session has a segment with these hooks, against which these manifests were chosen.
    Choose {
        session: u32,
        hooks: Items<Name>,
        champions: Items<ManifestId>,
    },
    /// The segment that was chosen for is stored.
    Commit {
        manifest: ManifestId,
        /// The SHA-256 of the segment's pieces.
        content: Name,
        /// The SHA-256 of the manifest's text.
        text: Name,
        chunks: u32,
        /// The length of the segment in bytes.
        bytes: u32,
        /// How many of the chunks were stored anew, and their bytes.
        fresh: u32,
        fresh_bytes: u32,
        /// The containers in which the chunks lie.
        uses: Items<ContainerId>,
    },
    /// A session is whole. It started this many containers.
    Finish {
        session: u32,
        containers: u32,
    },
    /// A session was given up. It started this many containers, and wrote this many manifests.
    Abort {
        session: u32,
        containers: u32,
        texts: u32,
    },
    /// A name was given free. `None`: there was no stream under it; else the session that had it.
    Delete {
        name: StreamName,
        session: Option<u32>,
    },
    /// A restore asked for a name. `None`: there was no stream under it.
    Look {
        name: StreamName,
        seen: Option<Seen>,
    },
    /// A restore is over.
    Done {
        reader: u32,
    },
    /// These objects are wanted no more, and were given over to be removed.
    Reclaim {
        objects: Items<Object>,
    },
    /// The totals of the entries before this one.
    Stat {
        totals: Totals,
    },
}

/// A restore found a stream: the reader that it became, and the stream's session.
#[derive(Clone, Copy, Debug, PartialEq, Eq)]
pub struct Seen {
    pub reader: u32,
    pub session: u32,
}

/// What a store holds, by its entries.
#[derive(Clone, Copy, Debug, PartialEq, Eq)]
pub struct Totals {
    /// Streams that can be restored.
    pub streams: u64,
    /// Their bytes.
    pub bytes: u64,
    /// Bytes that were ever stored anew.
    pub fresh: u64,
    /// Containers that were ever started, by sessions that ended.
    pub containers: u64,
    /// Objects that were reclaimed.
    pub reclaimed: u64,
    /// Entries before the one with these totals.
    pub entries: u64,
}
