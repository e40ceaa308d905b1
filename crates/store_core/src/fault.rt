// Why a call on a state was refused.
use ss_base::Memory;

/// Why entries are no state's.
#[derive(Clone, Copy, Debug, PartialEq, Eq, Drop)]
pub enum OpenFault {
    /// This entry is the first that isn't legal.
    Illegal(u32),
    /// All entries are legal, and this is the least session that is unfinished.
    UnfinishedSession(u32),
    /// No session is unfinished, and this is the least reading that is.
    UnfinishedReading(u32),
    /// Memory was wanted.
    Memory,
}

/// Why no session began.
#[derive(Clone, Copy, Debug, PartialEq, Eq, Drop)]
pub enum BeginFault {
    /// The name is held. An entry says so.
    Taken,
    /// With the entry the limits would be broken.
    Full,
    /// Memory was wanted.
    Memory,
}

/// Why an entry wasn't added.
#[derive(Clone, Copy, Debug, PartialEq, Eq, Drop)]
pub enum PointFault {
    /// With the entry the limits would be broken.
    Full,
    /// Memory was wanted.
    Memory,
}

/// Why no stream was found.
#[derive(Clone, Copy, Debug, PartialEq, Eq, Drop)]
pub enum NameFault {
    /// No stream is retained under the name. An entry says so.
    NoStream,
    /// With the entry the limits would be broken.
    Full,
    /// Memory was wanted.
    Memory,
}
