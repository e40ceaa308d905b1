// Runs that end early.
ghost use Rattle.std.specs.Prelude.{◌≡◌, [], ◌∷◌};
ghost use Rattle.store_run.specs.Stop.{status_of, sink_fault, least_status};
ghost use Rattle.store_run.specs.declared.stop.Stop.TheVariants.{Memory};
ghost use Rattle.store_run.specs.declared.stop.Halt.TheVariants.{Early, Unprinted};

use outside::Trouble;
use ss_base::Memory as OutOfMemory;

/// Why a run ends before it has printed its output.
#[derive(Clone, Copy, Debug, PartialEq, Eq)]
pub enum Stop {
    /// No command has the words.
    Usage,
    /// The source gave more bytes than a stream may have.
    TooLong,
    /// Memory was wanted.
    Memory,
    /// There is a store already.
    AlreadyStore,
    /// The source failed.
    SourceFault,
    /// The depot failed.
    DepotFault,
    /// There is no journal, or its first 8 bytes are no header.
    NotStore,
    /// From this place on, in bytes, no entry stands in the journal, or one that goes past what it may hold.
    BadEntry(u64),
    /// The entry with this number is the first that may not follow those before it.
    IllegalEntry(u32),
    /// The session with this number is the least that is unfinished.
    UnfinishedSession(u32),
    /// The reading with this number is the least that is unfinished, and no session is.
    UnfinishedReading(u32),
    /// No author's number is left.
    Callers,
}

impl Stop {
    /// The status that stands for it.
    pub fn status(self) -> u8
        ensures { result ≡ status_of self }
    {
        match self {
            Stop::Usage => 1,
            Stop::DepotFault => 4,
            Stop::NotStore => 6,
            Stop::BadEntry(_) => 6,
            Stop::IllegalEntry(_) => 6,
            Stop::UnfinishedSession(_) => 6,
            Stop::UnfinishedReading(_) => 6,
            Stop::TooLong | Stop::Callers => 7,
            Stop::Memory => 8,
            Stop::AlreadyStore => 11,
            Stop::SourceFault => 12,
        }
    }

    /// The status where the sink failed too: the less of its own and 9, where its own is not 8.
    #[tactic(auto, unfolding(crate::specs::Stop::least_status, ss_base::specs::Search::least))]
    pub fn status_beside_sink_fault(self) -> u8
        ensures { result ≡ least_status (status_of self ∷ sink_fault ∷ []) }
    {
        match self {
            Stop::Usage => 1,
            Stop::DepotFault => 4,
            Stop::NotStore => 6,
            Stop::BadEntry(_) => 6,
            Stop::IllegalEntry(_) => 6,
            Stop::UnfinishedSession(_) => 6,
            Stop::UnfinishedReading(_) => 6,
            Stop::TooLong | Stop::Callers => 7,
            Stop::Memory => 9,
            Stop::AlreadyStore => 9,
            Stop::SourceFault => 9,
        }
    }
}

/// Why the printing of a stream's lines ends before all of them are written.
#[derive(Clone, Copy, Debug, PartialEq, Eq)]
pub enum Halt {
    /// The run ends early. What waits is printed, and then its fault line.
    Early(Stop),
    /// A line could not be printed, and nothing more is.
    Unprinted(Trouble),
}

impl From<OutOfMemory> for Halt {
    ghost from_gives = { λ _ halt. halt ≡ Early Memory };

    fn from(_: OutOfMemory) -> Self {
        Halt::Early(Stop::Memory)
    }
}

impl From<Trouble> for Halt {
    ghost from_gives = { λ trouble halt. halt ≡ Unprinted trouble };

    fn from(trouble: Trouble) -> Self {
        Halt::Unprinted(trouble)
    }
}
