// Why a call on the journal did not answer.
ghost use Rattle.std.specs.Prelude.{◌≡◌};
ghost use Rattle.outside.specs.declared.trouble.Trouble.TheVariants.{Memory as memory};
ghost use Rattle.journal_file.specs.Cause.{create_fault, journal_fault, append_fault};

use outside::Trouble;
use ss_base::Memory;
use std::alloc::{AllocError, AllocFailed};
use thiserror::Error;

/// Why no journal was made.
#[derive(Clone, Copy, Debug, PartialEq, Eq, Error)]
pub enum CreateFault {
    /// The journal is there.
    #[error("already a store")]
    AlreadyStore,
    /// The shelf failed.
    #[error("the shelf failed")]
    Shelf,
    /// Memory was wanted.
    #[error("memory was wanted")]
    Memory,
}

/// Why a journal was not read.
#[derive(Clone, Copy, Debug, PartialEq, Eq, Error)]
pub enum JournalFault {
    /// The shelf failed.
    #[error("the shelf failed")]
    Shelf,
    /// There is no journal, or it does not begin as one.
    #[error("not a store")]
    NotStore,
    /// From this place on, in bytes, no entry stands, or one that goes past what a journal may hold.
    #[error("no entry at {0}")]
    BadEntry(u64),
    /// Memory was wanted.
    #[error("memory was wanted")]
    Memory,
}

/// Why entries were not added.
#[derive(Clone, Copy, Debug, PartialEq, Eq, Error)]
pub enum AppendFault {
    /// The shelf failed.
    #[error("the shelf failed")]
    Shelf,
    /// Memory was wanted.
    #[error("memory was wanted")]
    Memory,
}

impl From<Trouble> for CreateFault {
    ghost from_gives = { λ trouble e. e ≡ create_fault trouble };

    fn from(trouble: Trouble) -> Self {
        match trouble {
            Trouble::Fault => CreateFault::Shelf,
            Trouble::Memory => CreateFault::Memory,
        }
    }
}

impl From<Trouble> for JournalFault {
    ghost from_gives = { λ trouble e. e ≡ journal_fault trouble };

    fn from(trouble: Trouble) -> Self {
        match trouble {
            Trouble::Fault => JournalFault::Shelf,
            Trouble::Memory => JournalFault::Memory,
        }
    }
}

impl From<Trouble> for AppendFault {
    ghost from_gives = { λ trouble e. e ≡ append_fault trouble };

    fn from(trouble: Trouble) -> Self {
        match trouble {
            Trouble::Fault => AppendFault::Shelf,
            Trouble::Memory => AppendFault::Memory,
        }
    }
}

impl From<Memory> for AppendFault {
    ghost from_gives = { λ _ e. e ≡ append_fault memory };

    fn from(_: Memory) -> Self {
        AppendFault::Memory
    }
}

impl From<Memory> for JournalFault {
    ghost from_gives = { λ _ e. e ≡ journal_fault memory };

    fn from(_: Memory) -> Self {
        JournalFault::Memory
    }
}

impl From<AllocError> for JournalFault {
    ghost from_gives = { λ _ e. e ≡ journal_fault memory };

    fn from(_: AllocError) -> Self {
        JournalFault::Memory
    }
}

impl<T: Drop> From<AllocFailed<T>> for JournalFault {
    ghost from_gives = { λ _ e. e ≡ journal_fault memory };

    fn from(_: AllocFailed<T>) -> Self {
        JournalFault::Memory
    }
}
