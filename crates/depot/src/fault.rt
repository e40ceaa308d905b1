// Why a call on the depot, or a job over it, did not answer.
ghost use Rattle.std.specs.Prelude.{◌≡◌};
ghost use Rattle.outside.specs.declared.trouble.Trouble.TheVariants.{Memory as memory};
ghost use Rattle.depot.specs.Trouble.{load_fault, read_fault};

use outside::Trouble;
use ss_base::{Memory, Name};

/// Why no manifest was loaded.
#[derive(Clone, Copy, Debug, PartialEq, Eq)]
pub enum LoadFault {
    /// The shelf failed.
    Shelf,
    /// What was read has not the SHA-256 that was kept of the text.
    Damaged { want: Name, got: Name },
    /// What was read has the SHA-256 that was kept, and no manifest with the content, the number of chunks and the
    /// containers that were kept has it as its text.
    Unlike { text: Name },
    /// Memory was wanted.
    Memory,
}

/// Why no chunk was read.
#[derive(Clone, Copy, Debug, PartialEq, Eq)]
pub enum ReadFault {
    /// The shelf failed.
    Shelf,
    /// What was read has not the name of the piece.
    Damaged { want: Name, got: Name },
    /// Memory was wanted.
    Memory,
}

/// Why no stream was backed up.
#[derive(Clone, Copy, Debug, PartialEq, Eq)]
pub enum BackupFault {
    /// The name is held by another stream.
    Taken,
    /// There is no such input.
    NoInput,
    /// The shelf of the input failed.
    InputFault,
    /// The input has more bytes than a stream may have.
    TooLong,
    /// The shelf of the depot failed.
    DepotFault,
    /// A champion's manifest has not the SHA-256 that was kept of its text.
    Damaged { want: Name, got: Name },
    /// A champion's text has the SHA-256 that was kept, and is not that of a manifest like what was kept.
    Unlike { text: Name },
    /// An entry of the session has no room in the journal.
    Full,
    /// Memory was wanted.
    Memory,
}

/// Why no stream was restored.
#[derive(Clone, Copy, Debug, PartialEq, Eq)]
pub enum RestoreFault {
    /// The output is there.
    Exists,
    /// No stream is retained under the name.
    NoStream,
    /// The shelf of the output failed.
    OutputFault,
    /// The shelf of the depot failed.
    DepotFault,
    /// A manifest, or a chunk, has not the SHA-256 that was kept of it.
    Damaged { want: Name, got: Name },
    /// A manifest's text has the SHA-256 that was kept, and is not that of a manifest like what was kept.
    Unlike { text: Name },
    /// The entry of the reading has no room in the journal.
    Full,
    /// Memory was wanted.
    Memory,
}

impl From<Trouble> for LoadFault {
    ghost from_gives = { λ trouble e. e ≡ load_fault trouble };

    fn from(trouble: Trouble) -> Self {
        match trouble {
            Trouble::Fault => LoadFault::Shelf,
            Trouble::Memory => LoadFault::Memory,
        }
    }
}

impl From<Memory> for LoadFault {
    ghost from_gives = { λ _ e. e ≡ load_fault memory };

    fn from(_: Memory) -> Self {
        LoadFault::Memory
    }
}

impl From<Trouble> for ReadFault {
    ghost from_gives = { λ trouble e. e ≡ read_fault trouble };

    fn from(trouble: Trouble) -> Self {
        match trouble {
            Trouble::Fault => ReadFault::Shelf,
            Trouble::Memory => ReadFault::Memory,
        }
    }
}
