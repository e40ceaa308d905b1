// Why no segment is given.
ghost use Rattle.std.specs.Prelude.{◌≡◌};
ghost use Rattle.outside.specs.declared.trouble.Trouble.TheVariants.{Memory as memory};
ghost use Rattle.segment_reader.specs.Cause.{next_fault};

use outside::Trouble;
use ss_base::Memory;
use thiserror::Error;

/// Why the next segment of a stream was not given.
#[derive(Clone, Copy, Debug, PartialEq, Eq, Error)]
pub enum NextFault {
    /// The source failed.
    #[error("the source failed")]
    Fault,
    /// The source gave more bytes than the stream may have.
    #[error("the stream is too long")]
    TooLong,
    /// Memory was wanted.
    #[error("memory was wanted")]
    Memory,
}

impl From<Trouble> for NextFault {
    ghost from_gives = { λ trouble e. e ≡ next_fault trouble };

    fn from(trouble: Trouble) -> Self {
        match trouble {
            Trouble::Fault => NextFault::Fault,
            Trouble::Memory => NextFault::Memory,
        }
    }
}

impl From<Memory> for NextFault {
    ghost from_gives = { λ _ e. e ≡ next_fault memory };

    fn from(_: Memory) -> Self {
        NextFault::Memory
    }
}
