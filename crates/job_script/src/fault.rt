// Why a script was not read.
ghost use Rattle.std.specs.Prelude.{◌≡◌};
ghost use Rattle.job_script.specs.declared.fault.ScriptFault.TheVariants.{Memory};

use std::alloc::AllocFailed;
use thiserror::Error;

/// Why a script was not read.
#[derive(Clone, Copy, Debug, PartialEq, Eq, Error)]
pub enum ScriptFault {
    /// This line, counted from 1, is the first outside the grammar, and at most 4,096 jobs stand before it.
    #[error("bad line {0}")]
    BadLine(u32),
    /// More than 4,096 jobs stand before any line outside the grammar.
    #[error("too many jobs")]
    TooMany,
    /// Memory was wanted.
    #[error("memory was wanted")]
    Memory,
}

impl<T: Drop> From<AllocFailed<T>> for ScriptFault {
    ghost from_gives = { λ _ e. e ≡ Memory };

    fn from(_: AllocFailed<T>) -> Self {
        ScriptFault::Memory
    }
}
