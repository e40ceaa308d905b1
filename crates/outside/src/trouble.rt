// What a call on an object of the outside may refuse by.
ghost use Rattle.std.specs.Prelude.{◌≡◌};
ghost use Rattle.outside.specs.declared.trouble.Trouble.TheVariants.{Memory as memory};

use ss_base::Memory;
use std::alloc::{AllocError, AllocFailed};

/// Why a call on the outside did not answer. `Fault` comes only where the object's count of faults rose in that
/// call; `Memory` is want of memory.
#[derive(Clone, Copy, Debug, PartialEq, Eq)]
pub enum Trouble {
    Fault,
    Memory,
}

impl From<AllocError> for Trouble {
    ghost from_gives = { λ _ e. e ≡ memory };

    fn from(_: AllocError) -> Self {
        Trouble::Memory
    }
}

impl<T: Drop> From<AllocFailed<T>> for Trouble {
    ghost from_gives = { λ _ e. e ≡ memory };

    fn from(_: AllocFailed<T>) -> Self {
        Trouble::Memory
    }
}

impl From<Memory> for Trouble {
    ghost from_gives = { λ _ e. e ≡ memory };

    fn from(_: Memory) -> Self {
        Trouble::Memory
    }
}
