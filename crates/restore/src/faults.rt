// What the answers of other crates are as answers of a restore.
ghost use Rattle.std.specs.Prelude.{◌≡◌};
ghost use Rattle.restore.specs.Faults.{output_fault, look_fault, load_fault, chunk_fault};

use depot::{LoadFault, ReadFault, RestoreFault};
use outside::Trouble;
use store_core::NameFault;

pub(crate) fn of_output(trouble: Trouble) -> RestoreFault
    ensures { result ≡ output_fault trouble }
{
    match trouble {
        Trouble::Fault => RestoreFault::OutputFault,
        Trouble::Memory => RestoreFault::Memory,
    }
}

pub(crate) fn of_look(fault: NameFault) -> RestoreFault
    ensures { result ≡ look_fault fault }
{
    match fault {
        NameFault::NoStream => RestoreFault::NoStream,
        NameFault::Full => RestoreFault::Full,
        NameFault::Memory => RestoreFault::Memory,
    }
}

pub(crate) fn of_load(fault: LoadFault) -> RestoreFault
    ensures { result ≡ load_fault fault }
{
    match fault {
        LoadFault::Shelf => RestoreFault::DepotFault,
        LoadFault::Damaged { want, got } => RestoreFault::Damaged { want, got },
        LoadFault::Unlike { text } => RestoreFault::Unlike { text },
        LoadFault::Memory => RestoreFault::Memory,
    }
}

pub(crate) fn of_chunk(fault: ReadFault) -> RestoreFault
    ensures { result ≡ chunk_fault fault }
{
    match fault {
        ReadFault::Shelf => RestoreFault::DepotFault,
        ReadFault::Damaged { want, got } => RestoreFault::Damaged { want, got },
        ReadFault::Memory => RestoreFault::Memory,
    }
}
