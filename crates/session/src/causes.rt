// What stops a backup, by what a call answered.
ghost use Rattle.std.specs.Prelude.{◌≡◌};
ghost use Rattle.session.specs.Causes.{of_input, of_depot, of_begin, of_point, of_next, of_load};

use depot::{BackupFault, LoadFault};
use outside::Trouble;
use segment_reader::NextFault;
use store_core::{BeginFault, PointFault};

pub(crate) fn of_input(trouble: Trouble) -> BackupFault
    ensures { result ≡ of_input trouble }
{
    match trouble {
        Trouble::Fault => BackupFault::InputFault,
        Trouble::Memory => BackupFault::Memory,
    }
}

pub(crate) fn of_depot(trouble: Trouble) -> BackupFault
    ensures { result ≡ of_depot trouble }
{
    match trouble {
        Trouble::Fault => BackupFault::DepotFault,
        Trouble::Memory => BackupFault::Memory,
    }
}

pub(crate) fn of_begin(fault: BeginFault) -> BackupFault
    ensures { result ≡ of_begin fault }
{
    match fault {
        BeginFault::Taken => BackupFault::Taken,
        BeginFault::Full => BackupFault::Full,
        BeginFault::Memory => BackupFault::Memory,
    }
}

pub(crate) fn of_point(fault: PointFault) -> BackupFault
    ensures { result ≡ of_point fault }
{
    match fault {
        PointFault::Full => BackupFault::Full,
        PointFault::Memory => BackupFault::Memory,
    }
}

pub(crate) fn of_next(fault: NextFault) -> BackupFault
    ensures { result ≡ of_next fault }
{
    match fault {
        NextFault::Fault => BackupFault::InputFault,
        NextFault::TooLong => BackupFault::TooLong,
        NextFault::Memory => BackupFault::Memory,
    }
}

pub(crate) fn of_load(fault: LoadFault) -> BackupFault
    ensures { result ≡ of_load fault }
{
    match fault {
        LoadFault::Shelf => BackupFault::DepotFault,
        LoadFault::Damaged { want, got } => BackupFault::Damaged { want, got },
        LoadFault::Unlike { text } => BackupFault::Unlike { text },
        LoadFault::Memory => BackupFault::Memory,
    }
}
