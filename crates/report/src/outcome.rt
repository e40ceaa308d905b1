// The outcomes of jobs: one for each text and status that an answer may have.
ghost use Rattle.std.specs.Prelude.{◌≡◌};
ghost use Rattle.report.specs.Outcome.{outcome_of, outcome_of_backup, outcome_of_restore, outcome_of_delete, outcome_of_reclaim, outcome_of_stat};

use crate::answer::{JobAnswer, ReclaimFault};
use depot::{BackupFault, RestoreFault};
use ss_base::Name;
use store_core::{NameFault, PointFault};

#[derive(Clone, Copy)]
pub(crate) enum Outcome {
    Ok,
    Taken,
    NoStream,
    NoInput,
    Exists,
    InputFault,
    OutputFault,
    DepotFault,
    Damaged { want: Name, got: Name },
    Unlike { text: Name },
    TooLong,
    Full,
    Memory,
}

pub(crate) fn of_answer(answer: &JobAnswer) -> Outcome
    ensures { result ≡ outcome_of answer.now }
{
    match answer {
        JobAnswer::Ok => Outcome::Ok,
        JobAnswer::Backup(fault) => of_backup(fault),
        JobAnswer::Restore(fault) => of_restore(fault),
        JobAnswer::Delete(fault) => of_delete(fault),
        JobAnswer::Reclaim(fault) => of_reclaim(fault),
        JobAnswer::Stat(fault) => of_stat(fault),
    }
}

fn of_backup(fault: &BackupFault) -> Outcome
    ensures { result ≡ outcome_of_backup fault.now }
{
    match *fault {
        BackupFault::Taken => Outcome::Taken,
        BackupFault::NoInput => Outcome::NoInput,
        BackupFault::InputFault => Outcome::InputFault,
        BackupFault::TooLong => Outcome::TooLong,
        BackupFault::DepotFault => Outcome::DepotFault,
        BackupFault::Damaged { want, got } => Outcome::Damaged { want, got },
        BackupFault::Unlike { text } => Outcome::Unlike { text },
        BackupFault::Full => Outcome::Full,
        BackupFault::Memory => Outcome::Memory,
    }
}

fn of_restore(fault: &RestoreFault) -> Outcome
    ensures { result ≡ outcome_of_restore fault.now }
{
    match *fault {
        RestoreFault::Exists => Outcome::Exists,
        RestoreFault::NoStream => Outcome::NoStream,
        RestoreFault::OutputFault => Outcome::OutputFault,
        RestoreFault::DepotFault => Outcome::DepotFault,
        RestoreFault::Damaged { want, got } => Outcome::Damaged { want, got },
        RestoreFault::Unlike { text } => Outcome::Unlike { text },
        RestoreFault::Full => Outcome::Full,
        RestoreFault::Memory => Outcome::Memory,
    }
}

fn of_delete(fault: &NameFault) -> Outcome
    ensures { result ≡ outcome_of_delete fault.now }
{
    match fault {
        NameFault::NoStream => Outcome::NoStream,
        NameFault::Full => Outcome::Full,
        NameFault::Memory => Outcome::Memory,
    }
}

fn of_reclaim(fault: &ReclaimFault) -> Outcome
    ensures { result ≡ outcome_of_reclaim fault.now }
{
    match fault {
        ReclaimFault::DepotFault => Outcome::DepotFault,
        ReclaimFault::Full => Outcome::Full,
        ReclaimFault::Memory => Outcome::Memory,
    }
}

fn of_stat(fault: &PointFault) -> Outcome
    ensures { result ≡ outcome_of_stat fault.now }
{
    match fault {
        PointFault::Full => Outcome::Full,
        PointFault::Memory => Outcome::Memory,
    }
}
