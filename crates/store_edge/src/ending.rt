// The status of a run beside what it left behind.

use outside::Trouble;

const OUT_OF_MEMORY: u8 = 8;

/// The status of a run that has this one, and one more where its sync was a fault. The less stands, but 8 only
/// where no other does; 0 is no status that stands.
pub fn status_beside(status: u8, synced: Result<(), Trouble>, fault: u8) -> u8 {
    match synced {
        Ok(()) => status,
        Err(Trouble::Fault) => least(status, fault),
        Err(Trouble::Memory) => least(status, OUT_OF_MEMORY),
    }
}

fn least(status: u8, other: u8) -> u8 {
    match (status, other) {
        (0, _) => other,
        (OUT_OF_MEMORY, _) => other,
        (_, OUT_OF_MEMORY) => status,
        _ => status.min(other),
    }
}
