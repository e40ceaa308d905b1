//! Container files: where the bytes of stored chunks lie.
#![tactic(auto)]

mod container_end;
mod fields;
mod laws;
mod layout;
mod planning;
mod scanning;

pub use container_end::ContainerEnd;
pub use laws::scan_of_a_layout;
pub use layout::{Plan, Put};
pub use planning::plan;
pub use scanning::{ScanFault, ScanRecord, scan};

#[cfg(test)]
mod tests;
