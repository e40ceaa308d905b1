//! What one job does in a store that is open and that no other lane works on: its entries are added to the state, and the
//! files and the depot are read and written.
#![tactic(auto)]

mod backups;
mod deletions;
mod erasing;
mod jobs;
mod reclaiming;
mod restores;
mod totals;

pub use jobs::{run_command, run_job};
