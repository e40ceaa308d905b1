//! What stands between a process and a run: the lock on a store's folder, names that no run may touch, files that a
//! thread puts on the disk early, and what a failed sync does to the status.
#![tactic(auto)]

mod ahead_shelf;
mod bar;
mod barred_shelf;
mod ending;
mod folder_lock;
mod hints;

pub use ahead_shelf::AheadShelf;
pub use bar::Bar;
pub use barred_shelf::BarredShelf;
pub use ending::status_beside;
pub use folder_lock::{Turn, Use, take_turn};
pub use hints::{PART, WAITING, put_ahead};

#[cfg(test)]
mod ahead_tests;
#[cfg(test)]
mod tests;
