//! Which entries a job adds to a history, in the order in which they stand. It runs nothing: each call has a law as its
//! contract.
#![tactic(auto)]

mod backup;
mod caller;
mod input;
mod restores;

pub use backup::{entries_of_a_backup, segments_of_a_backup};
pub use caller::{Others, entries_beside_more, entries_of_a_call, entries_of_one_caller};
pub use input::segments_of_an_input;
pub use restores::entries_of_a_restore;

#[cfg(test)]
mod tests;
