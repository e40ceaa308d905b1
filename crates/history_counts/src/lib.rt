//! Counts that are kept in step with a history: each number is the recount over its entries.
#![tactic(auto)]

mod adding;
mod holds;
mod laws;
mod room;

pub use adding::add_entry;
pub use laws::{dead_is_erasable, nothing_is_counted};
pub use room::make_room;

#[cfg(test)]
mod tests;
