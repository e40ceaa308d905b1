//! Keeps an index of hooks in step with a history: at every hook it has what stands there by the entries.
#![tactic(auto)]

mod choices;
mod follow;
mod retire;

pub use follow::{add_entry, empty_index, make_room};

#[cfg(test)]
mod tests;
