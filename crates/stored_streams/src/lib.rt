//! What a history stores of its sessions' streams: the definitions, and what follows from them.
#![tactic(auto)]

mod laws;

pub use laws::{
    is_of_its_sessions_alone, new_objects_are_absent, stays_of_streams,
    stays_whole_beside_new_objects, stored_can_be_shown, stores_what_was_loaded,
};

#[cfg(test)]
mod tests;
