//! What a backup says of itself, as what its history stores of its streams. It runs nothing: each call has a law as its
//! contract.
#![tactic(auto)]

mod laws;

pub use laws::{
    collisions_stay, contents_of_a_backup, loads_of_a_backup, objects_of_a_backup,
    streams_of_a_backup, whole_depots_show_no_damage, whole_of_a_backup, written_by_a_backup,
};

#[cfg(test)]
mod tests;
