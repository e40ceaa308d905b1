//! What runs of the program store and give back, by the streams of their store. It runs nothing: each call has a law as
//! its contract.
#![tactic(auto)]

mod laws;

pub use laws::{
    backups_are_answered, closed_by_a_run, deletes_are_answered, erased_by_a_run, fronts_by_a_run,
    live_stays_whole_unkept, objects_of_a_run, reclaims_are_answered, restored_by_a_run,
    restores_are_answered, runs_are_answered, stats_are_answered, stores_stay_whole,
    streams_of_a_run, written_by_a_run,
};

#[cfg(test)]
mod tests;
