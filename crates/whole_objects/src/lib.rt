//! Objects that are whole for a history of some streams stay so: while sessions store more, behind each entry, and where
//! what nothing needs is erased.
#![tactic(auto)]

mod committing;
mod keeping;
mod putting;

pub use committing::whole_behind_a_commit;
pub use keeping::{
    stays_whole_behind_entries, stays_whole_where_wanted_is_kept, stays_whole_without_reclaimed,
};
pub use putting::puts_are_laid_out;

#[cfg(test)]
mod tests;
