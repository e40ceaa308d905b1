//! What follows from a history's being legal: laws of its definitions, each on a call that runs nothing.
#![tactic(auto)]

mod entries;
mod names;
mod needs;
mod own_ends;
mod sessions;
mod standings;

pub use entries::{entries_within_bounds, legal_prefix};
pub use names::one_retained;
pub use needs::{
    never_live_again, never_needed_again, never_wanted_again, numbers_tell, pending_is_live,
    reclaimed_once,
};
pub use own_ends::own_end_is_least;
pub use sessions::{begun_once, ends_fit, other_readings_stay, other_sessions_stay};
pub use standings::what_stands;

#[cfg(test)]
mod tests;
