//! A legal history with what has become of each of its sessions and readings, so that no question walks over the
//! entries.
#![tactic(auto)]

mod legal_history;
mod names;
mod parts;
mod readings;
mod session;
mod sessions;
mod stage;
mod uses;

pub use history::{Entry, Point, Rules, Seen};
pub use legal_history::LegalHistory;

#[cfg(test)]
mod tests;
