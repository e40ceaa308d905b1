//! A store's history and all that follows from it: each call adds the one entry that a legal history allows there, and
//! answers what that entry says.
#![tactic(auto)]

mod allowed;
mod choosing;
mod fault;
mod following;
mod hooks;
mod journal;
mod keeping;
mod kept;
mod reclaiming;
mod replaying;
mod sessions;
mod state;
mod streams;
mod uses;
mod values;

pub use fault::{BeginFault, NameFault, OpenFault, PointFault};
pub use kept::Kept;
pub use reclaiming::{Removal, removal_object};
pub use state::State;
pub use values::{Choice, Looked, Stored};

#[cfg(test)]
mod cases;
#[cfg(test)]
mod checked_call_tests;
#[cfg(test)]
mod entry_lines;
#[cfg(test)]
mod entry_rule_tests;
#[cfg(test)]
mod histories;
#[cfg(test)]
mod limit_tests;
#[cfg(test)]
mod played_history_tests;
#[cfg(test)]
mod worked_history_tests;
