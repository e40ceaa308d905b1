//! The calls by which a job adds its entries to a history that others may add to as well. A job is written once over
//! them: for a caller that has the history to itself, and for one of many.
#![tactic(auto)]

mod alone;
mod laws;
mod readings;
mod sessions;

pub use alone::{Caller, ChosenSession, OpenReading, OpenSession};
pub use laws::sessions_of_a_caller;
pub use readings::ReadingCalls;
pub use sessions::SessionCalls;

#[cfg(test)]
mod tests;
