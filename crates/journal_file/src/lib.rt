//! The journal of a store as an object of a shelf: it is made, read to its end, and added to.
#![tactic(auto)]

mod appending;
mod creating;
mod fault;
mod fitting;
mod found;
mod header;
mod laws;
mod limits;
mod reading;
mod scan;

pub use appending::append;
pub use creating::create;
pub use fault::{AppendFault, CreateFault, JournalFault};
pub use laws::one_answer;
pub use limits::{MAX_ENTRIES, MAX_WEIGHT};
pub use reading::read;

#[cfg(test)]
mod tests;
