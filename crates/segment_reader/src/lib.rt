//! The part of a backup that reads a stream and gives its segments one by one: it reads no further than to the next
//! segment that is whole.
#![tactic(auto)]

mod fault;
mod grouping;
mod reading;
mod work;

pub use fault::NextFault;
pub use work::{Work, next_segment};

#[cfg(test)]
mod tests;
