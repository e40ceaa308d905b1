//! The cut of a stream into chunks by its content, by two thresholds and two divisors (TTTD).
#![tactic(auto)]

mod chunker;
mod cut;
mod laws;
mod plain;
mod progress;
mod scan;

pub use chunker::Chunker;
pub use cut::{cut_all, cut_pieces};
pub use laws::cut_is_tttd;
pub use plain::cut_plainly;

#[cfg(test)]
mod tests;
