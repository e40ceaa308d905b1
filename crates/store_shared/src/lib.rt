//! A store's state for many callers. Each has a pass, and each of its calls takes one turn: there it finds the state as
//! the others left it, adds at most one entry, and answers as a state does at that moment. While a session or a reading
//! lasts, its token owns the pass.
#![tactic(auto)]

mod passes;
mod readings;
mod sessions;
mod store;
mod streams;
mod tokens;

pub use store::Store;
pub use tokens::{Chosen, Reading, Session};
pub use turn_lock::{Note, Pass, SplitFault};

#[cfg(test)]
mod tests;
