//! FxHash, the hash function of Firefox and of rustc, for maps with keys of a few numbers.
#![tactic(auto)]

mod hasher;

pub use hasher::{FxHasher, FxMap};

#[cfg(test)]
mod tests;
