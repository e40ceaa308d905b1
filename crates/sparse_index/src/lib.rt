//! The bounded index of hooks: which manifests stand at each hook, the most recently used first.
#![tactic(auto)]

mod index;
mod kept;
mod last_bytes;
mod list;
mod name_key;

pub use index::Index;

#[cfg(test)]
mod tests;
