//! A cache of manifests that were loaded: a manifest that is asked for again is handed out without a read and without
//! hashing.
#![tactic(auto)]

mod cache;
mod cached;
mod laws;

pub use cache::ManifestCache;
#[doc(hidden)]
pub use cached::Cached;
pub use laws::{entries_of_a_cache, held_manifests};

#[cfg(test)]
mod test_state;
#[cfg(test)]
mod tests;
