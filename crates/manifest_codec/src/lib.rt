//! Manifests: what a stored segment's chunks are and where they lie.
#![tactic(auto)]

mod containers_of;
mod decoding;
mod digest;
mod encoding;
mod fields;
mod manifest;

pub use containers_of::containers;
pub use decoding::{DecodeFault, decode};
pub use digest::content;
pub use encoding::encode;
pub use manifest::Manifest;

#[cfg(test)]
mod tests;
