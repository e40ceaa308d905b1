//! Hooks: the sample of chunk names by which similar segments are found.
#![tactic(auto)]

mod distinct;
mod sampling;

pub use sampling::hooks;

#[cfg(test)]
mod tests;
