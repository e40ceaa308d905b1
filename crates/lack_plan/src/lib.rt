//! Which chunks of a segment have to be stored, and where each of the others comes from.
#![tactic(auto)]

mod known;
mod laws;
mod origin;
mod planning;

pub use laws::one_plan;
pub use origin::Origin;
pub use planning::lacks;

#[cfg(test)]
mod tests;
