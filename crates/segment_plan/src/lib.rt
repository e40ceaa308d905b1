//! What a backup stores of one segment: which chunks are fresh, where each chunk lies, the manifest's text, what is put
//! into which container, and the numbers that a commit records.
#![tactic(auto)]

mod laws;
mod placing;
mod planning;
mod segment_plan;

pub use laws::{chunks_of_a_segment, places_of_a_plan};
pub use planning::plan_segment;
pub use segment_plan::SegmentPlan;

#[cfg(test)]
mod tests;
