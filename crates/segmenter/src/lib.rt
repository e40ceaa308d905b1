//! Chunks that follow one another are grouped into segments. Where a segment ends is settled by its number of
//! chunks and by the name of its last chunk, so that a stream's segments depend on its content alone.
#![tactic(auto)]

mod joined;
mod segment;
mod segmenter;

pub use segment::Segment;
pub use segmenter::Segmenter;

#[cfg(test)]
mod tests;
