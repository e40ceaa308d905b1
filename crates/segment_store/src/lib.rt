//! How a backup stores one segment in the depot: it loads the segment's champions, stores the chunks that they lack,
//! and writes the segment's manifest.
#![tactic(auto)]

mod laws;
mod loading;
mod storing;

pub use laws::uses_of_a_segment;
pub use loading::load_champions;
pub use storing::store_segment;

#[cfg(test)]
mod test_segments;
#[cfg(test)]
mod test_state;
