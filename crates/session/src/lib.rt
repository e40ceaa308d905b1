//! The session of a backup: a stream is read, and segment by segment chosen for, stored in the depot and committed.
#![tactic(auto)]

mod alone;
mod caller;
mod causes;
mod segments;
mod shared;
mod storing;
mod stream;

pub use alone::backup_solo;
pub use caller::backup;
pub use manifest_cache::ManifestCache;
pub use segment_reader::{NextFault, Work, next_segment};
pub use segment_store::{load_champions, store_segment};
pub use shared::backup_shared;

#[cfg(test)]
mod test_faults;
#[cfg(test)]
mod test_lines;
#[cfg(test)]
mod test_state;
#[cfg(test)]
mod tests;
