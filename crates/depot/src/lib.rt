//! The depot: manifests and chunks that are checked as they are read, fresh ones that are written, and objects that
//! are erased, each by the shelf calls that its name says and no others.
#![tactic(auto)]

mod chunk_read;
mod depot;
mod fault;
mod loading;
mod removing;
mod shelf_calls;
mod storing;
mod tokens;

pub use depot::Depot;
pub use fault::{BackupFault, LoadFault, ReadFault, RestoreFault};
pub use tokens::{Placed, Written};

#[cfg(test)]
mod test_chunks;
#[cfg(test)]
mod test_loads;
#[cfg(test)]
mod test_removals;
#[cfg(test)]
mod test_state;
#[cfg(test)]
mod test_stores;
