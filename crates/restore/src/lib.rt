//! How a stream is restored: it is looked up, its manifests are loaded and their chunks checked one by one, and each is
//! added to the output. The reading is ended in every case.
#![tactic(auto)]

mod chunks;
mod faults;
mod laws;
mod manifests;
mod output;
mod shared;
mod solo;
mod stream;

pub use laws::{damage_of_a_restore, front_of_a_restore, output_of_a_restore};
pub use shared::restore_shared;
pub use solo::restore_solo;
pub use stream::restore_by;

#[cfg(test)]
mod test_restores;
#[cfg(test)]
mod test_state;
