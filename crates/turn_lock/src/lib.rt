//! A state that threads change in turns, so that there is one list of what was done to it. A pass takes turns: it waits
//! until its ticket is served, finds the state with a list that goes on from what the pass has seen, and may add one
//! entry of its own. Passes are split from one another and joined again.
#![tactic(auto)]

mod inside;
mod law;
mod notes;
mod numbers;
mod pass;
mod turns;
mod view;

pub use history::Logged;
pub use inside::Inside;
pub use law::{Law, Opening};
pub use numbers::SplitFault;
pub use pass::{Note, Pass};
pub use turns::Turns;
pub use view::{Home, Known, View};

#[cfg(test)]
mod tests;
