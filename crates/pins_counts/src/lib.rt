//! The numbers by which a store knows that nothing needs an object: how many live manifests use each container, how
//! often each manifest is held, which sessions are closed, and which objects are gone.
#![tactic(auto)]

mod awaiting;
mod counts;
mod fact;
mod kind;
mod run;
mod tally;
mod waiting;

pub use counts::Counts;
pub use ss_base::Ended;

#[cfg(test)]
mod tests;
