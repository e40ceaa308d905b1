//! The numbers of a history that a store keeps running: totals, weight, what is unfinished, and the next author.
#![tactic(auto)]

mod parts;
mod tally;
mod totals;

pub use tally::Tally;

#[cfg(test)]
mod tests;
