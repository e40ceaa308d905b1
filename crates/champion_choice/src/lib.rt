//! The greedy choice of champions for the hooks of a segment, by scores that are kept from round to round.
#![tactic(auto)]

mod choice;
mod covered;
mod places;
mod score;

pub use choice::{choose, choose_among};

#[cfg(test)]
mod tests;
