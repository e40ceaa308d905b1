//! The entries of a store's journal: as values, as bytes, and what each weighs.
#![tactic(auto)]

mod counts;
mod decoding;
mod encoding;
mod entry;
mod fault;
mod item;
mod items;
mod laws;
mod reading;
mod weight;
mod writing;

pub use counts::are_counts;
pub use decoding::decode_entry;
pub use encoding::encode_entry;
pub use entry::{Entry, Point, Seen, Totals};
pub use items::Items;
pub use laws::one_reading;
pub use weight::point_weight;

#[cfg(test)]
mod text_tests;
#[cfg(test)]
mod value_tests;
