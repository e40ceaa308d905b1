//! The fingerprint of a window of 48 bytes, by which streams are cut: of one window, and carried from byte to byte.
#![tactic(auto)]

mod roll;
mod sum;
mod window;

pub use roll::Roll;
pub use sum::{append, high_half, slide};
pub use window::{fingerprint, sum_of};

#[cfg(test)]
mod tests;
