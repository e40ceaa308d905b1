//! The history of a store: what the entries of its journal say of sessions, hooks and objects, and which may follow.
#![tactic(auto)]

mod choice_scan;
mod ids;
mod known_scan;
mod limits_scan;
mod logged;
mod need_scan;
mod own_ends;
mod reading_scan;
mod replies;
mod rules;
mod session_scan;
mod standing_scan;
mod totals_scan;

pub use choice_scan::pending_champions;
pub use journal_entry::{
    Entry, Items, Point, Seen, Totals, are_counts, decode_entry, encode_entry, one_reading,
    point_weight,
};
pub use limits_scan::is_within;
pub use logged::Logged;
pub use need_scan::erasable;
pub use own_ends::own_end;
pub use replies::{reply_to_begin, reply_to_look};
pub use rules::{Limits, Rules};
pub use session_scan::{is_held, retained};
pub use standing_scan::standing;
pub use totals_scan::totals;

#[cfg(test)]
mod scan_tests;
