//! What a run of the program does: its words are read, its command is carried out, and its answer is a status.
#![tactic(auto)]

mod chunk_lines;
mod command;
mod fault_lines;
mod feed_source;
mod jobs;
mod laws;
mod line_printer;
mod listing;
mod names;
mod opening;
mod printing;
mod reporting;
mod run;
mod segments;
mod stop;

pub use command::{Command, command_of};
pub use laws::{listed_or_refused, whole_fault_lines};
pub use run::{Lane, run_solo};

#[cfg(test)]
mod damage_tests;
#[cfg(test)]
mod job_fault_tests;
#[cfg(test)]
mod job_tests;
#[cfg(test)]
mod journal_tests;
#[cfg(test)]
mod reclaim_tests;
#[cfg(test)]
mod sink_fault_tests;
#[cfg(test)]
mod tests;
#[cfg(test)]
mod transcripts;
