//! What the program prints of what happened, the lines of entries and of jobs, and the status of what a job answered.
#![tactic(auto)]

mod answer;
mod entry_lines;
mod job_lines;
mod names;
mod outcome;
mod points;
mod status;
mod words;

pub use answer::{JobAnswer, ReclaimFault};
pub use entry_lines::entry_line;
pub use job_lines::job_line;
pub use status::status_of;

#[cfg(test)]
mod job_tests;
#[cfg(test)]
mod tests;
